// The worked figures of the operators.
ghost use Rattle.operators.specs.Figures.{FiguresAreRight, FurtherFiguresAreRight, RestoreFiguresAreRight};

/// The definitions give the worked figures.
pub fn worked_figures()
    ensures figures { FiguresAreRight }
    ensures further { FurtherFiguresAreRight }
    ensures restore { RestoreFiguresAreRight }
{}
