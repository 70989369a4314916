// The two operations by an element: which of the levels that it reads each keeps, and where it reads them.
ghost use Rattle.std.specs.Prelude.{◌≡◌, ◌≤◌};
ghost use Rattle.morphology.specs.Passes.{kept_by, turned};

use crate::extremum::Extremum;

/// One of the two operations by an element: erosion, which keeps the lowest of the levels at its offsets, or dilation, which keeps
/// the highest of those at the opposite ones.
#[derive(Clone, Copy)]
pub enum Operation {
    Erosion,
    Dilation,
}

impl Operation {
    // Which of two levels the operation keeps.
    pub(crate) fn extremum(self) -> Extremum
        ensures { result ≡ kept_by self }
    {
        match self {
            Operation::Erosion => Extremum::Minimum,
            Operation::Dilation => Extremum::Maximum,
        }
    }

    // The offset's side, told as 0 to 6, at which the operation reads: dilation reads at the opposite one.
    pub(crate) fn turned(self, side: usize) -> usize
        requires { side ≤ 6 }
        ensures { result ≡ turned self side }
    {
        match self {
            Operation::Erosion => side,
            Operation::Dilation => 6 - side,
        }
    }
}
