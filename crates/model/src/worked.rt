// The worked runs of the model.
ghost use Rattle.model.specs.WorkedRuns.{RunsAreRight};

/// The definitions of the calls give the worked runs.
pub fn worked_runs()
    ensures { RunsAreRight }
{}
