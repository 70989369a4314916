// Every call on a bench but cut as a model, in heights: what it refuses, leaves and tells, and a run of calls.
#![tactic(auto)]

mod worked;

pub use worked::worked_runs;
