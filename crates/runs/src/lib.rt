// What holds of every run of calls on a bench.
#![tactic(auto)]

mod theorems;

pub use theorems::{refusals_in_order, runs_of_a_kind, runs_of_every_top};
