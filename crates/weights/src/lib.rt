// What is kept of a tally beside its cells: its weight, and the rules of weights.
#![tactic(auto)]

mod combination;
mod weight;

pub use combination::Combination;
pub use weight::Weight;
