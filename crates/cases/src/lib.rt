// What the programs of cases have in common: the level kinds that they run at, and printed answers.
#![tactic(auto)]

mod answer;
mod kind;
mod kinds;

pub use answer::{Answer, Heights};
pub use kind::{Kind, first_levels};
pub use kinds::{Cases, run_at_every_kind};
