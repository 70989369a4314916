// Transformations that are made of maps, and maps applied so many times.
#![tactic(auto)]

mod in_turn;
mod mapped;
mod reconstruction;
mod swelling;

pub use in_turn::InTurn;
pub use mapped::apply_times;
pub use reconstruction::Reconstruction;
pub use swelling::Swelling;
