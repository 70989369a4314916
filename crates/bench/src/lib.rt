// The bench: a rack of sheets and a slate of tallies in lent memory, and the visits on them.
#![tactic(auto)]

mod clearing;
mod differences;
mod loading;
mod marking;
mod marks;
mod numbers;
mod opening;
mod planes;
mod rack;
mod sheets;
mod slate;
mod slip;
mod tallies;
mod visit;
mod visits;

pub use differences::check_difference;
pub use loading::load;
pub use rack::Rack;
pub use slate::Slate;
pub use slip::{EndRefused, Slip};
pub use visit::Visit;
pub use visits::{begin, end};
