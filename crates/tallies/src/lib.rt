// The calls that make a tally, of sheets or of tallies, and the one that shows one.
#![tactic(auto)]

mod differences;
mod order;
mod showing;
mod weighed;

pub use differences::{differ, difference, edge, peak};
pub use order::Order;
pub use showing::show_tally;
pub use weighed::{add, scale};
