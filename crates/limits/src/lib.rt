// The refusals of the library, and the limits on sizes.
#![tactic(auto)]

mod fault;
mod sides;
mod sizes;

pub use fault::Fault;
pub use sides::Sides;
pub use sizes::{check_factor, check_rack, check_size, check_sizes, check_slate};
