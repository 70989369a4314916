// Heat readings, and the heat levels that they stand for.
#![tactic(auto)]

mod fault;
mod lists;
mod reading;

pub use fault::ReadingFault;
pub use lists::{read_heat, tell_heat};
pub use reading::Reading;
