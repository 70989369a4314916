// Measurements that are made of maps.
#![tactic(auto)]

mod areas;
mod skeleton;
mod subtracting;

pub use areas::{Areas, area_of};
pub use skeleton::Skeleton;
pub use subtracting::subtract_next;
