// Restoring sheets from skeletons.
#![tactic(auto)]

mod by_skeleton;
mod on_lists;
mod rebuilding;
#[cfg(test)]
mod tests;

pub use by_skeleton::open_by_skeleton;
pub use on_lists::restore;
