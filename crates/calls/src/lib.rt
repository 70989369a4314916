// The calls on the sheets of a bench: those that make a sheet, and those that tell or copy out what is there.
#![tactic(auto)]

mod cells;
mod made;
mod openings;
mod queries;
mod skeletons;
mod spot;

pub use made::{dilate, erode, join, meet};
pub use openings::{in_turn, open, regrow};
pub use queries::{area, cut, show_sheet, span};
pub use skeletons::skeleton;
pub use spot::Spot;
