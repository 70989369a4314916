// Structuring elements, and the reader and the writer of element cards.
#![tactic(auto)]

mod cards;
mod element;
mod offset;
mod writing;

pub use cards::{CardFault, read_card};
pub use element::Element;
pub use offset::Offset;
pub use writing::write_card;
