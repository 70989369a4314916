// Erosion and dilation of sheets of any level kind, and what makes a sheet of one or two others.
#![tactic(auto)]

mod erosion;
mod extremum;
mod map;
mod measurement;
mod operation;
mod passes;
mod runs;
mod sheets;
mod sweep;
mod transform;

pub use erosion::{dilate, erode, operate};
pub use extremum::Extremum;
pub use map::SheetMap;
pub use measurement::Measurement;
pub use operation::Operation;
pub use passes::margins;
pub use runs::keep_extremes;
pub use sheets::check_sheets;
pub use transform::{ByElement, CellByCell, Transform};
