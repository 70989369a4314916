// What is made of erosion and dilation, as definitions: openings, closings, reconstruction, skeletons, pattern spectra and
// differences. The laws stand in the crate above.
#![tactic(auto)]

mod figures;

pub use figures::worked_figures;
