// The erosion that skips what falls outside, and the calls that stand on closings.
#![tactic(auto)]

mod closing;
mod inside;
mod passes;
mod spectra;

pub use closing::{close, valley};
pub use inside::ErosionInside;
pub use spectra::{PatternSpectrum, spectrum};
