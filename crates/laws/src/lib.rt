// The laws of erosion and dilation, and of what is made of them: openings, closings, reconstruction, skeletons and spectra.
#![tactic(auto)]

mod theorems;

pub use theorems::{
    closing_laws, cut_laws, element_laws, opening_laws, reconstruction_laws, skeleton_laws,
    spectrum_laws,
};
