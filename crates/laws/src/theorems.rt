// The laws, each the contract of a function that does nothing.
ghost use Rattle.laws.specs.Closings.{ClosingsHaveEntries, DilationAndErosionInsideClose, PairsClose};
ghost use Rattle.laws.specs.Openings.{PairsOpen};
ghost use Rattle.laws.specs.Pairs.{ErosionAndDilationArePair};
ghost use Rattle.laws.specs.Reconstruction.{PairsReconstruct};
ghost use Rattle.laws.specs.Skeletons.{PairsRestore};
ghost use Rattle.laws.specs.Spectra.{PairsHaveSpectra, SpectraOfBoth};
ghost use Rattle.laws.specs.Sums.{SheetsAreSumsOfCuts};

use elements::Element;

/// Erosion and dilation by an element keep the laws of a pair, and dilation and the erosion that skips offsets falling outside those of a
/// pair to close with.
pub fn element_laws(element: &Element)
    ensures pair { ErosionAndDilationArePair element.now }
    ensures closing { DilationAndErosionInsideClose element.now }
{}

/// A sheet is the sum of its cuts.
#[tactic(auto, using(crate::proofs::SumsOfCuts::sheets_are_sums_of_cuts))]
pub fn cut_laws()
    ensures { SheetsAreSumsOfCuts }
{}

/// Openings by any such pair never rise above the sheet and fall with the size.
#[tactic(auto, using(crate::proofs::Openings::pairs_open))]
pub fn opening_laws()
    ensures { PairsOpen }
{}

/// Closings never fall below the sheet and grow with the size, so that no entry of a negative size is negative.
#[tactic(auto, using(crate::proofs::Closings::pairs_close, crate::proofs::ClosingEntries::closings_have_entries))]
pub fn closing_laws()
    ensures closings { PairsClose }
    ensures entries { ClosingsHaveEntries }
{}

/// Reconstruction settles after the rounds that are told, and these are the greatest of those of the cuts.
#[tactic(auto, using(crate::proofs::Reconstruction::pairs_reconstruct))]
pub fn reconstruction_laws()
    ensures { PairsReconstruct }
{}

/// Restoring a skeleton gives back every opening of its sheet, no step of it lowers a cell, and skeletons are the sums of those of the
/// cuts.
#[tactic(auto, using(crate::proofs::Skeletons::pairs_restore))]
pub fn skeleton_laws()
    ensures { PairsRestore }
{}

/// From size 0 on no entry of a spectrum is negative, and they sum to what the openings take away and with the rest to the area; and
/// spectra are the sums of those of the cuts.
#[tactic(auto, using(crate::proofs::Spectra::pairs_have_spectra, crate::proofs::Spectra::spectra_of_both))]
pub fn spectrum_laws()
    ensures openings { PairsHaveSpectra }
    ensures spectra { SpectraOfBoth }
{}
