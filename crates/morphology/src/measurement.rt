// What tells numbers of a sheet, whatever its level kind.
ghost use Rattle.std.specs.Prelude.{◌≡◌, ◌*◌, ℕ, List, [], ◌∷◌, map, length, MatchResult};
ghost use Rattle.limits.specs.Faults.{told};
ghost use Rattle.morphology.specs.Measuring.{measure_refusal, numbers_refusal};

use levels::level::Level;
use limits::{Fault, Sides};

/// A measurement tells a list of numbers of a sheet, to a depth. Its meaning is these numbers, by the heights of the sheet and the
/// same for every level kind.
pub trait Measurement {
    /// What an entry of its list is: a number of some type.
    type Entry: Copy;

    // Its depth, how many numbers it tells of a sheet of so many cells, and the numbers that it tells of a sheet of w × h heights.
    ghost depth_of: { Self → ℕ };

    ghost len_of: { Self → ℕ → ℕ };

    ghost numbers_of: { Self → ℕ → ℕ → List ℕ → List Self.Entry };

    /// Whether its depth is one, and a list has as many numbers as it tells of a sheet of these sides.
    /// Refuses a depth that is not 1 to 64 (7), and then a list of another length (8).
    fn check(&self, sides: Sides, len: usize) -> Result<(), Fault>
        ensures { result ≡ told (numbers_refusal (depth_of self.now) (len_of self.now (sides.w * sides.h)) len) };

    /// Writes the numbers that it tells of a sheet of w × h levels to a list. The lists `plane` and `spare` are for steps on the
    /// way; what they hold afterwards is free.
    /// Refuses a side that is not 1 to 1,024 (1), one of the first three lists that has not w × h levels (4), and then 7 and 8, as
    /// `check` does; and then leaves every list as it was.
    fn measure<L: Level>(
        &self,
        sheet: &[L],
        plane: &mut [L],
        spare: &mut [L],
        w: usize,
        h: usize,
        list: &mut [Self::Entry],
    ) -> Result<(), Fault>
        ensures answers { result ≡ told (measure_refusal w h
            (length sheet.now ∷ length plane.old ∷ length spare.old ∷ [])
            (depth_of self.now) (len_of self.now (w * h)) (length list.old)) }
        ensures memory { MatchResult result
            (λ _. list.new ≡ numbers_of self.now w h (map L.height sheet.now))
            (λ _. (list.new ≡ list.old) × (plane.new ≡ plane.old) × (spare.new ≡ spare.old)) };
}
