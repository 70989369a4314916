// What makes a sheet of another, whatever their level kind.
ghost use Rattle.std.specs.Prelude.{◌≡◌, ℕ, List, [], ◌∷◌, map, length, MatchResult};
ghost use Rattle.elements.specs.Elements.{offsets};
ghost use Rattle.limits.specs.Faults.{told};
ghost use Rattle.morphology.specs.Erosion.{operated};
ghost use Rattle.morphology.specs.Sheets.{lists_refusal};

use crate::erosion::operate;
use crate::transform::ByElement;
use levels::level::Level;
use limits::Fault;

/// A map makes a sheet of another of the same sides. Its meaning is that sheet, in heights and the same for every level kind.
/// What is made of maps, as an opening of two of them, asks no more of each.
pub trait SheetMap {
    // What it makes of a sheet of w × h heights.
    ghost maps: { Self → ℕ → ℕ → List ℕ → List ℕ };

    /// Writes what it makes of the sheet `from` of w × h levels to the list `to`.
    /// Refuses a side that is not 1 to 1,024 (1), then a list that has not w × h levels (4), and then leaves `to` as it was.
    fn apply<L: Level>(&self, from: &[L], to: &mut [L], w: usize, h: usize) -> Result<(), Fault>
        ensures answers { result ≡ told (lists_refusal w h (length from.now ∷ length to.old ∷ [])) }
        ensures memory { MatchResult result
            (λ _. map L.height to.new ≡ maps self.now w h (map L.height from.now))
            (λ _. to.new ≡ to.old) };
}

impl<'e> SheetMap for ByElement<'e> {
    ghost maps = { λ t w h f. operated t.op w h (offsets t.element.now) f };

    fn apply<L: Level>(&self, from: &[L], to: &mut [L], w: usize, h: usize) -> Result<(), Fault> {
        operate(self.op, from, to, w, h, self.element)
    }
}
