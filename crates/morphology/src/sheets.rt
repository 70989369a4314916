// The sides and lengths that make sheets.
ghost use Rattle.std.specs.Prelude.{◌≡◌, None, Some, MatchResult};
ghost use Rattle.morphology.specs.Sheets.{lists_refusal};

use limits::{Fault, Sides};

/// The sides of sheets of w × h levels that lists of these lengths hold.
/// Refuses a side that is not 1 to 1,024 (1), and then a list that has not w × h levels (4).
pub fn check_sheets(w: usize, h: usize, lens: &[usize]) -> Result<Sides, Fault>
    ensures { MatchResult result
        (λ sides. (sides.w ≡ w) × (sides.h ≡ h) × (lists_refusal w h lens.now ≡ None))
        (λ fault. lists_refusal w h lens.now ≡ Some fault) }
{
    let sides = Sides::new(w, h)?;
    let cells = sides.cells();
    if !lens.iter().all(|len| *len == cells) {
        return Err(Fault::Length);
    }
    Ok(sides)
}
