// Erosion and dilation as calls of the library, each one text for every level kind.
ghost use Rattle.std.specs.Prelude.{◌≡◌, [], ◌∷◌, map, length, MatchResult};
ghost use Rattle.elements.specs.Elements.{offsets};
ghost use Rattle.morphology.specs.Erosion.{eroded, dilated, operated};
ghost use Rattle.limits.specs.Faults.{told};
ghost use Rattle.morphology.specs.Sheets.{lists_refusal};

use crate::operation::Operation;
use crate::sheets::check_sheets;
use crate::sweep::sweep;
use elements::Element;
use levels::level::Level;
use limits::Fault;

// w and h are plain numbers, here and in the other calls on lists: callers may hand in any, and are refused.
/// Writes what an operation by an element makes of the sheet `from` of w × h levels to the list `to`.
/// Refuses a side that is not 1 to 1,024 (1), then a list that has not w × h levels (4), and then leaves `to` as it was.
pub fn operate<L: Level>(
    op: Operation,
    from: &[L],
    to: &mut [L],
    w: usize,
    h: usize,
    element: &Element,
) -> Result<(), Fault>
    ensures answers { result ≡ told (lists_refusal w h (length from.now ∷ length to.old ∷ [])) }
    ensures memory { MatchResult result
        (λ _. map L.height to.new ≡ operated op w h (offsets element.now) (map L.height from.now))
        (λ _. to.new ≡ to.old) }
{
    let sides = check_sheets(w, h, &[from.len(), to.len()])?;
    // The element has (0, 0), so every cell may start from its own level.
    to.copy_from_slice(from);
    sweep(op, from, to, sides, element);
    Ok(())
}

// The names of the two calls are the users', so each stands over `operate`.
/// Writes the erosion of the sheet `from` of w × h levels by an element to the list `to`.
/// Each cell becomes the least of the levels at the element's offsets from it; outside counts as lowest.
/// Refuses 1 and 4, as `operate` does, and then leaves `to` as it was.
pub fn erode<L: Level>(
    from: &[L],
    to: &mut [L],
    w: usize,
    h: usize,
    element: &Element,
) -> Result<(), Fault>
    ensures answers { result ≡ told (lists_refusal w h (length from.now ∷ length to.old ∷ [])) }
    ensures memory { MatchResult result
        (λ _. map L.height to.new ≡ eroded w h (offsets element.now) (map L.height from.now))
        (λ _. to.new ≡ to.old) }
{
    operate(Operation::Erosion, from, to, w, h, element)
}

/// Writes the dilation of the sheet `from` of w × h levels by an element to the list `to`.
/// Each cell becomes the greatest of the levels at the opposites of the element's offsets from it; outside counts as lowest.
/// Refuses 1 and 4, as `operate` does, and then leaves `to` as it was.
pub fn dilate<L: Level>(
    from: &[L],
    to: &mut [L],
    w: usize,
    h: usize,
    element: &Element,
) -> Result<(), Fault>
    ensures answers { result ≡ told (lists_refusal w h (length from.now ∷ length to.old ∷ [])) }
    ensures memory { MatchResult result
        (λ _. map L.height to.new ≡ dilated w h (offsets element.now) (map L.height from.now))
        (λ _. to.new ≡ to.old) }
{
    operate(Operation::Dilation, from, to, w, h, element)
}
