// What a map makes of a sheet, once and so many times.
ghost use Rattle.std.specs.Prelude.{◌≡◌, ◌*◌, [], ◌∷◌, map, length, MatchResult};
ghost use Rattle.limits.specs.Faults.{told};
ghost use Rattle.morphology.specs.Sheets.{lists_refusal};
ghost use Rattle.operators.specs.Maps.{times};

use levels::level::Level;
use limits::{Fault, Sides};
use morphology::{SheetMap, check_sheets};

// Writes what a map makes of the sheet `from`, whose sides and length are right, to the list `to`.
pub(crate) fn apply<M: SheetMap, L: Level>(by: &M, from: &[L], to: &mut [L], sides: Sides)
    requires source { length from.now ≡ sides.w * sides.h }
    requires target { length to.old ≡ sides.w * sides.h }
    ensures { map L.height to.new ≡ M.maps by.now sides.w sides.h (map L.height from.now) }
{
    by.apply(from, to, sides.w, sides.h).unwrap()
}

// The sheet becomes what a map makes of it, so many times; the list `spare` is for the sheets on the way.
pub(crate) fn repeat<M: SheetMap, L: Level>(
    by: &M,
    size: usize,
    cells: &mut [L],
    spare: &mut [L],
    sides: Sides,
)
    requires sheet { length cells.old ≡ sides.w * sides.h }
    requires spare { length spare.old ≡ sides.w * sides.h }
    ensures { map L.height cells.new ≡ times size (M.maps by.now sides.w sides.h) (map L.height cells.old) }
{
    // Two maps at a time, to and fro between the two lists.
    for _ in 0..size / 2 {
        apply(by, cells, spare, sides);
        apply(by, spare, cells, sides);
    }
    if size % 2 == 1 {
        apply(by, cells, spare, sides);
        cells.copy_from_slice(spare);
    }
}

/// The sheet of w × h levels in the list `cells` becomes what a map makes of it, so many times. The list `spare` is for the sheets on
/// the way; what it holds afterwards is free.
/// Refuses a side that is not 1 to 1,024 (1), then a list that has not w × h levels (4), and then leaves both lists as they were.
pub fn apply_times<M: SheetMap, L: Level>(
    by: &M,
    size: usize,
    cells: &mut [L],
    spare: &mut [L],
    w: usize,
    h: usize,
) -> Result<(), Fault>
    ensures answers { result ≡ told (lists_refusal w h (length cells.old ∷ length spare.old ∷ [])) }
    ensures memory { MatchResult result
        (λ _. map L.height cells.new ≡ times size (M.maps by.now w h) (map L.height cells.old))
        (λ _. (cells.new ≡ cells.old) × (spare.new ≡ spare.old)) }
{
    let sides = check_sheets(w, h, &[cells.len(), spare.len()])?;
    repeat(by, size, cells, spare, sides);
    Ok(())
}
