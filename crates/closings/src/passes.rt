// The passes of an element's offsets over the rows of a sheet, where cells whose neighbours lie outside keep what they have.
ghost use Rattle.std.specs.Prelude.{◌≡◌, ◌*◌, ◌<◌, ℕ, map, length, slice_index};
ghost use Rattle.elements.specs.Elements.{offsets};
ghost use Rattle.closings.specs.Passes.{lowered, neighbour_inside, swept_inside};
ghost use Rattle.morphology.specs.Passes.{in_row, neighbour, on_side};
ghost use Rattle.morphology.specs.Sheets.{at_place};

use elements::Element;
use levels::level::Level;
use limits::Sides;
use morphology::{Extremum, keep_extremes, margins};

// Every cell of a row keeps the lower of itself and of the cell c − 3 columns on in the row `others`, if there is one.
fn lower_row<L: Level>(others: &[L], cells: &mut [L], c: usize)
    requires { length others.now ≡ length cells.old }
    ensures { (m : ℕ) → m < length cells.old → slice_index (map L.height cells.new) m
        ≡ lowered (on_side (length cells.old) m c) (slice_index (map L.height cells.old) m)
        (in_row (length cells.old) (map L.height others.now) c m) }
{
    let w = cells.len();
    let (left, right) = margins(w, c);
    keep_extremes(
        Extremum::Minimum,
        &others[right..w - left],
        &mut cells[left..w - right],
    )
    .unwrap();
}

// Every cell keeps the lower of itself and of its neighbour c − 3 columns and r − 3 rows on, if that lies on the sheet.
fn pass_inside<L: Level>(from: &[L], to: &mut [L], sides: Sides, c: usize, r: usize)
    requires source { length from.now ≡ sides.w * sides.h }
    requires target { length to.old ≡ sides.w * sides.h }
    ensures { (p : ℕ) → p < sides.w * sides.h → slice_index (map L.height to.new) p
        ≡ lowered (neighbour_inside sides.w sides.h c r p) (slice_index (map L.height to.old) p)
        (at_place sides.w (neighbour sides.w sides.h (map L.height from.now) c r) p) }
{
    let w = sides.w;
    let (above, below) = margins(sides.h, r);
    // By number: after `chunks_exact_mut(w)` a proof knows nothing of what was written to the rows.
    for row in above..sides.h - below {
        let source = (row + r - 3) * w;
        let target = row * w;
        lower_row(&from[source..source + w], &mut to[target..target + w], c);
    }
}

// Every cell of `to`, a copy of `from`, becomes the least of itself and of the levels of `from` at the element's offsets from it
// that stay on the sheet.
pub(crate) fn sweep_inside<L: Level>(from: &[L], to: &mut [L], sides: Sides, element: &Element)
    requires source { length from.now ≡ sides.w * sides.h }
    requires target { to.old ≡ from.now }
    ensures { (p : ℕ) → p < sides.w * sides.h → slice_index (map L.height to.new) p
        ≡ swept_inside sides.w sides.h (map L.height from.now) (offsets element.now) p }
{
    // By number: an element tells its offsets by `holds` alone, and the number gives column and row.
    for index in 0..49 {
        if element.holds(index) {
            pass_inside(from, to, sides, index % 7, index / 7);
        }
    }
}
