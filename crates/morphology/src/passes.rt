// Passes of one offset over the rows of a sheet.
ghost use Rattle.std.specs.Prelude.{◌≡◌, ◌-◌, ◌*◌, ◌<◌, ℕ, min, map, length, slice_index};
ghost use Rattle.morphology.specs.Passes.{extreme, in_row, neighbour};
ghost use Rattle.morphology.specs.Sheets.{at_place};

use crate::extremum::Extremum;
use crate::runs::{combine_outside, combine_run};
use levels::level::Level;
use limits::Sides;

/// How many places at the start and at the end of a side have no place c − 3 places on.
pub fn margins(side: usize, c: usize) -> (usize, usize)
    ensures start { result.0 ≡ min (3 - c) side }
    ensures end { result.1 ≡ min (c - 3) side }
{
    (
        3usize.saturating_sub(c).min(side),
        c.saturating_sub(3).min(side),
    )
}

// Every cell of a row keeps the extreme of itself and of the cell c − 3 columns on in the row `others`.
fn combine_row<L: Level>(which: Extremum, others: &[L], cells: &mut [L], c: usize)
    requires { length others.now ≡ length cells.old }
    ensures { (m : ℕ) → m < length cells.old → slice_index (map L.height cells.new) m
        ≡ extreme which (slice_index (map L.height cells.old) m) (in_row (length cells.old) (map L.height others.now) c m) }
{
    let w = cells.len();
    let (left, right) = margins(w, c);
    combine_outside(which, &mut cells[..left]);
    combine_run(which, &others[right..w - left], &mut cells[left..w - right]);
    combine_outside(which, &mut cells[w - right..]);
}

// Every cell keeps the extreme of itself and of its neighbour c − 3 columns and r − 3 rows on.
// The rows whose neighbours lie on the sheet have a loop of their own, which reads nothing else: so the test that
// `from` and `to` do not overlap, on which the vectorised loop depends, holds wherever they lie.
pub(crate) fn pass<L: Level>(
    which: Extremum,
    from: &[L],
    to: &mut [L],
    sides: Sides,
    c: usize,
    r: usize,
)
    requires source { length from.now ≡ sides.w * sides.h }
    requires target { length to.old ≡ sides.w * sides.h }
    ensures { (p : ℕ) → p < sides.w * sides.h → slice_index (map L.height to.new) p
        ≡ extreme which (slice_index (map L.height to.old) p)
        (at_place sides.w (neighbour sides.w sides.h (map L.height from.now) c r) p) }
{
    let w = sides.w;
    let (above, below) = margins(sides.h, r);
    let end = sides.h - below;
    combine_outside(which, &mut to[..above * w]);
    // By number: after `chunks_exact_mut(w)` a proof knows nothing of what was written to the rows.
    for row in above..end {
        let source = (row + r - 3) * w;
        let target = row * w;
        combine_row(
            which,
            &from[source..source + w],
            &mut to[target..target + w],
            c,
        );
    }
    combine_outside(which, &mut to[end * w..]);
}
