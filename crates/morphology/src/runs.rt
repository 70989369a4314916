// Contiguous cells combined one by one: the inner loops of erosion, dilation, meet and join.
ghost use Rattle.std.specs.Prelude.{◌≡◌, not, ◌==◌, None, map, length, replicate, MatchResult};
ghost use Rattle.limits.specs.Faults.{first, told};
ghost use Rattle.limits.specs.declared.fault.Fault.TheVariants.{Length};
ghost use Rattle.morphology.specs.Cells.{combined};

use crate::extremum::Extremum;
use levels::level::Level;
use limits::Fault;

// Each cell keeps the extreme of itself and of the other at its place.
pub(crate) fn combine_run<L: Level>(which: Extremum, others: &[L], cells: &mut [L])
    requires { length others.now ≡ length cells.old }
    ensures { map L.height cells.new ≡ combined which (map L.height cells.old) (map L.height others.now) }
{
    // The others by place: after a zip a proof knows no more of the cells than their length.
    for (k, cell) in cells.iter_mut().enumerate() {
        *cell = which.kept(*cell, others[k]);
    }
}

// Each cell keeps the extreme of itself and of what lies outside the sheet.
pub(crate) fn combine_outside<L: Level>(which: Extremum, cells: &mut [L])
    ensures { map L.height cells.new ≡ combined which (map L.height cells.old) (replicate (length cells.old) 0) }
{
    for cell in cells.iter_mut() {
        *cell = which.kept(*cell, L::lowest());
    }
}

/// Keeps at each cell the lower or the higher of itself and of the other at its place.
/// Refuses two lists of different lengths (4), and then leaves the cells as they were.
pub fn keep_extremes<L: Level>(which: Extremum, others: &[L], cells: &mut [L]) -> Result<(), Fault>
    ensures answers { result ≡ told (first (not (length others.now == length cells.old)) Length None) }
    ensures memory { MatchResult result
        (λ _. map L.height cells.new ≡ combined which (map L.height cells.old) (map L.height others.now))
        (λ _. cells.new ≡ cells.old) }
{
    if others.len() != cells.len() {
        return Err(Fault::Length);
    }
    combine_run(which, others, cells);
    Ok(())
}
