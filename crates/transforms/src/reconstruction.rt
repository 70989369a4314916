// Reconstruction by a map that swells: rounds until one changes nothing.
ghost use Rattle.std.specs.Prelude.{◌≡◌, ◌<◌, ◌*◌, ◌↔◌, ℕ, List, [], ◌∷◌, IsTrue, map, length, MatchBool, MatchResult};
ghost use Rattle.laws.specs.Maps.{Below};
ghost use Rattle.limits.specs.Faults.{tells};
ghost use Rattle.morphology.specs.Cells.{met};
ghost use Rattle.morphology.specs.Sheets.{area, lists_refusal};
ghost use Rattle.operators.specs.Maps.{times};
ghost use Rattle.operators.specs.Reconstruction.{changing_times, reconstructed, round, rounds};

use crate::mapped::apply;
use crate::swelling::Swelling;
use levels::level::Level;
use limits::{Fault, Sides};
use morphology::{Extremum, SheetMap, Transform, check_sheets, keep_extremes};

/// The reconstruction of the second sheet, the upper one, from the first, the marker, by a map that swells. It reports the number of
/// changing rounds.
#[derive(Drop)]
pub struct Reconstruction<M: SheetMap> {
    pub swell: Swelling<M>,
}

// Each cell keeps the lower of itself and of the cell of the upper sheet at its place.
fn meet<L: Level>(upper: &[L], cells: &mut [L])
    requires { length upper.now ≡ length cells.old }
    ensures meets { map L.height cells.new ≡ met (map L.height cells.old) (map L.height upper.now) }
    ensures under { Below (map L.height cells.new) (map L.height upper.now) }
{
    keep_extremes(Extremum::Minimum, upper, cells).unwrap()
}

// Whether no cell of one list is above that of another at its place.
fn nowhere_above<L: Level>(one: &[L], other: &[L]) -> bool
    requires { length one.now ≡ length other.now }
    ensures { IsTrue result ↔ Below (map L.height one.now) (map L.height other.now) }
{
    // Without an early return, so that the compiler vectorises the loop.
    let mut below = true;
    for (k, level) in one.iter().enumerate() {
        below &= level.at_most(other[k]);
    }
    below
}

// A round from a sheet nowhere above the upper one: the sheet becomes what the round makes of it. Tells whether that changed it.
fn raise<M: SheetMap, L: Level>(
    by: &Swelling<M>,
    upper: &[L],
    sheet: &mut [L],
    spare: &mut [L],
    sides: Sides,
) -> bool
    requires upper { length upper.now ≡ sides.w * sides.h }
    requires sheet { length sheet.old ≡ sides.w * sides.h }
    requires spare { length spare.old ≡ sides.w * sides.h }
    requires under { Below (map L.height sheet.old) (map L.height upper.now) }
    ensures round { map L.height sheet.new
        ≡ round (M.maps by.now.map sides.w sides.h) (map L.height upper.now) (map L.height sheet.old) }
    ensures under { Below (map L.height sheet.new) (map L.height upper.now) }
    ensures changes { MatchBool result
        (area (map L.height sheet.old) < area (map L.height sheet.new))
        (sheet.new ≡ sheet.old) }
{
    apply(&by.map, sheet, spare, sides);
    meet(upper, spare);
    if nowhere_above(spare, sheet) {
        return false;
    }
    sheet.copy_from_slice(spare);
    true
}

// Rounds until one changes nothing; tells how many changed the sheet. Each of these raises its area, and the upper sheet bounds it.
fn settle<M: SheetMap, L: Level>(
    by: &Swelling<M>,
    upper: &[L],
    sheet: &mut [L],
    spare: &mut [L],
    sides: Sides,
) -> u64
    requires upper { length upper.now ≡ sides.w * sides.h }
    requires sheet { length sheet.old ≡ sides.w * sides.h }
    requires spare { length spare.old ≡ sides.w * sides.h }
    requires under { Below (map L.height sheet.old) (map L.height upper.now) }
    ensures rounds { result ≡ changing_times (area (map L.height upper.now))
        (round (M.maps by.now.map sides.w sides.h) (map L.height upper.now)) (map L.height sheet.old) }
    ensures sheet { map L.height sheet.new ≡ times result
        (round (M.maps by.now.map sides.w sides.h) (map L.height upper.now)) (map L.height sheet.old) }
{
    let mut count = 0;
    loop {
        if !raise(by, upper, sheet, spare, sides) {
            break count;
        }
        count += 1;
    }
}

impl<M: SheetMap> Transform for Reconstruction<M> {
    type Report = u64;

    ghost makes = { λ t w h f g. reconstructed (M.maps t.swell.map w h) f g };

    ghost report_of = { λ t w h f g. rounds (M.maps t.swell.map w h) f g };

    fn transform<L: Level>(
        &self,
        one: &[L],
        other: &[L],
        to: &mut [L],
        spare: &mut [L],
        w: usize,
        h: usize,
    ) -> Result<u64, Fault> {
        let sides = check_sheets(w, h, &[one.len(), other.len(), to.len(), spare.len()])?;
        to.copy_from_slice(one);
        meet(other, to);
        Ok(settle(&self.swell, other, to, spare, sides))
    }
}
