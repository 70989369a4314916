// What is told of the levels of a sheet, and its mask at a height.
ghost use Rattle.std.specs.Prelude.{◌≡◌, ◌≤◌, map, length, if◌then◌else◌, nat_le};
ghost use Rattle.calls.specs.Queries.{extreme_spot, spot_numbers};
ghost use Rattle.levels.specs.Mask.{mask_height};
ghost use Rattle.morphology.specs.Cells.{cut, extreme_of, first_place};

use crate::spot::Spot;
use levels::Mask;
use levels::level::Level;
use morphology::Extremum;

// The mask level of a level at a height: yes exactly where its height is at least that.
fn mask_of<L: Level>(level: L, height: u32) -> Mask
    ensures { mask_height result ≡ (if nat_le height (L.height level) then 1 else 0) }
{
    if level.height() >= height {
        Mask::Yes
    } else {
        Mask::No
    }
}

// Writes the mask of a sheet at a height.
pub(crate) fn write_mask<L: Level>(sheet: &[L], height: u32, mask: &mut [Mask])
    requires { length mask.old ≡ length sheet.now }
    ensures { map mask_height mask.new ≡ cut height (map L.height sheet.now) }
{
    // By place, since after a zip with `mask.iter_mut()` a proof knows of the mask no more than its length.
    for (place, level) in sheet.iter().enumerate() {
        mask[place] = mask_of(*level, height);
    }
}

// The level of a sheet's least or greatest height.
fn extreme<L: Level>(which: Extremum, sheet: &[L]) -> L
    requires { 1 ≤ length sheet.now }
    ensures { L.height result ≡ extreme_of which (map L.height sheet.now) }
{
    let mut extreme = sheet[0];
    for level in sheet {
        extreme = which.kept(extreme, *level);
    }
    extreme
}

// The first place, in reading order, at which a sheet has this level; its length where there is none.
fn place_of<L: Level>(sheet: &[L], level: L) -> usize
    ensures { result ≡ first_place (L.height level) (map L.height sheet.now) }
{
    // Two levels are the same where neither is above the other; a bound of equality would ask more of who writes a kind.
    sheet
        .iter()
        .position(|other| other.at_most(level) && level.at_most(*other))
        .unwrap_or(sheet.len())
}

// The first spot of a sheet's least or greatest level.
pub(crate) fn spot_of<L: Level>(which: Extremum, sheet: &[L], w: usize) -> Spot<L>
    requires { (1 ≤ length sheet.now) × (1 ≤ w) }
    ensures { spot_numbers L.height result ≡ extreme_spot which w (map L.height sheet.now) }
{
    let level = extreme(which, sheet);
    let place = place_of(sheet, level);
    Spot {
        column: place % w,
        row: place / w,
        level,
    }
}
