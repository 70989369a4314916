// The calls that tell of a sheet on a bench or copy it out; the bench stays as it is.
ghost use Rattle.std.specs.Prelude.{◌≡◌, map, length, Some, MatchResult};
ghost use Rattle.bench.specs.Model.{rack_outline, rack_state, sheet_of};
ghost use Rattle.calls.specs.Queries.{area_answer, cut_refusal, show_sheet_refusal, span_answer, spots_told, SpotsAreFirstExtremes};
ghost use Rattle.levels.specs.Mask.{mask_height};
ghost use Rattle.limits.specs.Faults.{told};
ghost use Rattle.morphology.specs.Cells.{cut};

use crate::cells::{spot_of, write_mask};
use crate::spot::Spot;
use bench::Rack;
use levels::Mask;
use levels::level::Level;
use limits::Fault;
use measurements::area_of;
use morphology::Extremum;

/// Tells the area of the sheet in a place: the sum of its heights.
/// Refuses 5, 31 and 34, as `Rack::sheet` does.
pub fn area<L: Level>(rack: &Rack<'_, L>, place: usize) -> Result<u64, Fault>
    ensures { result ≡ area_answer (rack_state L.height rack.now) place }
{
    let sheet = rack.sheet(place)?;
    let (w, h, _) = rack.sizes();
    area_of(sheet, w, h)
}

/// Tells the span of the sheet in a place: the spots of its least and of its greatest level, each the first in reading order.
/// Refuses 5, 31 and 34, as `Rack::sheet` does.
#[tactic(auto, using(crate::proofs::Spots::spots_are_first_extremes))]
pub fn span<L: Level>(rack: &Rack<'_, L>, place: usize) -> Result<(Spot<L>, Spot<L>), Fault>
    ensures answers { spots_told L.height result ≡ span_answer (rack_state L.height rack.now) place }
    ensures spots { SpotsAreFirstExtremes }
{
    let sheet = rack.sheet(place)?;
    let (w, _, _) = rack.sizes();
    let least = spot_of(Extremum::Minimum, sheet, w);
    let greatest = spot_of(Extremum::Maximum, sheet, w);
    Ok((least, greatest))
}

// The names of the two calls below are the users', and each tries the length of its own list first, by the order of refusals.
/// Copies the sheet in a place to a list of w × h levels.
/// Refuses a list of another length (4), a place that the rack has not (5), no visit open (31), and a place that is
/// empty (34), and then leaves the list as it was.
pub fn show_sheet<L: Level>(rack: &Rack<'_, L>, place: usize, list: &mut [L]) -> Result<(), Fault>
    ensures answers { result ≡ told (show_sheet_refusal (rack_outline rack.now) place (length list.old)) }
    ensures list { MatchResult result
        (λ _. (rack_state L.height rack.now).content place ≡ Some (map L.height list.new))
        (λ _. list.new ≡ list.old) }
{
    let (w, h, _) = rack.sizes();
    if list.len() != w * h {
        return Err(Fault::Length);
    }
    let sheet = rack.sheet(place)?;
    list.copy_from_slice(sheet);
    Ok(())
}

/// Writes the mask at a height, 1 to the kind's top, of the sheet in a place to a list of w × h mask levels: yes exactly
/// where the sheet's height is at least that.
/// Refuses a list of another length (4), a place that the rack has not (5), a height outside its limits (9), no visit
/// open (31), and a place that is empty (34), and then leaves the list as it was.
pub fn cut<L: Level>(
    rack: &Rack<'_, L>,
    height: u32,
    place: usize,
    mask: &mut [Mask],
) -> Result<(), Fault>
    ensures answers { result ≡ told (cut_refusal L.top (rack_outline rack.now) place height (length mask.old)) }
    ensures list { MatchResult result
        (λ _. map mask_height mask.new ≡ cut height (sheet_of (rack_state L.height rack.now) place))
        (λ _. mask.new ≡ mask.old) }
{
    let (w, h, places) = rack.sizes();
    if mask.len() != w * h {
        return Err(Fault::Length);
    }
    if !(1..=places).contains(&place) {
        return Err(Fault::SheetPlace);
    }
    if !(1..=L::highest().height()).contains(&height) {
        return Err(Fault::FactorOrHeight);
    }
    let sheet = rack.sheet(place)?;
    write_mask(sheet, height, mask);
    Ok(())
}
