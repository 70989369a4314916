// The opening of a sheet of a rack, by way of its skeleton.
ghost use Rattle.std.specs.Prelude.{◌≡◌, ◌*◌, length, replicate, MatchResult};
ghost use Rattle.bench.specs.Calls.{KeepsSheets};
ghost use Rattle.bench.specs.Model.{rack_outline, rack_state, sheet_of};
ghost use Rattle.calls.specs.ByElement.{shrink, skeleton_by, swell};
ghost use Rattle.limits.specs.Faults.{told};
ghost use Rattle.operators.specs.Openings.{opening};
ghost use Rattle.restoring.specs.BySkeleton.{by_skeleton_refusal};
ghost use Rattle.restoring.specs.Numbers.{heights_of};
ghost use Rattle.runs.specs.Theorems.{Restoring};

use crate::on_lists::restore;
use bench::Rack;
use calls::skeleton;
use elements::Element;
use levels::{Level, Number};
use limits::Fault;
use runs::runs_of_a_kind;

/// Opens the sheet in a place by an element, to a size, by way of its skeleton to a depth: the list of (depth + 1) × w × h numbers gets
/// the skeleton, as the call `skeleton` writes it, and the answer list gets what `restore` makes of that, the opening of that size. The
/// work list is for the sheets on the way, and is all zero afterwards. The rack keeps its sheets; the working planes are left as they may be.
/// Refuses an answer or work list that has not w × h numbers (4), a place that the rack has not (5), a depth that is not 1 to 64 or a size
/// above it (7), a skeleton list of another length (8), no visit open (31), and a place that is empty (34); a refusal changes nothing.
pub fn open_by_skeleton<L: Level>(
    rack: &mut Rack<'_, L>,
    element: &Element,
    depth: usize,
    size: usize,
    place: usize,
    pieces: &mut [u32],
    answer: &mut [Number],
    work: &mut [Number],
) -> Result<(), Fault>
    ensures model { Restoring L.height }
    ensures answers { result ≡ told (by_skeleton_refusal (rack_outline rack.old) depth size place
        (length pieces.old) (length answer.old) (length work.old)) }
    ensures lists { let w = (rack_outline rack.old).w in
        let h = (rack_outline rack.old).h in
        let sheet = sheet_of (rack_state L.height rack.old) place in
        MatchResult result
        (λ _. (pieces.new ≡ skeleton_by element.now depth w h sheet)
        × (heights_of answer.new ≡ opening (shrink element.now w h) (swell element.now w h) size sheet)
        × (heights_of work.new ≡ replicate (w * h) 0))
        (λ _. (pieces.new ≡ pieces.old) × (answer.new ≡ answer.old) × (work.new ≡ work.old)) }
    ensures sheets { KeepsSheets L.height rack.old rack.new result }
{
    runs_of_a_kind::<L>();
    let (w, h, places) = rack.sizes();
    let cells = w * h;
    if answer.len() != cells || work.len() != cells {
        return Err(Fault::Length);
    }
    if !(1..=places).contains(&place) {
        return Err(Fault::SheetPlace);
    }
    if size > depth {
        return Err(Fault::SizeOrDepth);
    }
    skeleton(rack, element, depth, place, pieces)?;
    restore(element, depth, size, pieces, w, h, answer, work)
}
