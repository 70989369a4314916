// Openings and reconstruction.
ghost use Rattle.bench.specs.Calls.{MakesSheet, MakesUnless, no_report};
ghost use Rattle.bench.specs.Model.{rack_outline};
ghost use Rattle.calls.specs.ByElement.{opening_by, reconstruction_by, rounds_by};
ghost use Rattle.calls.specs.OfSize.{of_size_refusal};
ghost use Rattle.operators.specs.Maps.{times};

use bench::Rack;
use elements::Element;
use levels::level::Level;
use limits::{Fault, check_size};
use morphology::{ByElement, Operation, SheetMap};
use transforms::{InTurn, Reconstruction, Swelling};

/// Fills the place `to` with what two maps in turn make of the sheet in the place `from`, which may be the same: the first as many
/// times as the size says, then the second as often. No map is applied more often, and no memory is used but the target and the
/// working planes.
/// Refuses a place that the rack has not (5), a size that is not 1 to 64 (7), no visit open (31), and a source place that is empty (34); a
/// refusal changes nothing. Of the places exactly the target's cells change, and the working planes are left as they may be.
pub fn in_turn<M: SheetMap, N: SheetMap, L: Level>(
    rack: &mut Rack<'_, L>,
    maps: &InTurn<M, N>,
    from: usize,
    to: usize,
) -> Result<(), Fault>
    ensures { MakesUnless L.height (of_size_refusal (rack_outline rack.old) maps.now.size from to)
        (λ w h f g. times maps.now.size (N.maps maps.now.second w h) (times maps.now.size (M.maps maps.now.first w h) f))
        no_report rack.old rack.new from from to result }
{
    let (_, _, places) = rack.sizes();
    if !(1..=places).contains(&from) || !(1..=places).contains(&to) {
        return Err(Fault::SheetPlace);
    }
    check_size(maps.size)?;
    rack.make(maps, from, from, to)
}

/// Fills the place `to` with the opening of a size by an element of the sheet in the place `from`, which may be the same: as many
/// erosions as the size says, then as many dilations.
/// Refuses 5, 7, 31 and 34, as `in_turn` does.
pub fn open<L: Level>(
    rack: &mut Rack<'_, L>,
    element: &Element,
    size: usize,
    from: usize,
    to: usize,
) -> Result<(), Fault>
    ensures { MakesUnless L.height (of_size_refusal (rack_outline rack.old) size from to)
        (opening_by element.now size) no_report rack.old rack.new from from to result }
{
    let opening = InTurn {
        first: ByElement {
            op: Operation::Erosion,
            element,
        },
        second: ByElement {
            op: Operation::Dilation,
            element,
        },
        size,
    };
    in_turn(rack, &opening, from, to)
}

/// Fills the place `to` with the reconstruction by an element of the sheet in the place `upper` from the sheet in the place `marker`, and
/// tells the number of changing rounds. It starts from the meet of the two; a round dilates and meets with the upper sheet; and rounds
/// go on until one would change no cell. Any of the three places may be the same.
/// Refuses 5, 31 and 34, as `Rack::make` does.
pub fn regrow<L: Level>(
    rack: &mut Rack<'_, L>,
    element: &Element,
    marker: usize,
    upper: usize,
    to: usize,
) -> Result<u64, Fault>
    ensures { MakesSheet L.height (reconstruction_by element.now) (rounds_by element.now) rack.old rack.new marker upper to result }
{
    let reconstruction = Reconstruction {
        swell: Swelling::by_element(element),
    };
    rack.make(&reconstruction, marker, upper, to)
}
