// The calls that stand on closings.
ghost use Rattle.bench.specs.Calls.{KeepsSheets, MakesUnless, made_of, no_report};
ghost use Rattle.bench.specs.Model.{rack_outline, rack_state, slate_outline};
ghost use Rattle.bench.specs.TallyCalls.{MakesTally, difference_refusal};
ghost use Rattle.calls.specs.OfSize.{of_size_refusal};
ghost use Rattle.closings.specs.ByElement.{closing_by, valley_by};

use crate::inside::ErosionInside;
use bench::{Rack, Slate};
use calls::in_turn;
use elements::Element;
use levels::level::Level;
use limits::Fault;
use morphology::{ByElement, Operation};
use tallies::{Order, difference};
use transforms::InTurn;

/// Fills the place `to` with the closing of a size by an element of the sheet in the place `from`, which may be the same: as many dilations
/// as the size says, then as many erosions that skip offsets falling outside the sheet.
/// Refuses 5, 7, 31 and 34, as `in_turn` does.
pub fn close<L: Level>(
    rack: &mut Rack<'_, L>,
    element: &Element,
    size: usize,
    from: usize,
    to: usize,
) -> Result<(), Fault>
    ensures { MakesUnless L.height (of_size_refusal (rack_outline rack.old) size from to)
        (closing_by element.now size) no_report rack.old rack.new from from to result }
{
    let closing = InTurn {
        first: ByElement {
            op: Operation::Dilation,
            element,
        },
        second: ErosionInside { element },
        size,
    };
    in_turn(rack, &closing, from, to)
}

/// Fills the tally place `to` with the valley by an element of the sheet in the place `from`: its closing of size 1 minus the sheet.
/// Refuses 5, 6, 31, 34 and 37, and leaves the rack, as `difference` does.
pub fn valley<L: Level>(
    rack: &mut Rack<'_, L>,
    slate: &mut Slate<'_>,
    element: &Element,
    from: usize,
    to: usize,
) -> Result<(), Fault>
    ensures tally { MakesTally (difference_refusal (rack_outline rack.old) (slate_outline slate.old) from from to)
        (made_of (valley_by element.now) (rack_state L.height rack.old) from from) slate.old slate.new to result }
    ensures sheets { KeepsSheets L.height rack.old rack.new result }
{
    let closing = InTurn {
        first: ByElement {
            op: Operation::Dilation,
            element,
        },
        second: ErosionInside { element },
        size: 1,
    };
    difference(rack, slate, &closing, Order::MadeFirst, from, to)
}
