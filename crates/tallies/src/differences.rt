// The calls that make a tally of sheets.
ghost use Rattle.bench.specs.Calls.{KeepsSheets, made_of};
ghost use Rattle.bench.specs.Model.{rack_outline, rack_state, slate_outline};
ghost use Rattle.bench.specs.TallyCalls.{MakesTally, difference_refusal};
ghost use Rattle.tallies.specs.Differences.{difference_of_two, difference_with, edge_by, peak_by};

use crate::order::Order;
use bench::{Rack, Slate, check_difference};
use elements::Element;
use levels::level::Level;
use limits::Fault;
use morphology::{ByElement, Operation, Transform};
use transforms::InTurn;

/// Fills the tally place `to` with the heights of the sheet in the place `one` minus those of the sheet in the place `other`, a tally of
/// weight 1. The two places may be the same. The rack stays as it is, its working planes too.
/// Refuses a sheet place that the rack has not (5), a tally place that the slate has not (6), no visit open on the rack (31), a source
/// place that is empty (34), and a rack and a slate whose sides, or the flats of whose visits, differ (37); a refusal changes nothing. Of the
/// slate exactly the target's cells change.
pub fn differ<L: Level>(
    rack: &Rack<'_, L>,
    slate: &mut Slate<'_>,
    one: usize,
    other: usize,
    to: usize,
) -> Result<(), Fault>
    ensures { MakesTally (difference_refusal (rack_outline rack.now) (slate_outline slate.old) one other to)
        (made_of difference_of_two (rack_state L.height rack.now) one other) slate.old slate.new to result }
{
    check_difference(rack, slate, one, other, to)?;
    let one = rack.sheet(one)?;
    let other = rack.sheet(other)?;
    slate.store_difference(to, one, other)
}

/// Fills the tally place `to` with the difference of the sheet in the place `from` and what a transformation makes of it, the one minus the
/// other or the other way round, a tally of weight 1.
/// Refuses 5, 6, 31, 34 and 37, as `differ` does. The rack's places stay as they are; its working planes are left as they may
/// be, by a refusal as they were.
pub fn difference<T: Transform<Report = ()>, L: Level>(
    rack: &mut Rack<'_, L>,
    slate: &mut Slate<'_>,
    transform: &T,
    order: Order,
    from: usize,
    to: usize,
) -> Result<(), Fault>
    ensures tally { MakesTally (difference_refusal (rack_outline rack.old) (slate_outline slate.old) from from to)
        (made_of (difference_with order (T.makes transform.now)) (rack_state L.height rack.old) from from) slate.old slate.new to result }
    ensures sheets { KeepsSheets L.height rack.old rack.new result }
{
    check_difference(rack, slate, from, from, to)?;
    rack.make_in_plane(transform, from, from)?;
    let sheet = rack.sheet(from)?;
    let made = rack.plane();
    match order {
        Order::SheetFirst => slate.store_difference(to, sheet, made),
        Order::MadeFirst => slate.store_difference(to, made, sheet),
    }
}

/// Fills the tally place `to` with the edge by an element of the sheet in the place `from`: the sheet minus its erosion.
/// Refuses 5, 6, 31, 34 and 37, and leaves the rack, as `difference` does.
pub fn edge<L: Level>(
    rack: &mut Rack<'_, L>,
    slate: &mut Slate<'_>,
    element: &Element,
    from: usize,
    to: usize,
) -> Result<(), Fault>
    ensures tally { MakesTally (difference_refusal (rack_outline rack.old) (slate_outline slate.old) from from to)
        (made_of (edge_by element.now) (rack_state L.height rack.old) from from) slate.old slate.new to result }
    ensures sheets { KeepsSheets L.height rack.old rack.new result }
{
    let erosion = ByElement {
        op: Operation::Erosion,
        element,
    };
    difference(rack, slate, &erosion, Order::SheetFirst, from, to)
}

/// Fills the tally place `to` with the peak by an element of the sheet in the place `from`: the sheet minus its opening of size 1.
/// Refuses 5, 6, 31, 34 and 37, and leaves the rack, as `difference` does.
pub fn peak<L: Level>(
    rack: &mut Rack<'_, L>,
    slate: &mut Slate<'_>,
    element: &Element,
    from: usize,
    to: usize,
) -> Result<(), Fault>
    ensures tally { MakesTally (difference_refusal (rack_outline rack.old) (slate_outline slate.old) from from to)
        (made_of (peak_by element.now) (rack_state L.height rack.old) from from) slate.old slate.new to result }
    ensures sheets { KeepsSheets L.height rack.old rack.new result }
{
    let opening = InTurn {
        first: ByElement {
            op: Operation::Erosion,
            element,
        },
        second: ByElement {
            op: Operation::Dilation,
            element,
        },
        size: 1,
    };
    difference(rack, slate, &opening, Order::SheetFirst, from, to)
}
