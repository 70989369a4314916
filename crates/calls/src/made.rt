// The calls that make a sheet of others.
ghost use Rattle.bench.specs.Calls.{MakesSheet, no_report};
ghost use Rattle.calls.specs.Made.{by_element};
ghost use Rattle.elements.specs.Elements.{offsets};
ghost use Rattle.morphology.specs.Cells.{combined, met, joined};
ghost use Rattle.morphology.specs.declared.operation.Operation.TheVariants.{Erosion, Dilation};

use bench::Rack;
use elements::Element;
use levels::level::Level;
use limits::Fault;
use morphology::{ByElement, CellByCell, Extremum, Operation};

// The names of the four public calls are the users', so each stands over a private one, and these over `Rack::make`, which tells what
// memory holds afterwards.

// Fills a place with what an operation by an element makes of the sheet in another, or the same.
fn operate<L: Level>(
    rack: &mut Rack<'_, L>,
    op: Operation,
    element: &Element,
    from: usize,
    to: usize,
) -> Result<(), Fault>
    ensures { MakesSheet L.height (by_element op (offsets element.now)) no_report rack.old rack.new from from to result }
{
    rack.make(&ByElement { op, element }, from, from, to)
}

/// Fills the place `to` with the erosion by an element of the sheet in the place `from`, which may be the same.
/// Refuses 5, 31 and 34, as `Rack::make` does.
pub fn erode<L: Level>(
    rack: &mut Rack<'_, L>,
    element: &Element,
    from: usize,
    to: usize,
) -> Result<(), Fault>
    ensures { MakesSheet L.height (by_element Erosion (offsets element.now)) no_report rack.old rack.new from from to result }
{
    operate(rack, Operation::Erosion, element, from, to)
}

/// Fills the place `to` with the dilation by an element of the sheet in the place `from`, which may be the same.
/// Refuses 5, 31 and 34, as `Rack::make` does.
pub fn dilate<L: Level>(
    rack: &mut Rack<'_, L>,
    element: &Element,
    from: usize,
    to: usize,
) -> Result<(), Fault>
    ensures { MakesSheet L.height (by_element Dilation (offsets element.now)) no_report rack.old rack.new from from to result }
{
    operate(rack, Operation::Dilation, element, from, to)
}

// Fills a place with the meet or the join of the sheets in two others, or the same.
fn combine<L: Level>(
    rack: &mut Rack<'_, L>,
    which: Extremum,
    one: usize,
    other: usize,
    to: usize,
) -> Result<(), Fault>
    ensures { MakesSheet L.height (λ w h. combined which) no_report rack.old rack.new one other to result }
{
    rack.make(&CellByCell { which }, one, other, to)
}

/// Fills the place `to` with the meet of the sheets in the places `one` and `other`: the lower of the two, cell by cell. Any
/// of the three places may be the same.
/// Refuses 5, 31 and 34, as `Rack::make` does.
pub fn meet<L: Level>(
    rack: &mut Rack<'_, L>,
    one: usize,
    other: usize,
    to: usize,
) -> Result<(), Fault>
    ensures { MakesSheet L.height (λ w h. met) no_report rack.old rack.new one other to result }
{
    combine(rack, Extremum::Minimum, one, other, to)
}

/// Fills the place `to` with the join of the sheets in the places `one` and `other`, which may all be the same: the higher of
/// the two, cell by cell.
/// Refuses 5, 31 and 34, as `Rack::make` does.
pub fn join<L: Level>(
    rack: &mut Rack<'_, L>,
    one: usize,
    other: usize,
    to: usize,
) -> Result<(), Fault>
    ensures { MakesSheet L.height (λ w h. joined) no_report rack.old rack.new one other to result }
{
    combine(rack, Extremum::Maximum, one, other, to)
}
