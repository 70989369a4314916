// Skeletons.
ghost use Rattle.bench.specs.Calls.{MeasuresSheet};
ghost use Rattle.calls.specs.ByElement.{skeleton_by, skeleton_length};

use bench::Rack;
use elements::Element;
use levels::level::Level;
use limits::Fault;
use measurements::Skeleton;
use morphology::{ByElement, Operation};

/// Writes the skeleton by an element, to a depth, of the sheet in a place to a list of (depth + 1) × w × h numbers: for each size from 0 to
/// depth − 1 the sheet eroded that many times, minus the opening of size 1 of that, and last the sheet eroded as many times as the depth
/// says. It takes one erosion and one dilation for each size, and no memory but the list and the working planes.
/// Refuses 5, 7, 8, 31 and 34, and leaves the rack, as `Rack::measure` does.
pub fn skeleton<L: Level>(
    rack: &mut Rack<'_, L>,
    element: &Element,
    depth: usize,
    place: usize,
    list: &mut [u32],
) -> Result<(), Fault>
    ensures { MeasuresSheet L.height depth (skeleton_length depth) (skeleton_by element.now depth)
        rack.old rack.new place list.old list.new result }
{
    let skeleton = Skeleton {
        shrink: ByElement {
            op: Operation::Erosion,
            element,
        },
        swell: ByElement {
            op: Operation::Dilation,
            element,
        },
        depth,
    };
    rack.measure(&skeleton, place, list)
}
