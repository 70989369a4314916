// The passes of every offset of an element over a sheet.
ghost use Rattle.std.specs.Prelude.{◌≡◌, ℕ, ◌*◌, ◌<◌, map, length, slice_index};
ghost use Rattle.elements.specs.Elements.{offsets};
ghost use Rattle.morphology.specs.Passes.{swept};

use crate::operation::Operation;
use crate::passes::pass;
use elements::Element;
use levels::level::Level;
use limits::Sides;

// Every cell of `to`, a copy of `from`, becomes the extreme of itself and of what the operation reads from it.
pub(crate) fn sweep<L: Level>(
    op: Operation,
    from: &[L],
    to: &mut [L],
    sides: Sides,
    element: &Element,
)
    requires source { length from.now ≡ sides.w * sides.h }
    requires target { to.old ≡ from.now }
    ensures { (p : ℕ) → p < sides.w * sides.h → slice_index (map L.height to.new) p
        ≡ swept op sides.w sides.h (map L.height from.now) (offsets element.now) p }
{
    let which = op.extremum();
    // By number: an element tells its offsets by `holds` alone, and the number gives column and row.
    for index in 0..49 {
        if element.holds(index) {
            pass(
                which,
                from,
                to,
                sides,
                op.turned(index % 7),
                op.turned(index / 7),
            );
        }
    }
}
