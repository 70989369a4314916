// Maps that swell.
ghost use Rattle.std.specs.Prelude.{◌≡◌, ◌*◌, ℕ, List, length};
ghost use Rattle.laws.specs.Maps.{Below};
ghost use Rattle.morphology.specs.declared.operation.Operation.TheVariants.{Dilation};

use elements::Element;
use morphology::{ByElement, Operation, SheetMap};

/// A map that swells: nowhere is its sheet below the one that it was made of.
#[derive(Drop)]
pub struct Swelling<M: SheetMap> {
    pub map: M,
    ghost swells: { (w h : ℕ) (f : List ℕ) → length f ≡ w * h → Below f (M.maps map w h f) },
}

impl<'e> Swelling<ByElement<'e>> {
    /// The dilation by an element, which swells since (0, 0) is one of the offsets.
    pub fn by_element(element: &'e Element) -> Swelling<ByElement<'e>>
        ensures operation { result.map.op ≡ Dilation }
        ensures element { result.map.element.now ≡ element.now }
    {
        Swelling {
            map: ByElement {
                op: Operation::Dilation,
                element,
            },
        }
    }
}
