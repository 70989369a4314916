// Which offsets an element has.
ghost use Rattle.std.specs.Prelude.{◌≡◌, length, Decides};
ghost use Rattle.elements.specs.Elements.{offsets, OffsetsLaw, SameOffsetsSameFlags};
ghost use Rattle.elements.specs.Offsets.{◌∈◌};

use crate::element::{Element, count_set};
use crate::offset::Offset;

impl Element {
    /// Whether the element has this offset.
    pub fn contains(&self, offset: Offset) -> bool
        ensures member { Decides result ((offset.column, offset.row) ∈ offsets self.now) }
        ensures offsets { OffsetsLaw self.now }
        ensures canonical { SameOffsetsSameFlags self.now }
    {
        self.holds(offset.index())
    }

    /// How many offsets the element has, 2 to 49; a card of it has 1 + 3 × as many bytes.
    pub fn size(&self) -> u8
        ensures { result ≡ length (offsets self.now) }
    {
        count_set(&self.flags)
    }
}
