// The slate: tallies in lent memory.
ghost use Rattle.std.specs.Prelude.{◌≡◌, ◌*◌, ◌≤◌, length};
ghost use Rattle.std.proofs.Props.{props};
ghost use Rattle.bench.specs.Places.{CellsWithin};

use crate::marks::Marks;
use weights::Weight;

/// A slate holds its tallies in memory that is lent to it: w × h numbers for each place. A tally has a signed number for each
/// cell and a weight, which the slate keeps with the marks; no cell exceeds weight × 65,536 in size. A slate that was opened with
/// wrong sizes has no places, and touches no memory.
#[derive(Drop)]
pub struct Slate<'a> {
    pub(crate) memory: &'a mut [i32],
    pub(crate) marks: Marks<Weight>,
    ghost sized: { 1 ≤ marks.places → length memory.now ≡ marks.places * (marks.w * marks.h) },
    ghost within: { CellsWithin marks memory.now } by { Prim.hlevel props },
}
