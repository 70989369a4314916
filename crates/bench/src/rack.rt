// The rack: sheets of one level kind in lent memory.
ghost use Rattle.std.specs.Prelude.{◌≡◌, ◌+◌, ◌*◌, ◌≤◌, length};

use crate::marks::Marks;

/// A rack holds its sheets in memory of their level kind that is lent to it: w × h levels for each place, and behind
/// them two working planes of as many. One that was opened with wrong sizes has no places, and touches no memory.
#[derive(Drop)]
pub struct Rack<'a, L> {
    pub(crate) memory: &'a mut [L],
    pub(crate) marks: Marks<()>,
    ghost sized: { 1 ≤ marks.places → length memory.now ≡ (marks.places + 2) * (marks.w * marks.h) },
}
