// What is run at every level kind.
use crate::kind::{CutMask, Kind, PlainGray, PlainHeat};
use elements::Element;
use std::io;

/// What a program does at each level kind.
pub trait Cases {
    /// Does it at a level kind, by an element.
    fn run<K: Kind>(&self, rt: &HostRuntime, kind: &K, element: &Element) -> io::Result<()>;
}

/// Does what a program does at masks cut at these heights, at gray and at heat, by the element (0, 0) and (1, 0). What is
/// printed is outside of any contract.
pub fn run_at_every_kind<C: Cases>(rt: &HostRuntime, cases: &C, cuts: &[usize]) -> io::Result<()> {
    let element = Element::built_in(3).unwrap();
    for height in cuts {
        cases.run(rt, &CutMask { height: *height }, &element)?;
    }
    cases.run(rt, &PlainGray, &element)?;
    cases.run(rt, &PlainHeat, &element)
}
