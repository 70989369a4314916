// Sequences of calls on a rack and its slate.
use crate::given::Given;
use crate::line::{Line, split_line};
use crate::making::make;
use cases::Kind;
use elements::Element;
use in_use::BenchInUse;
use levels::level::Level;
use std::io;

// Prints the sum of the heights in a memory and the sum of its numbers. No visit is open on it, so the numbers are as they were lent,
// or an end has wiped them. `sum` would need a bound on them, and `saturating_add` needs none.
fn print_memory<L: Level>(rt: &HostRuntime, levels: &[L], numbers: &[i32]) -> io::Result<()> {
    let heights = levels.iter().fold(
        0_u64,
        |sum, level| sum.saturating_add(u64::from(level.height())),
    );
    let sum = numbers
        .iter()
        .fold(0_i32, |sum, number| sum.saturating_add(*number));
    println!(rt; "memory {heights} {sum}")
}

// Makes calls one after another, and prints each with its answer. The pieces of the last skeleton, or those that
// a line gave, are kept for restores, none at first.
fn make_all<L: Level>(
    rt: &HostRuntime,
    given: &Given<L>,
    bench: &mut BenchInUse<'_, L>,
    calls: &str,
) -> io::Result<()> {
    let mut pieces = Vec::new(rt.alloc());
    for call in calls.lines() {
        let line = Line::read(rt.alloc(), call)?;
        let reply = make(rt.alloc(), given, bench, pieces.as_slice(), &line)?;
        println!(rt; "{call}: {reply}")?;
        pieces = reply.pieces_after(pieces);
    }
    Ok(())
}

// Makes the calls of a sequence on a rack in memory of highest levels and a slate in memory of numbers 7: three lines with its title
// and the sizes of the rack and of the slate, then an element and a picture where they are given, and then a line for each call.
// Prints the titles, each call with its answer, and the sums of the memory after them. A visit that is open at the end is ended
// silently.
pub(crate) fn make_sequence<K: Kind>(
    rt: &HostRuntime,
    kind: &K,
    element: &Element,
    sequence: &str,
) -> io::Result<()> {
    let (title, rest) = split_line(sequence);
    let (rack, rest) = split_line(rest);
    let (slate, rest) = split_line(rest);
    let heap = rt.alloc();
    println!(rt; "{title} ({kind})")?;
    let (sheets, levels_len) = Line::read(heap, rack)?.sizes("rack")?;
    let (tallies, numbers_len) = Line::read(heap, slate)?.sizes("slate")?;
    let (given, calls) = Given::read(heap, kind, element, rest)?;
    let mut levels = vec![in heap; K::Level::highest(); levels_len]?;
    let mut numbers = vec![in heap; 7; numbers_len]?;
    let mut bench = BenchInUse::open(
        levels.as_mut_slice(),
        sheets,
        numbers.as_mut_slice(),
        tallies,
    );
    let printed = make_all(rt, &given, &mut bench, calls);
    let _ = bench.end();
    // Taken apart, as it has no drop.
    let BenchInUse {
        rack: _,
        slate: _,
        slip: _,
    } = bench;
    printed?;
    print_memory(rt, levels.as_slice(), numbers.as_slice())
}
