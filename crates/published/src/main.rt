// The program published: works published tables out again by calls on a bench: openings, peaks and
// histograms of sizes of a gray line and of its cuts, and the edge of a gray sheet. Each printed row has its name in front.
// `stdout` has the rows as they were published, and where a row is misprinted, the one that the definitions give.
#![tactic(auto)]

mod edge;
mod line;
mod rows;
mod sheet;

use edge::show_edge;
use line::show_lines;
use std::io;

fn main(rt: HostRuntime) -> io::Result<()> {
    show_lines(&rt)?;
    show_edge(&rt)
}
