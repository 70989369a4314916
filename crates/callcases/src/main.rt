// The program callcases: makes the calls of its input at every level kind, and prints each beside its answer.
#![tactic(auto)]

mod given;
mod line;
mod making;
mod reply;
mod sequences;

use cases::{Cases, Kind, run_at_every_kind};
use elements::Element;
use sequences::make_sequence;
use std::io;

// At a level kind, the sequences of calls of the input, with an empty line between two.
#[derive(Clone, Copy)]
struct CallCases<'a> {
    input: &'a str,
}

impl Cases for CallCases<'_> {
    fn run<K: Kind>(&self, rt: &HostRuntime, kind: &K, element: &Element) -> io::Result<()> {
        for sequence in self.input.split("\n\n") {
            make_sequence(rt, kind, element, sequence)?;
        }
        Ok(())
    }
}

fn main(rt: HostRuntime) -> io::Result<()> {
    let input = io::read_to_string(rt.alloc(), rt.stdin())?;
    let cases = CallCases {
        input: input.as_str(),
    };
    run_at_every_kind(&rt, &cases, &[1, 2, 3, 255])
}
