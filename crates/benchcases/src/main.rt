// The program benchcases: tries sizes, and at every level kind erosion and dilation of lists, crossed slips and slates, and what a
// visit leaves in memory, and prints what each answers.
#![tactic(auto)]

mod crossing;
mod differing;
mod lending;
mod sheets;
mod sizes;

use cases::{Cases, Kind, first_levels, run_at_every_kind};
use crossing::cross_visits;
use elements::Element;
use lending::lend;
use sheets::operate_all;
use sizes::check_sizes;
use std::io;

// At a level kind, erosion and dilation, crossed slips and slates, and memory after a visit.
struct BenchCases;

impl Cases for BenchCases {
    fn run<K: Kind>(&self, rt: &HostRuntime, kind: &K, element: &Element) -> io::Result<()> {
        let picture = kind.levels(rt.alloc(), &K::PICTURE)?;
        println!(rt; "# {kind}: erosion and dilation")?;
        operate_all(rt, picture.as_slice(), element)?;
        println!(rt; "# {kind}: crossed slips and slates")?;
        cross_visits(rt, first_levels(picture.as_slice(), 5))?;
        println!(rt; "# {kind}: memory after a visit")?;
        lend(rt, picture.as_slice(), element)
    }
}

fn main(rt: HostRuntime) -> io::Result<()> {
    check_sizes(&rt)?;
    run_at_every_kind(&rt, &BenchCases, &[1, 2])
}
