// What the lender of memory finds in it when a visit is over and the rack and the slate are gone.
ghost use Rattle.std.specs.Prelude.{◌≡◌, length, map, pos, replicate};

use crate::crossing::{begin_free, end_own};
use bench::{Rack, Slate, load};
use calls::erode;
use cases::{Heights, first_levels};
use elements::Element;
use levels::level::Level;
use std::io;

// Opens a bench in lent memory, and in a visit loads a picture and erodes it, as far as that is not refused. The lender then finds
// all levels lowest, and all numbers zero.
#[tactic(auto, using(bench::proofs::KeptVisits::stored_shared, bench::proofs::KeptVisits::made_shared))]
fn visit_on<L: Level>(picture: &[L], element: &Element, levels: &mut [L], numbers: &mut [i32])
    requires levels { length levels.old ≡ 30 }
    requires numbers { length numbers.old ≡ 5 }
    ensures levels { map L.height levels.new ≡ replicate 30 0 }
    ensures numbers { numbers.new ≡ replicate 5 (pos 0) }
{
    let mut rack = Rack::open(levels, 5, 1, 4);
    let mut slate = Slate::open(numbers, 5, 1, 1);
    let slip = begin_free(&mut rack, &mut slate, 7);
    let _ = load(&mut rack, 1, first_levels(picture, 5));
    let _ = erode(&mut rack, element, 1, 2);
    end_own(&mut rack, &mut slate, slip);
}

// Prints the heights that such a visit leaves in memory of highest levels, and the numbers in memory of sevens.
pub(crate) fn lend<L: Level>(rt: &HostRuntime, picture: &[L], element: &Element) -> io::Result<()> {
    let heap = rt.alloc();
    let mut levels = vec![in heap; L::highest(); 30]?;
    let mut numbers = vec![in heap; 7; 5]?;
    visit_on(
        picture,
        element,
        levels.as_mut_slice(),
        numbers.as_mut_slice(),
    );
    let sum = numbers
        .iter()
        .fold(0_i32, |sum, number| sum.saturating_add(*number));
    println!(rt; "{} {sum}", Heights(levels.as_slice()))
}
