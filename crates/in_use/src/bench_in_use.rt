// The bench in use, and its sizes.
ghost use Rattle.std.proofs.Props.{props};
ghost use Rattle.bench.specs.Model.{rack_outline, slate_outline};
ghost use Rattle.in_use.specs.Reached.{ReachedByCalls, bench_with};
ghost use Rattle.in_use.specs.Slips.{SlipOfVisit};

use bench::{Rack, Slate, Slip};
use levels::level::Level;

/// The sides of sheets or tallies and the number of places for them: any numbers, right or wrong.
#[derive(Clone, Copy)]
pub struct Sizes {
    pub w: usize,
    pub h: usize,
    pub places: usize,
}

/// A rack and its slate, and the slip of the visit that is open on them, if one is. It is not `Drop`, since a slip's own drop asks
/// for something: who takes it apart has first to end that visit.
pub struct BenchInUse<'a, L: Level> {
    pub rack: Rack<'a, L>,
    pub slate: Slate<'a>,
    pub slip: Option<Slip>,
    ghost own_slip: { SlipOfVisit slip (rack_outline rack) (slate_outline slate) } by { Prim.hlevel props },
    ghost reached: { ∥ ReachedByCalls L.height (bench_with L.height rack slate) ∥₁ },
}
