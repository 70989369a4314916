// Differences on a rack and a slate of another visit.
ghost use Rattle.std.specs.Prelude.{◌≡◌, ◌≤◌, None};
ghost use Rattle.bench.specs.Model.{rack_outline, shared, slate_outline};

use crate::crossing::{begin_free, end_own};
use bench::{Rack, Slate, load};
use levels::level::Level;
use limits::Fault;
use tallies::differ;

// Two visits, to a flat each. The sheet in place 1 of the first is differed with itself into the slate of the second, while the place
// is empty and when it holds a picture, and then into the slate of its own.
#[tactic(auto, using(bench::proofs::KeptVisits::stored_shared, bench::proofs::KeptVisits::tallied_shared))]
pub(crate) fn cross_differences<L: Level>(
    rack: &mut Rack<'_, L>,
    slate: &mut Slate<'_>,
    other_rack: &mut Rack<'_, L>,
    other_slate: &mut Slate<'_>,
    flat: u16,
    other_flat: u16,
    picture: &[L],
) -> [Result<(), Fault>; 3]
    requires flat { (1 ≤ flat) × (flat ≤ 9999) }
    requires next_flat { (1 ≤ other_flat) × (other_flat ≤ 9999) }
    requires free { (rack_outline rack.old).visit ≡ None }
    requires next_free { (rack_outline other_rack.old).visit ≡ None }
    requires same { shared (rack_outline rack.old) ≡ shared (slate_outline slate.old) }
    requires next_same { shared (rack_outline other_rack.old) ≡ shared (slate_outline other_slate.old) }
    ensures rack { shared (rack_outline rack.new) ≡ shared (rack_outline rack.old) }
    ensures slate { shared (slate_outline slate.new) ≡ shared (slate_outline slate.old) }
    ensures next_rack { shared (rack_outline other_rack.new) ≡ shared (rack_outline other_rack.old) }
    ensures next_slate { shared (slate_outline other_slate.new) ≡ shared (slate_outline other_slate.old) }
{
    let slip = begin_free(rack, slate, flat);
    let other = begin_free(other_rack, other_slate, other_flat);
    let empty = differ(rack, other_slate, 1, 1, 1);
    let _ = load(rack, 1, picture);
    let crossed = differ(rack, other_slate, 1, 1, 1);
    let own = differ(rack, slate, 1, 1, 1);
    end_own(rack, slate, slip);
    end_own(other_rack, other_slate, other);
    [empty, crossed, own]
}
