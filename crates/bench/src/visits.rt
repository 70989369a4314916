// Visits: begin hands out a slip, and end takes it back and empties the bench.
ghost use Rattle.std.specs.Prelude.{◌≡◌, map, pos, Some, None, MatchResult};
ghost use Rattle.bench.specs.Calls.{SameMemory, begin_leaves, begin_refusal, end_leaves, end_refusal, wiped};
ghost use Rattle.bench.specs.Model.{rack_outline, rack_state, slate_outline, slate_state};

use crate::rack::Rack;
use crate::slate::Slate;
use crate::slip::{EndRefused, Slip};
use crate::visit::Visit;
use levels::level::Level;
use limits::Fault;

/// Begins a visit to a flat on a rack and its slate, and hands out the slip for it. No memory changes.
/// Refuses a flat number that is not 1 to 9,999 (11), a visit open on either (32), and a rack and a slate whose sides
/// differ (37).
pub fn begin<L: Level>(
    rack: &mut Rack<'_, L>,
    slate: &mut Slate<'_>,
    flat: u16,
) -> Result<Slip, Fault>
    ensures answers { MatchResult result
        (λ slip. (begin_refusal (rack_outline rack.old) (slate_outline slate.old) flat ≡ None) × (slip.flat ≡ flat))
        (λ fault. begin_refusal (rack_outline rack.old) (slate_outline slate.old) flat ≡ Some fault) }
    ensures rack_steps { rack_state L.height rack.new ≡
        begin_leaves (rack_outline rack.old) (slate_outline slate.old) flat (rack_state L.height rack.old) }
    ensures slate_steps { slate_state slate.new ≡
        begin_leaves (rack_outline rack.old) (slate_outline slate.old) flat (slate_state slate.old) }
    ensures sheets { rack.new.memory.now ≡ rack.old.memory.now }
    ensures tallies { slate.new.memory.now ≡ slate.old.memory.now }
    ensures rack_lent { SameMemory rack.old.memory rack.new.memory }
    ensures slate_lent { SameMemory slate.old.memory slate.new.memory }
{
    rack.marks.refuse_begin(&slate.marks, flat)?;
    let visit = Visit { flat };
    rack.marks.open(visit);
    slate.marks.open(visit);
    Ok(Slip { flat })
}

/// Ends a visit: every place of the rack and of the slate is then empty, all their memory is lowest or zero, the working
/// planes too, and no visit is open. The slip is spent. A rack or a slate that was opened with wrong sizes has no places, and
/// its memory stays as it was.
/// Refuses no visit open on the rack (31), a slip of another flat (33), and a rack and a slate whose sides, or the flats of
/// whose visits, differ (37); it then hands the slip back.
pub fn end<L: Level>(
    rack: &mut Rack<'_, L>,
    slate: &mut Slate<'_>,
    mut slip: Slip,
) -> Result<(), EndRefused>
    ensures answers { MatchResult result
        (λ _. end_refusal (rack_outline rack.old) (slate_outline slate.old) slip.flat ≡ None)
        (λ e. (end_refusal (rack_outline rack.old) (slate_outline slate.old) slip.flat ≡ Some e.fault) × (e.slip ≡ slip)) }
    ensures rack_steps { rack_state L.height rack.new ≡
        end_leaves (rack_outline rack.old) (slate_outline slate.old) slip.flat (rack_state L.height rack.old) }
    ensures slate_steps { slate_state slate.new ≡
        end_leaves (rack_outline rack.old) (slate_outline slate.old) slip.flat (slate_state slate.old) }
    ensures memory { MatchResult result
        (λ _. (map L.height rack.new.memory.now ≡ wiped (rack_outline rack.old).places 0 (map L.height rack.old.memory.now))
        × (slate.new.memory.now ≡ wiped (slate_outline slate.old).places (pos 0) slate.old.memory.now))
        (λ _. (rack.new.memory.now ≡ rack.old.memory.now) × (slate.new.memory.now ≡ slate.old.memory.now)) }
    ensures rack_lent { SameMemory rack.old.memory rack.new.memory }
    ensures slate_lent { SameMemory slate.old.memory slate.new.memory }
{
    if let Err(fault) = rack.marks.refuse_end(&slate.marks, slip.flat) {
        return Err(EndRefused { slip, fault });
    }
    rack.clear();
    slate.clear();
    slip.flat = 0;
    Ok(())
}
