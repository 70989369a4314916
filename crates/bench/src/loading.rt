// Loading a picture.
ghost use Rattle.std.specs.Prelude.{◌≡◌, ◌*◌, map, length, MatchResult};
ghost use Rattle.bench.specs.Calls.{SameMemory, load_refusal, load_leaves};
ghost use Rattle.limits.specs.Faults.{told};
ghost use Rattle.bench.specs.Model.{overwritten, place_start, rack_outline, rack_state};

use crate::planes::store;
use crate::rack::Rack;
use levels::level::Level;
use limits::Fault;

/// Fills a place from a picture of w × h levels.
/// Refuses a picture of another length (4), a place that the rack has not (5), and no visit open (31); a refusal changes
/// nothing. Of the memory exactly the place's cells change.
pub fn load<L: Level>(rack: &mut Rack<'_, L>, place: usize, picture: &[L]) -> Result<(), Fault>
    ensures answers { result ≡ told (load_refusal (rack_outline rack.old) place (length picture.now)) }
    ensures steps { rack_state L.height rack.new ≡ load_leaves (rack_state L.height rack.old) place (map L.height picture.now) }
    ensures memory { MatchResult result
        (λ _. rack.new.memory.now ≡
        overwritten (place_start (rack.old.marks.w * rack.old.marks.h) place) picture.now rack.old.memory.now)
        (λ _. rack.new.memory.now ≡ rack.old.memory.now) }
    ensures lent { SameMemory rack.old.memory rack.new.memory }
{
    rack.marks.refuse_load(place, picture.len())?;
    let start = (place - 1) * rack.marks.cells();
    store(rack.memory, start, picture);
    rack.marks.fill(place, ());
    Ok(())
}
