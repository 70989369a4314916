// The emptying of a rack and of a slate.
ghost use Rattle.std.specs.Prelude.{◌≡◌, map, pos};
ghost use Rattle.bench.specs.Calls.{SameMemory, ended, wiped};
ghost use Rattle.bench.specs.Model.{rack_outline, rack_state, slate_outline, slate_state};

use crate::rack::Rack;
use crate::slate::Slate;
use levels::level::Level;

// Sets the memory of so many places to lowest levels; without places it stays.
fn wipe_levels<L: Level>(memory: &mut [L], places: usize)
    ensures { map L.height memory.new ≡ wiped places 0 (map L.height memory.old) }
{
    if places == 0 {
        return;
    }
    let lowest = L::lowest();
    memory.fill_with(|| lowest);
}

// Sets the memory of so many places to zeros; without places it stays.
fn wipe_numbers(memory: &mut [i32], places: usize)
    ensures { memory.new ≡ wiped places (pos 0) memory.old }
{
    if places == 0 {
        return;
    }
    memory.fill(0);
}

impl<L: Level> Rack<'_, L> {
    // Empties every place, closes the visit, and sets the memory, where there are places, to lowest levels.
    pub(crate) fn clear(&mut self)
        ensures state { rack_state L.height self.new ≡ ended (rack_state L.height self.old) }
        ensures memory { map L.height self.new.memory.now ≡ wiped (rack_outline self.old).places 0 (map L.height self.old.memory.now) }
        ensures lent { SameMemory self.old.memory self.new.memory }
    {
        wipe_levels(self.memory, self.marks.places);
        self.marks.clear();
    }
}

impl Slate<'_> {
    // The same of a slate, whose memory is then zeros.
    pub(crate) fn clear(&mut self)
        ensures state { slate_state self.new ≡ ended (slate_state self.old) }
        ensures memory { self.new.memory.now ≡ wiped (slate_outline self.old).places (pos 0) self.old.memory.now }
        ensures lent { SameMemory self.old.memory self.new.memory }
    {
        wipe_numbers(self.memory, self.marks.places);
        self.marks.clear();
    }
}
