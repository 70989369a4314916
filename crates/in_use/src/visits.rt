// How a bench in use opens, and the visits on it.
ghost use Rattle.std.specs.Prelude.{◌≡◌, length, map, pos, None, MatchResult};
ghost use Rattle.bench.specs.Calls.{wiped};
ghost use Rattle.bench.specs.Model.{rack_outline, slate_outline};
ghost use Rattle.in_use.specs.InUse.{bench_of, open_flat};
ghost use Rattle.model.specs.Calls.{Begin, End, NothingTold, SlipTold};
ghost use Rattle.model.specs.Steps.{answer, bench_opened, step, telling};

use crate::bench_in_use::{BenchInUse, Sizes};
use bench::{Rack, Slate, begin, end};
use levels::level::Level;
use limits::Fault;

impl<'a, L: Level> BenchInUse<'a, L> {
    /// Opens a rack and a slate of these sizes in that memory, which is as it was: every place is empty and no visit is open. Wrong
    /// sizes open with sides 0 and no places.
    pub fn open(
        levels: &'a mut [L],
        sheets: Sizes,
        numbers: &'a mut [i32],
        tallies: Sizes,
    ) -> BenchInUse<'a, L>
        ensures opened { bench_of L.height result ≡ bench_opened (record {
          rack = record { w = sheets.w; h = sheets.h; places = sheets.places; memory = length levels.old };
          slate = record { w = tallies.w; h = tallies.h; places = tallies.places; memory = length numbers.old };
        }) }
        ensures levels { result.rack.memory.now ≡ levels.old }
        ensures numbers { result.slate.memory.now ≡ numbers.old }
    {
        BenchInUse {
            rack: Rack::open(levels, sheets.w, sheets.h, sheets.places),
            slate: Slate::open(numbers, tallies.w, tallies.h, tallies.places),
            slip: None,
        }
    }
}

impl<L: Level> BenchInUse<'_, L> {
    /// Begins a visit to a flat, and keeps its slip. No memory changes.
    /// Refuses a flat number that is not 1 to 9,999 (11), a visit open (32), and a rack and a slate whose sides differ (37).
    pub fn begin(&mut self, flat: u16) -> Result<(), Fault>
        ensures steps { bench_of L.height self.new ≡ step (bench_of L.height self.old) (Begin flat) }
        ensures answers { telling (λ nothing. SlipTold flat) result ≡ answer (bench_of L.height self.old) (Begin flat) }
        ensures levels { self.new.rack.memory.now ≡ self.old.rack.memory.now }
        ensures numbers { self.new.slate.memory.now ≡ self.old.slate.memory.now }
    {
        let slip = begin(&mut self.rack, &mut self.slate, flat)?;
        match self.slip.replace(slip) {
            None => Ok(()),
            Some(_) => unreachable!(),
        }
    }

    /// Ends the visit that is open, by its slip: every place is then empty, all memory of places and working planes is lowest or
    /// zero, and no slip is left.
    /// Refuses no visit open (31), and then leaves everything as it was.
    pub fn end(&mut self) -> Result<(), Fault>
        ensures steps { bench_of L.height self.new ≡ step (bench_of L.height self.old) (End (open_flat (bench_of L.height self.old))) }
        ensures answers { telling (λ nothing. NothingTold) result
            ≡ answer (bench_of L.height self.old) (End (open_flat (bench_of L.height self.old))) }
        ensures levels { MatchResult result
            (λ _. map L.height self.new.rack.memory.now
            ≡ wiped (rack_outline self.old.rack).places 0 (map L.height self.old.rack.memory.now))
            (λ _. self.new.rack.memory.now ≡ self.old.rack.memory.now) }
        ensures numbers { MatchResult result
            (λ _. self.new.slate.memory.now ≡ wiped (slate_outline self.old.slate).places (pos 0) self.old.slate.memory.now)
            (λ _. self.new.slate.memory.now ≡ self.old.slate.memory.now) }
        ensures spent { self.new.slip ≡ None }
    {
        let Some(slip) = self.slip.take() else {
            return Err(Fault::NoVisit);
        };
        match end(&mut self.rack, &mut self.slate, slip) {
            Ok(()) => Ok(()),
            Err(_) => unreachable!(),
        }
    }
}
