// The difference of two sheets of a rack, as a tally of its slate: what it refuses, and how a place is filled with it.
ghost use Rattle.std.specs.Prelude.{◌≡◌, ◌*◌, map, length};
ghost use Rattle.bench.specs.Model.{rack_outline, slate_outline};
ghost use Rattle.bench.specs.TallyCalls.{MakesTally, difference_refusal, store_refusal};
ghost use Rattle.limits.specs.Faults.{told};
ghost use Rattle.operators.specs.Tallies.{differed};
ghost use Rattle.weights.specs.Weights.{difference};

use crate::numbers::write_difference;
use crate::rack::Rack;
use crate::slate::Slate;
use levels::level::Level;
use limits::Fault;
use weights::Weight;

/// Whether a call can fill the place `to` of a slate with a difference of what stands in the places `one` and `other` of its rack.
/// Refuses a place that the rack has not (5), a place that the slate has not (6), no visit open on the rack (31), a source place
/// that is empty (34), and a rack and a slate whose sides, or the flats of whose visits, differ (37).
pub fn check_difference<L: Level>(
    rack: &Rack<'_, L>,
    slate: &Slate<'_>,
    one: usize,
    other: usize,
    to: usize,
) -> Result<(), Fault>
    ensures { result ≡ told (difference_refusal (rack_outline rack.now) (slate_outline slate.now) one other to) }
{
    rack.marks.refuse_difference(&slate.marks, one, other, to)
}

impl Slate<'_> {
    /// Fills a place with the heights of one list of w × h levels minus those of another, which weigh 1.
    /// Refuses a list that has not w × h levels (4), a place that the slate has not (6), and no visit open on the slate (31); a
    /// refusal changes nothing. Of the memory exactly the place's cells change.
    pub fn store_difference<L: Level>(
        &mut self,
        to: usize,
        one: &[L],
        other: &[L],
    ) -> Result<(), Fault>
        ensures { MakesTally (store_refusal (slate_outline self.old) to (length one.now) (length other.now))
            (difference (differed (map L.height one.now) (map L.height other.now))) self.old self.new to result }
    {
        self.marks.refuse_store(to, one.len(), other.len())?;
        let cells = self.marks.cells();
        let start = (to - 1) * cells;
        write_difference(one, other, &mut self.memory[start..start + cells]);
        self.marks.fill(to, Weight::of_difference());
        Ok(())
    }
}
