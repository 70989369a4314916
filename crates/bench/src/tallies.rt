// What the calls on tallies stand on: the sizes of a slate, the tally in a place, and how a place is filled with a tally that is made of
// others.
ghost use Rattle.std.specs.Prelude.{◌≡◌, ◌*◌, ◌≤◌, length, Some, None, MatchResult};
ghost use Rattle.bench.specs.Calls.{tally_refusal};
ghost use Rattle.bench.specs.Model.{slate_outline, slate_state, tally_of};
ghost use Rattle.bench.specs.TallyCalls.{MakesTally, combine_refusal};
ghost use Rattle.weights.specs.Weights.{combined_tally, weighed};

use crate::numbers::combine_cells;
use crate::planes::part;
use crate::slate::Slate;
use limits::Fault;
use weights::{Combination, Weight};

impl Slate<'_> {
    /// The width and height of the slate's tallies and the number of its places; all 0 where it was opened with wrong sizes.
    pub fn sizes(&self) -> (usize, usize, usize)
        ensures value { result ≡ ((slate_outline self.now).w, (slate_outline self.now).h, (slate_outline self.now).places) }
        ensures bound { (result.0 ≤ 1024) × (result.1 ≤ 1024) }
    {
        (self.marks.w, self.marks.h, self.marks.places)
    }

    /// The numbers and the weight of the tally in a place.
    /// Refuses a place that the slate has not (6), no visit open on the slate (31), and a place that is empty (35).
    pub fn tally(&self, place: usize) -> Result<(&[i32], Weight), Fault>
        ensures answers { MatchResult result
            (λ tally. (tally_refusal (slate_outline self.now) place ≡ None)
            × ((slate_state self.now).content place ≡ Some (weighed tally.1 tally.0.now)))
            (λ fault. tally_refusal (slate_outline self.now) place ≡ Some fault) }
        ensures sides { MatchResult result
            (λ tally. length tally.0.now ≡ (slate_outline self.now).w * (slate_outline self.now).h)
            (λ _. Unit {0}) }
    {
        let weight = self
            .marks
            .source(place, Fault::TallyPlace, Fault::EmptyTally)?;
        let cells = self.marks.cells();
        Ok((part(self.memory, (place - 1) * cells, cells), weight))
    }

    /// Fills the place `to` with what a combination makes of the tallies in the places `one` and `other`. Any of the three may be
    /// the same.
    /// Refuses a place that the slate has not (6), no visit open on the slate (31), a place `one` or `other` that is empty (35), and a
    /// weight above 1,000 of the tally to be made (36); a refusal changes nothing. Of the memory exactly the target's cells change.
    pub fn combine(
        &mut self,
        how: Combination,
        one: usize,
        other: usize,
        to: usize,
    ) -> Result<(), Fault>
        ensures { let made = combined_tally how (tally_of (slate_state self.old) one) (tally_of (slate_state self.old) other) in
            MakesTally (combine_refusal (slate_outline self.old) made one other to) made self.old self.new to result }
    {
        let (first, second) = self.marks.tallies(one, other, to)?;
        let weight = how.weight(first, second)?;
        let cells = self.marks.cells();
        combine_cells(
            how,
            self.memory,
            (one - 1) * cells,
            (other - 1) * cells,
            (to - 1) * cells,
            cells,
        );
        self.marks.fill(to, weight);
        Ok(())
    }
}
