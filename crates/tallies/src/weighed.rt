// The calls that make a tally of tallies.
ghost use Rattle.bench.specs.Model.{slate_outline, slate_state, tally_of};
ghost use Rattle.bench.specs.TallyCalls.{MakesTally, combine_refusal};
ghost use Rattle.tallies.specs.Scaling.{scale_refusal};
ghost use Rattle.weights.specs.Weights.{multiple, sum_of_tallies};

use bench::Slate;
use limits::{Fault, check_factor};
use weights::Combination;

/// Fills the place `to` with the sum of the tallies in the places `one` and `other`, cells and weights. Any of the three places may be the
/// same.
/// Refuses 6, 31, 35 and 36, as `Slate::combine` does.
pub fn add(slate: &mut Slate<'_>, one: usize, other: usize, to: usize) -> Result<(), Fault>
    ensures { let sum = sum_of_tallies (tally_of (slate_state slate.old) one) (tally_of (slate_state slate.old) other) in
        MakesTally (combine_refusal (slate_outline slate.old) sum one other to) sum slate.old slate.new to result }
{
    slate.combine(Combination::Sum, one, other, to)
}

/// Fills the place `to` with the tally in the place `from`, which may be the same, times a factor: its cells times the factor, and its weight
/// times the factor's size.
/// Refuses a place that the slate has not (6), a factor that is not −100 to 100 (9), no visit open on the slate (31), a source place that is
/// empty (35), and a weight above 1,000 (36); a refusal changes nothing. Of the slate exactly the target's cells change.
pub fn scale(slate: &mut Slate<'_>, factor: i32, from: usize, to: usize) -> Result<(), Fault>
    ensures { let made = multiple factor (tally_of (slate_state slate.old) from) in
        MakesTally (scale_refusal (slate_outline slate.old) made factor from to) made slate.old slate.new to result }
{
    let (_, _, places) = slate.sizes();
    if !(1..=places).contains(&from) || !(1..=places).contains(&to) {
        return Err(Fault::TallyPlace);
    }
    check_factor(factor)?;
    slate.combine(Combination::Multiple { factor }, from, from, to)
}
