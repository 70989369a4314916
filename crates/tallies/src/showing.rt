// The call that shows a tally.
ghost use Rattle.std.specs.Prelude.{◌≡◌, length, None, Some, MatchResult};
ghost use Rattle.bench.specs.Model.{slate_outline, slate_state};
ghost use Rattle.tallies.specs.Showing.{show_tally_refusal};
ghost use Rattle.weights.specs.Weights.{weighed};

use bench::Slate;
use limits::Fault;
use weights::Weight;

/// Copies the tally in a place to a list of w × h numbers, and tells its weight.
/// Refuses a list of another length (4), a place that the slate has not (6), no visit open on the slate (31), and a place
/// that is empty (35), and then leaves the list as it was.
pub fn show_tally(slate: &Slate<'_>, place: usize, list: &mut [i32]) -> Result<Weight, Fault>
    ensures answers { MatchResult result
        (λ _. show_tally_refusal (slate_outline slate.now) place (length list.old) ≡ None)
        (λ fault. show_tally_refusal (slate_outline slate.now) place (length list.old) ≡ Some fault) }
    ensures list { MatchResult result
        (λ weight. (slate_state slate.now).content place ≡ Some (weighed weight list.new))
        (λ _. list.new ≡ list.old) }
{
    let (w, h, _) = slate.sizes();
    if list.len() != w * h {
        return Err(Fault::Length);
    }
    let (cells, weight) = slate.tally(place)?;
    list.copy_from_slice(cells);
    Ok(weight)
}
