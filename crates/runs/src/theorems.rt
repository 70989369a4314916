// The theorems about the calls on a bench, and about every run of them.
ghost use Rattle.std.specs.Prelude.{ℕ, ◌≤◌};
ghost use Rattle.runs.specs.Conditions.{FirstInOrder, NumbersAscend, RefusalsLeaveTheBench};
ghost use Rattle.runs.specs.Theorems.{FilledPlaces, Forgetting, HeightsTo, MaskSums, Restoring, RunLaws, SkeletonsTellSheets, SpectraTellAreas, TalliesWithinWeights};

use levels::level::Level;

/// Each refusal that a call of the model can tell has its condition. A call tells the first whose condition holds, in the order of their
/// numbers, and it is accepted where none holds; a refused call leaves the bench as it was.
#[tactic(auto, using(crate::proofs::FirstInOrder::numbers_ascend, crate::proofs::FirstInOrder::first_in_order))]
pub fn refusals_in_order()
    ensures numbers { NumbersAscend }
    ensures refusals { FirstInOrder }
    ensures bench { RefusalsLeaveTheBench }
{}

/// What holds of every run of calls on a bench of a level kind.
pub fn runs_of_a_kind<L: Level>()
    ensures sums { MaskSums L.height L.top }
    ensures restoring { Restoring L.height }
    ensures skeletons { SkeletonsTellSheets L.height }
    ensures spectra { SpectraTellAreas L.height }
    ensures weights { TalliesWithinWeights L.height L.top }
    ensures places { FilledPlaces L.height }
    ensures forgetting { Forgetting L.height }
{}

/// All of this for every top from 1 to 65,536.
pub fn runs_of_every_top()
    ensures { (top : ℕ) → 1 ≤ top → top ≤ 65536 → RunLaws (λ (x : HeightsTo top). x.0) top }
{}
