// The ways in which a tally is made of one or two others, and the weight that each gives it.
ghost use Rattle.std.specs.Prelude.{◌≡◌, MatchResult};
ghost use Rattle.limits.specs.declared.fault.Fault.TheVariants.{Weight as TooHeavy};
ghost use Rattle.weights.specs.Weights.{AcceptedWeight, RefusedWeight};

use crate::weight::Weight;
use limits::Fault;

/// How a tally is made of others: the sum of two, or the multiple of one by a factor, which does not look at the other.
#[derive(Clone, Copy)]
pub enum Combination {
    Sum,
    Multiple { factor: i32 },
}

impl Combination {
    /// The weight of the tally that is made of tallies of these weights: the sum of the two, or the multiple of the first by the
    /// factor's size. Any factor will do.
    /// Refuses a weight above 1,000 (36).
    pub fn weight(self, one: Weight, other: Weight) -> Result<Weight, Fault>
        ensures { MatchResult result
            (λ made. AcceptedWeight self one other made)
            (λ fault. (fault ≡ TooHeavy) × RefusedWeight self one other) }
    {
        let (one, other) = (u64::from(one.number), u64::from(other.number));
        let number = match self {
            Combination::Sum => one + other,
            Combination::Multiple { factor } => u64::from(factor.unsigned_abs()) * one,
        };
        if number > 1000 {
            return Err(Fault::Weight);
        }
        Ok(Weight {
            number: number as u16,
        })
    }
}
