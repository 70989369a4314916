// A heat reading, and the heat level that it stands for.
ghost use Rattle.std.specs.Prelude.{◌≡◌, ℤ, MatchOption};
ghost use Rattle.readings.specs.Readings.{IsCountOf, IsReadable, Reads, sixteenth, told_as};

use levels::Heat;
use std::num::saturating_f32_to_i16;

/// A heat reading, as a thermometer tells it.
#[derive(Clone, Copy)]
pub enum Reading {
    /// The thermometer is dead: there are no degrees, and the level is blank.
    Dead,
    /// The degrees.
    Degrees(f32),
    /// The heat is beyond the thermometer's range; these are the degrees that it reached.
    Beyond(f32),
}

impl Reading {
    // The level that the reading stands for, or nothing where its degrees are no count of sixteenths.
    pub(crate) fn level(self) -> Option<Heat>
        ensures { MatchOption result (IsReadable self → ⊥) (λ heat. Reads self heat.height) }
    {
        match self {
            Reading::Dead => Some(Heat::blank()),
            Reading::Degrees(degrees) | Reading::Beyond(degrees) => {
                count_of(degrees).map(Heat::of_count)
            }
        }
    }
}

impl From<Heat> for Reading {
    ghost from_gives = { λ level r. r ≡ told_as level.height };

    /// The reading by which a level is told.
    fn from(level: Heat) -> Reading {
        match level.count() {
            None => Reading::Dead,
            Some(count) => Reading::Degrees(degrees_of(count)),
        }
    }
}

// The count of sixteenths that the degrees are, or nothing where they are none: scaled by sixteen they then are no
// whole number, or one out of range.
fn count_of(degrees: f32) -> Option<i16>
    ensures { MatchOption result ((c : ℤ) → IsCountOf degrees c → ⊥) (λ c. IsCountOf degrees c) }
{
    let scaled = degrees * 16.0;
    let count = saturating_f32_to_i16(scaled);
    if f32::from(count) == scaled {
        Some(count)
    } else {
        None
    }
}

// The degrees of a count of sixteenths.
fn degrees_of(count: i16) -> f32
    ensures { result ≡ sixteenth count }
{
    f32::from(count) * 0.0625
}
