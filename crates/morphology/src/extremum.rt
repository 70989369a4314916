// The minimum and the maximum of two levels.
ghost use Rattle.std.specs.Prelude.{◌≡◌};
ghost use Rattle.morphology.specs.Passes.{extreme};

use levels::level::Level;

/// Which of two levels is kept: the minimum is the lower, the maximum the higher.
#[derive(Clone, Copy)]
pub enum Extremum {
    Minimum,
    Maximum,
}

impl Extremum {
    // A switch and no closure: callers hold the extremum as a value, and the compiler makes an inner loop for each of the two.
    /// The one of two levels that is kept.
    pub fn kept<L: Level>(self, x: L, y: L) -> L
        ensures { L.height result ≡ extreme self (L.height x) (L.height y) }
    {
        match self {
            Extremum::Minimum => if x.at_most(y) { x } else { y },
            Extremum::Maximum => if x.at_most(y) { y } else { x },
        }
    }
}
