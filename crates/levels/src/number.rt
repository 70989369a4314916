// Number, the level kind of the numbers from 0 to 65,536: each is its own height.
ghost use Rattle.std.specs.Prelude.{◌≡◌, ◌≤◌, ◌<◌, MatchOption};
ghost use Rattle.std.proofs.Common.{rules, arith};

use crate::level::Level;

/// A number from 0 to 65,536, which is its own height, so that the top is 65,536. A cell of a sheet that is restored from a skeleton is one.
#[derive(Clone, Copy, PartialEq, PartialOrd)]
pub struct Number {
    value: u32,
    ghost fits: { value ≤ 65536 },
}

impl Number {
    /// The number of this value; nothing where that is above 65,536.
    pub fn new(value: u32) -> Option<Number>
        ensures { MatchOption result (65536 < value) (λ number. number.value ≡ value) }
    {
        if value > 65_536 {
            return None;
        }
        Some(Number { value })
    }
}

impl Level for Number {
    ghost top = { 65536 };

    ghost height = { λ n. n.value };

    ghost topped = { Prim.search rules };

    ghost bounded = { Prim.search rules };

    ghost within = { λ n. n.fits };

    ghost distinct = { Prim.grind (arith, Self.row.coded.inj) };

    fn lowest() -> Number {
        Number { value: 0 }
    }

    fn highest() -> Number {
        Number { value: 65_536 }
    }

    fn height(self) -> u32 {
        self.value
    }

    fn at_most(self, other: Number) -> bool {
        self <= other
    }
}
