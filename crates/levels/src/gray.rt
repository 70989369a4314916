// Gray, the level kind of bytes: each byte is its own height.
ghost use Rattle.std.specs.Prelude.{◌≡◌, ◌≤◌};
ghost use Rattle.std.proofs.Common.{rules, arith};

use crate::level::Level;

/// A gray level: a byte, which is its own height, so that the top is 255.
#[derive(Clone, Copy, PartialEq, PartialOrd)]
pub struct Gray {
    value: u8,
    ghost fits: { value ≤ 255 },
}

impl Gray {
    /// The gray level of a byte.
    pub fn new(value: u8) -> Gray
        ensures { result.value ≡ value }
    {
        Gray { value }
    }
}

impl Level for Gray {
    ghost top = { 255 };

    ghost height = { λ g. g.value };

    ghost topped = { Prim.search rules };

    ghost bounded = { Prim.search rules };

    ghost within = { λ g. g.fits };

    ghost distinct = { Prim.grind (arith, Self.row.coded.inj) };

    fn lowest() -> Gray {
        Gray { value: 0 }
    }

    fn highest() -> Gray {
        Gray { value: 255 }
    }

    fn height(self) -> u32 {
        u32::from(self.value)
    }

    fn at_most(self, other: Gray) -> bool {
        self <= other
    }
}
