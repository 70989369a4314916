// Heat, the level kind of temperatures: blank, or a count of sixteenths of a degree.
ghost use Rattle.std.specs.Prelude.{◌≡◌, ◌≤◌, pos, ◌+ℤ◌};
ghost use Rattle.levels.specs.Heat.{heat_count};
ghost use Rattle.std.proofs.Common.{rules, arith};

use crate::level::Level;

/// A heat level: blank, or a count c of sixteenths of a degree, −32,768 to 32,767.
/// It is kept as its height, 0 for blank and c + 32,769 for a count, so that two levels are compared as
/// two numbers and a loop over levels is vectorised.
// A number and no enum: comparing an enum of blank and count has branches, and the loop is then not vectorised.
#[derive(Clone, Copy, PartialEq, PartialOrd)]
pub struct Heat {
    height: u32,
    ghost fits: { height ≤ 65536 },
}

impl Heat {
    /// The blank level, of height 0.
    pub fn blank() -> Heat
        ensures { result.height ≡ 0 }
    {
        Heat { height: 0 }
    }

    /// The level of a count of sixteenths of a degree.
    pub fn of_count(count: i16) -> Heat
        ensures { pos result.height ≡ count +ℤ pos 32769 }
    {
        Heat {
            height: (i32::from(count) + 32_769) as u32,
        }
    }

    /// The count of this level, or nothing where it is blank.
    pub fn count(self) -> Option<i16>
        ensures { result ≡ heat_count self.height }
    {
        if self.height == 0 {
            return None;
        }
        Some((self.height as i32 - 32_769) as i16)
    }
}

impl Level for Heat {
    ghost top = { 65536 };

    ghost height = { λ h. h.height };

    ghost topped = { Prim.search rules };

    ghost bounded = { Prim.search rules };

    ghost within = { λ h. h.fits };

    ghost distinct = { Prim.grind (arith, Self.row.coded.inj) };

    fn lowest() -> Heat {
        Heat::blank()
    }

    fn highest() -> Heat {
        Heat { height: 65_536 }
    }

    fn height(self) -> u32 {
        self.height
    }

    fn at_most(self, other: Heat) -> bool {
        self <= other
    }
}
