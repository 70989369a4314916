// Mask, the level kind of two levels: no and yes.
ghost use Rattle.levels.specs.Mask.{mask_height};
ghost use Rattle.std.proofs.Common.{rules};

use crate::level::Level;

/// A mask level: no (height 0) or yes (height 1).
#[derive(Clone, Copy, PartialEq, PartialOrd)]
pub enum Mask {
    No,
    Yes,
}

impl Level for Mask {
    ghost top = { 1 };

    ghost height = { mask_height };

    ghost topped = { Prim.search rules };

    ghost bounded = { Prim.search rules };

    ghost within = { Prim.search rules };

    ghost distinct = { Prim.search rules };

    fn lowest() -> Mask {
        Mask::No
    }

    fn highest() -> Mask {
        Mask::Yes
    }

    fn height(self) -> u32 {
        u32::from(self as u8)
    }

    fn at_most(self, other: Mask) -> bool {
        self <= other
    }
}
