// The level kinds that the programs of cases run at.
ghost use Rattle.std.specs.Prelude.{◌≡◌, ℕ, min, cond, map, take, IfOk, nat_le};

use levels::level::Level;
use levels::{Gray, Heat, Mask};
use std::alloc::{AllocError, Global};
use std::fmt;

/// A level kind, as a program runs at it. It is printed as its title.
pub trait Kind: fmt::Display {
    type Level: Level;

    /// The heights of a picture to load, five and one too many.
    const PICTURE: [usize; 6] = [0, 2, 1, 2, 0, 255];

    // The height of the level that stands for a height.
    ghost stands: { Self → ℕ → ℕ };

    /// The level that stands for a height. Above the top of the level kind that is the highest.
    fn level(&self, height: usize) -> Self::Level
        ensures { Self.Level.height result ≡ stands self.now height };

    /// The levels that stand for heights.
    fn levels(&self, heap: Global, heights: &[usize]) -> Result<Vec<Self::Level>, AllocError>
        ensures { IfOk result (λ levels. map Self.Level.height levels.items ≡ map (stands self.now) heights.now) }
    {
        let mut levels = Vec::new(heap);
        for height in heights {
            levels.push(self.level(*height))?;
        }
        Ok(levels)
    }
}

// Mask, cut at a height: yes stands for the heights that are at least that.
#[derive(Clone, Copy)]
pub(crate) struct CutMask {
    pub(crate) height: usize,
}

impl fmt::Display for CutMask {
    fn fmt<W: fmt::Write>(&self, f: &mut fmt::Formatter<W>) -> fmt::Result {
        let height = self.height;
        write!(f, "mask, cut at {height}")
    }
}

impl Kind for CutMask {
    type Level = Mask;

    ghost stands = { λ kind height. cond (nat_le kind.height height) 1 0 };

    fn level(&self, height: usize) -> Mask {
        if height >= self.height {
            Mask::Yes
        } else {
            Mask::No
        }
    }
}

// Gray, where a height stands for itself.
#[derive(Clone, Copy)]
pub(crate) struct PlainGray;

impl fmt::Display for PlainGray {
    fn fmt<W: fmt::Write>(&self, f: &mut fmt::Formatter<W>) -> fmt::Result {
        f.write_str("gray")
    }
}

impl Kind for PlainGray {
    type Level = Gray;

    ghost stands = { λ kind height. min height 255 };

    fn level(&self, height: usize) -> Gray {
        Gray::new(u8::try_from(height).unwrap_or(255))
    }
}

// Heat, where a height stands for itself.
#[derive(Clone, Copy)]
pub(crate) struct PlainHeat;

impl fmt::Display for PlainHeat {
    fn fmt<W: fmt::Write>(&self, f: &mut fmt::Formatter<W>) -> fmt::Result {
        f.write_str("heat")
    }
}

impl Kind for PlainHeat {
    type Level = Heat;

    const PICTURE: [usize; 6] = [0, 33_089, 1, 33_089, 0, 65_536];

    ghost stands = { λ kind height. min height 65536 };

    fn level(&self, height: usize) -> Heat {
        if height == 0 {
            return Heat::blank();
        }
        Heat::of_count((height.min(65_536) as i32 - 32_769) as i16)
    }
}

/// The first levels of a list, or all.
pub fn first_levels<L>(levels: &[L], len: usize) -> &[L]
    ensures { result.now ≡ take len levels.now }
{
    &levels[..len.min(levels.len())]
}
