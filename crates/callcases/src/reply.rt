// What the calls answer, with what they left in their lists.
use calls::Spot;
use cases::{Answer, Heights};
use in_use::Told;
use levels::level::Level;
use levels::{Mask, Number};
use limits::Fault;
use std::fmt;

// What a call answers, and the list that it was to write.
#[derive(Drop)]
pub(crate) struct Reply<L> {
    pub(crate) told: Result<Told<L>, Fault>,
    pub(crate) list: List<L>,
}

// The list that a call was to write, or that a line gives.
#[derive(Drop)]
pub(crate) enum List<L> {
    None,
    Sheet(Vec<L>),
    Mask(Vec<Mask>),
    Tally(Vec<i32>),
    Spectrum(Vec<u64>),
    Skeleton(Vec<u32>),
    // What a restore left in its answer list and in its work list.
    Restored(Vec<Number>, Vec<Number>),
    // Pieces that the line itself gives, which are not printed.
    Pieces(Vec<u32>),
}

impl<L: Level> Reply<L> {
    // The list for later restores: that of an accepted skeleton, pieces that were given, or else the one that was kept before.
    pub(crate) fn pieces_after(self, before: Vec<u32>) -> Vec<u32> {
        let Reply { told, list } = self;
        match (told, list) {
            (Ok(_), List::Skeleton(pieces)) => pieces,
            (_, List::Pieces(pieces)) => pieces,
            _ => before,
        }
    }
}

// The column, the row and the height of a spot, each printed behind a space.
#[derive(Clone, Copy)]
struct Place<'a, L>(&'a Spot<L>);

impl<L: Level> fmt::Display for Place<'_, L> {
    fn fmt<W: fmt::Write>(&self, f: &mut fmt::Formatter<W>) -> fmt::Result {
        let Spot { column, row, level } = *self.0;
        let height = level.height();
        write!(f, " {column} {row} {height}")
    }
}

// Numbers, each printed behind a space. Apart from `Heights`: a type over both would need a trait of what is printed of a cell.
#[derive(Clone, Copy)]
struct Numbers<'a, N>(&'a [N]);

impl<N: fmt::Display> fmt::Display for Numbers<'_, N> {
    fn fmt<W: fmt::Write>(&self, f: &mut fmt::Formatter<W>) -> fmt::Result {
        for number in self.0 {
            write!(f, " {number}")?;
        }
        Ok(())
    }
}

impl<L: Level> fmt::Display for List<L> {
    fn fmt<W: fmt::Write>(&self, f: &mut fmt::Formatter<W>) -> fmt::Result {
        match self {
            List::None | List::Pieces(_) => Ok(()),
            List::Sheet(levels) => write!(f, "{}", Heights(levels.as_slice())),
            List::Mask(levels) => write!(f, "{}", Heights(levels.as_slice())),
            List::Tally(numbers) => write!(f, "{}", Numbers(numbers.as_slice())),
            List::Spectrum(numbers) => write!(f, "{}", Numbers(numbers.as_slice())),
            List::Skeleton(numbers) => write!(f, "{}", Numbers(numbers.as_slice())),
            List::Restored(answer, work) => write!(
                f,
                "{} |{}",
                Heights(answer.as_slice()),
                Heights(work.as_slice())
            ),
        }
    }
}

impl<L: Level> fmt::Display for Reply<L> {
    fn fmt<W: fmt::Write>(&self, f: &mut fmt::Formatter<W>) -> fmt::Result {
        let list = &self.list;
        match &self.told {
            Ok(Told::Rounds { rounds: number }) | Ok(Told::Area { area: number }) => {
                write!(f, "= {number}{list}")
            }
            Ok(Told::Span { least, greatest }) => {
                write!(f, "={}{}{list}", Place(least), Place(greatest))
            }
            Ok(Told::Tally { weight }) => write!(f, "= {}:{list}", weight.number()),
            Ok(_) => write!(f, "={list}"),
            Err(fault) => write!(f, "{}{list}", Answer(Err(*fault))),
        }
    }
}
