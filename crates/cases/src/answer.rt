// Answers, as they are printed.
ghost use Rattle.std.specs.Prelude.{◌≡◌, Some};
ghost use Rattle.cases.specs.Texts.{printed_answer, heights_text, with_no_number, with_number};

use levels::level::Level;
use limits::Fault;
use std::fmt;

/// The answer of a call, printed as `=` with the number that it tells, if any, or as `!` with the number of the refusal.
#[derive(Clone, Copy)]
pub struct Answer(pub Result<Option<u64>, Fault>);

impl From<Result<(), Fault>> for Answer {
    ghost from_gives = { λ answer printed. printed.0 ≡ with_no_number answer };

    fn from(answer: Result<(), Fault>) -> Answer {
        Answer(answer.map(|()| None))
    }
}

impl From<Result<u64, Fault>> for Answer {
    ghost from_gives = { λ answer printed. printed.0 ≡ with_number answer };

    fn from(answer: Result<u64, Fault>) -> Answer {
        Answer(answer.map(Some))
    }
}

impl fmt::Display for Answer {
    ghost output = { λ answer. Some (printed_answer answer.0) };

    fn fmt<W: fmt::Write>(&self, f: &mut fmt::Formatter<W>) -> fmt::Result {
        match self.0 {
            Ok(None) => f.write_str("="),
            Ok(Some(number)) => write!(f, "= {number}"),
            Err(fault) => {
                let number = fault.number();
                write!(f, "! {number}")
            }
        }
    }
}

/// The heights of levels, each printed behind a space.
#[derive(Clone, Copy)]
pub struct Heights<'a, L>(pub &'a [L]);

impl<L: Level> fmt::Display for Heights<'_, L> {
    ghost output = { λ heights. Some (heights_text L.height heights.0.now) };

    fn fmt<W: fmt::Write>(&self, f: &mut fmt::Formatter<W>) -> fmt::Result {
        for level in self.0 {
            let height = level.height();
            write!(f, " {height}")?;
        }
        Ok(())
    }
}
