//! The commands of a job, and how a job's line is read as one.
#![tactic(auto)]

ghost use Rattle.std.specs.Prelude.{◌≡◌, ◌≤◌, length, IfErr, MatchResult};
ghost use Rattle.commands.specs.Reading.{command_or_misfit, read, TellsArguments, ReadsBackLines, ReadsOnlyLines, RefusesLinesAtMisfit};

use text::{Misfit, Scanner};

/// A command of a job: what a line of it says.
#[derive(Clone, Copy, Debug, PartialEq, Eq)]
pub enum Command {
    /// `V flat`: begins a visit.
    Begin { flat: u16 },
    /// `L place`: loads a picture.
    Load { place: u16 },
    /// `E from to`: erodes.
    Erode { from: u16, to: u16 },
    /// `D from to`: dilates.
    Dilate { from: u16, to: u16 },
    /// `O size from to`: opens.
    Open { size: u16, from: u16, to: u16 },
    /// `C size from to`: closes.
    Close { size: u16, from: u16, to: u16 },
    /// `A place`: tells an area.
    Area { place: u16 },
    /// `P depth place`: tells a pattern spectrum.
    Spectrum { depth: u16, place: u16 },
    /// `X`: ends the visit.
    End,
}

/// A line that is no command's: refusal 22, at the column of its first misfit, counted from 1, or one past its end where it ends too early.
#[derive(Clone, Copy, Debug, PartialEq, Eq)]
pub struct LineFault {
    pub column: usize,
}

impl LineFault {
    /// The refusal's number, 22.
    pub fn number(self) -> u32
        ensures { result ≡ 22 }
    {
        22
    }
}

/// The command on a line: a letter, and each of its numbers, 0 to 9,999 without leading zeros, after exactly one blank.
/// Refuses any other line with 22.
pub fn read_line(line: &[u8]) -> Result<Command, LineFault>
    ensures answers { result ≡ read line.now }
    ensures back { ReadsBackLines }
    ensures only { ReadsOnlyLines }
    ensures misfit { RefusesLinesAtMisfit }
{
    command_on(line).map_err(|misfit| LineFault {
        column: misfit.place + 1,
    })
}

// The command on a line, or the place of the line's first misfit.
fn command_on(line: &[u8]) -> Result<Command, Misfit>
    ensures answers { result ≡ command_or_misfit line.now }
    ensures within { IfErr result (λ misfit. misfit.place ≤ length line.now) }
{
    let Some((letter, _)) = line.split_first() else {
        return Err(Misfit { place: 0 });
    };
    // A match: the letters are the format.
    match char::from(*letter) {
        'V' => {
            let [flat] = numbers::<1>(line)?;
            Ok(Command::Begin { flat })
        }
        'L' => {
            let [place] = numbers::<1>(line)?;
            Ok(Command::Load { place })
        }
        'E' => {
            let [from, to] = numbers::<2>(line)?;
            Ok(Command::Erode { from, to })
        }
        'D' => {
            let [from, to] = numbers::<2>(line)?;
            Ok(Command::Dilate { from, to })
        }
        'O' => {
            let [size, from, to] = numbers::<3>(line)?;
            Ok(Command::Open { size, from, to })
        }
        'C' => {
            let [size, from, to] = numbers::<3>(line)?;
            Ok(Command::Close { size, from, to })
        }
        'A' => {
            let [place] = numbers::<1>(line)?;
            Ok(Command::Area { place })
        }
        'P' => {
            let [depth, place] = numbers::<2>(line)?;
            Ok(Command::Spectrum { depth, place })
        }
        'X' => {
            let [] = numbers::<0>(line)?;
            Ok(Command::End)
        }
        _ => Err(Misfit { place: 0 }),
    }
}

// The numbers after the letter, as many as are asked for, each after one blank, with nothing after the last.
fn numbers<const N: usize>(line: &[u8]) -> Result<[u16; N], Misfit>
    requires { 1 ≤ length line.now }
    ensures answers { TellsArguments N line.now result }
    ensures within { MatchResult result (λ ns. length ns ≡ N) (λ misfit. misfit.place ≤ length line.now) }
{
    let mut scanner = Scanner { bytes: line, at: 1 };
    let mut numbers = [0; N];
    for number in &mut numbers {
        scanner.fixed(b" ")?;
        *number = scanner.number(0)?;
    }
    if scanner.at < line.len() {
        return Err(Misfit { place: scanner.at });
    }
    Ok(numbers)
}
