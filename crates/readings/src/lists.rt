// Lists of readings, and lists of the heat levels that they stand for.
ghost use Rattle.std.specs.Prelude.{◌≡◌, map, length, MatchOption, MatchResult, ◌≢◌};
ghost use Rattle.readings.specs.Lists.{Accepted, ReadsAll, ReadsBack, Refused, heat_height};
ghost use Rattle.readings.specs.Readings.{IsReadable, SixteenthsAreExact, told_as};
ghost use Rattle.std.specs.List.{AllByRecursion};

use crate::fault::ReadingFault;
use crate::reading::Reading;
use levels::Heat;

// The index of the first reading that stands for no level, or nothing where each stands for one.
fn first_unreadable(readings: &[Reading]) -> Option<usize>
    ensures { MatchOption result
        (AllByRecursion IsReadable readings.now)
        (λ index. Refused readings.now (length readings.now) (ReadingFault.Unreadable index)) }
{
    readings
        .iter()
        .position(|reading| reading.level().is_none())
}

// Writes the levels that readings stand for. All readings were checked before, so that the levels stay as they were where one is refused.
fn write_levels(readings: &[Reading], levels: &mut [Heat])
    requires { (length readings.now ≡ length levels.old) × (AllByRecursion IsReadable readings.now) }
    ensures { ReadsAll readings.now (map heat_height levels.new) }
{
    // By index, since after a zip with iter_mut a proof knows of a list no more than its length.
    for (index, reading) in readings.iter().enumerate() {
        levels[index] = reading.level().unwrap();
    }
}

/// Writes the heat level of each reading: blank for a dead one, and else the count of sixteenths that its degrees are.
///
/// Refuses, in this order: `Lengths` (3) where there are not as many levels as readings; `Unreadable` (18) at the first
/// reading whose degrees equal no c ÷ 16 for a count c from −32,768 to 32,767. Minus zero is the count 0. Where it
/// refuses, the levels stay as they were.
pub fn read_heat(readings: &[Reading], levels: &mut [Heat]) -> Result<(), ReadingFault>
    ensures answers { MatchResult result
        (λ _. Accepted readings.now (length levels.old))
        (λ fault. Refused readings.now (length levels.old) fault) }
    ensures memory { MatchResult result
        (λ _. ReadsAll readings.now (map heat_height levels.new))
        (λ _. levels.new ≡ levels.old) }
{
    if readings.len() != levels.len() {
        return Err(ReadingFault::Lengths);
    }
    if let Some(index) = first_unreadable(readings) {
        return Err(ReadingFault::Unreadable(index));
    }
    write_levels(readings, levels);
    Ok(())
}

// Writes the readings by which levels are told.
fn write_readings(levels: &[Heat], readings: &mut [Reading])
    requires { length levels.now ≡ length readings.old }
    ensures { readings.new ≡ map told_as (map heat_height levels.now) }
{
    // By index, as in `write_levels`.
    for (index, level) in levels.iter().enumerate() {
        readings[index] = Reading::from(*level);
    }
}

/// Writes the reading by which each level is told: dead for blank, and for a count c the degrees c ÷ 16, without error.
/// Read again, they give the same levels.
///
/// Refuses with `Lengths` (3) where there are not as many readings as levels; the readings then stay as they were.
#[tactic(auto, using(crate::proofs::Heights::reads_back, crate::proofs::Sixteenths::told_exactly))]
pub fn tell_heat(levels: &[Heat], readings: &mut [Reading]) -> Result<(), ReadingFault>
    ensures answers { MatchResult result
        (λ _. length levels.now ≡ length readings.old)
        (λ fault. (fault ≡ ReadingFault.Lengths) × (length levels.now ≢ length readings.old)) }
    ensures memory { MatchResult result
        (λ _. readings.new ≡ map told_as (map heat_height levels.now))
        (λ _. readings.new ≡ readings.old) }
    ensures exact { SixteenthsAreExact }
    ensures reads_back { ReadsBack }
{
    if levels.len() != readings.len() {
        return Err(ReadingFault::Lengths);
    }
    write_readings(levels, readings);
    Ok(())
}
