// The reader of element cards: a count of records, and then a chain of offsets through them.
ghost use Rattle.std.specs.Prelude.{◌≡◌, ◌+◌, ◌*◌, ◌^◌, ◌<◌, ◌≤◌, true, false, length, Some, None, Ok, Err, MatchResult, slice_set};
ghost use Rattle.std.specs.Int.{w8};
ghost use Rattle.std.proofs.Common.{to_z};
ghost use Rattle.elements.specs.Cards.{card_fault_number, card_fault_place, card_flags, end_fault, far, far_fault, next_of, record_fault, record_place, records, has_right_length};
ghost use Rattle.elements.specs.Chains.{TellsTheChain};

use crate::element::{Element, count_set};
use crate::offset::Offset;

/// Why a card was refused, with the byte at which that shows; or why none was written.
#[derive(Clone, Copy)]
pub enum CardFault {
    /// The card has not 1 to 49 records, or is not as long as they make it; a list is not as long as the card to write.
    Length,
    /// A column or a row lies outside −3 to 3.
    Offset(usize),
    /// The next record lies past the last one.
    Next(usize),
    /// The offset was met before.
    Repeated(usize),
    /// The chain ended without (0, 0).
    NoCentre(usize),
    /// The chain ended with (0, 0) alone.
    OnlyCentre(usize),
}

impl CardFault {
    /// The fault's number, 12 to 17.
    // By match: the variants carry a place, and only an enum of plain variants has a number by `as`.
    pub fn number(self) -> u32
        ensures { result ≡ card_fault_number self }
    {
        match self {
            CardFault::Length => 12,
            CardFault::Offset(_) => 13,
            CardFault::Next(_) => 14,
            CardFault::Repeated(_) => 15,
            CardFault::NoCentre(_) => 16,
            CardFault::OnlyCentre(_) => 17,
        }
    }

    /// The byte of the card at which the fault shows, counted from 0.
    // 0 and no `Option`: every refusal with a place has a number there, 0 where there is none, as the printed line has.
    pub fn place(self) -> usize
        ensures { result ≡ card_fault_place self }
    {
        match self {
            CardFault::Length => 0,
            CardFault::Offset(place)
            | CardFault::Next(place)
            | CardFault::Repeated(place)
            | CardFault::NoCentre(place)
            | CardFault::OnlyCentre(place) => place,
        }
    }
}

// Whether the card has 1 to 49 records and is as long as they make it.
fn is_right_length(card: &[u8]) -> bool
    ensures { result ≡ has_right_length card.now }
{
    let [count, records @ ..] = card else {
        return false;
    };
    let count = usize::from(*count);
    (1..=49).contains(&count) && records.len() == 3 * count
}

// The offset of the two bytes that stand at `place` and after it.
fn read_offset(column: u8, row: u8, place: usize) -> Result<Offset, CardFault>
    requires { place < 2 ^ 63 }
    ensures { MatchResult result
        (λ offset. (offset.column ≡ to_z w8 column) × (offset.row ≡ to_z w8 row)
        × (far (to_z w8 column) ≡ false) × (far (to_z w8 row) ≡ false))
        (λ fault. far_fault place (to_z w8 column) (to_z w8 row) None ≡ Some fault) }
{
    let column = column.cast_signed();
    if !(-3..=3).contains(&column) {
        return Err(CardFault::Offset(place));
    }
    Offset::new(column, row.cast_signed()).ok_or(CardFault::Offset(place + 1))
}

// Visits a record of the chain: sets the flag of its offset, and tells the record to go on with.
fn visit(card: &[u8], number: usize, flags: &mut [bool; 49]) -> Result<usize, CardFault>
    requires { (length card.now ≡ 1 + 3 * records card.now) × ((1 ≤ number) × (number ≤ records card.now)) }
    ensures { MatchResult result
        (λ next. (record_fault card.now number flags.old ≡ None)
        × (next ≡ next_of card.now number)
        × (flags.new ≡ slice_set flags.old (record_place card.now number) true))
        (λ fault. record_fault card.now number flags.old ≡ Some fault) }
{
    let from = 3 * number - 2;
    let [column, row, next, ..] = &card[from..] else {
        unreachable!()
    };
    let offset = read_offset(*column, *row, from)?;
    if *next > card[0] {
        return Err(CardFault::Next(from + 2));
    }
    let index = offset.index();
    if flags[index] {
        return Err(CardFault::Repeated(from));
    }
    flags[index] = true;
    Ok(usize::from(*next))
}

// The element of a chain that met the offsets of `flags` and ended with this byte.
fn finish(flags: [bool; 49], last: usize) -> Result<Element, CardFault>
    ensures { MatchResult result
        (λ element. (element.flags ≡ flags) × (end_fault last flags ≡ None))
        (λ fault. end_fault last flags ≡ Some fault) }
{
    if !flags[24] {
        return Err(CardFault::NoCentre(last));
    }
    if count_set(&flags) < 2 {
        return Err(CardFault::OnlyCentre(last));
    }
    Ok(Element::from_flags(flags))
}

/// Reads a card: a byte that counts the records, 1 to 49, and then the records, each of three bytes, the column and the row
/// of an offset as signed bytes and the number of the next record. The chain starts at record 1 and ends at a next of 0;
/// the element is the set of the offsets on it, and records off the chain are not looked at.
///
/// Refuses, in this order: `Length` (12); at each record of the chain `Offset` (13) at the column's or else the row's byte,
/// `Next` (14) at the next's byte, `Repeated` (15) at the record's first byte; at the chain's end, at its last next byte,
/// `NoCentre` (16) and `OnlyCentre` (17).
pub fn read_card(card: &[u8]) -> Result<Element, CardFault>
    ensures flags { MatchResult result
        (λ element. card_flags card.now ≡ Ok element.flags)
        (λ fault. card_flags card.now ≡ Err fault) }
    ensures chain { TellsTheChain card.now result }
{
    if !is_right_length(card) {
        return Err(CardFault::Length);
    }
    let mut flags = [false; 49];
    // By record numbers: the chain is the card's format.
    let mut number = 1;
    loop {
        let next = visit(card, number, &mut flags)?;
        if next == 0 {
            return finish(flags, 3 * number);
        }
        number = next;
    }
}
