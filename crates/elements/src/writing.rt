// The writer of element cards.
ghost use Rattle.std.specs.Prelude.{◌≡◌, ℕ, ◌+◌, ◌*◌, ◌<◌, ◌≤◌, ◌⊎◌, length, pos, ◌-ℤ◌, MatchResult, ◌≢◌, slice_index};
ghost use Rattle.std.specs.Int.{w8};
ghost use Rattle.std.proofs.Common.{to_z};
ghost use Rattle.elements.specs.Cards.{next_of, record_byte};
ghost use Rattle.elements.specs.Chains.{offset_of};
ghost use Rattle.elements.specs.Elements.{offsets};
ghost use Rattle.elements.specs.Offsets.{offset_at};
ghost use Rattle.elements.specs.Written.{CardOf, WrittenCardsReadBack};

use crate::cards::CardFault;
use crate::element::Element;

// The signed byte of a column or a row that is counted from 0, so that 0 to 6 are −3 to 3.
fn side_byte(side: usize) -> u8
    requires { side ≤ 6 }
    ensures { to_z w8 result ≡ pos side -ℤ pos 3 }
{
    (side as i8 - 3).cast_unsigned()
}

// Writes a record: the offset at a place of the square, and the record to go on with.
fn write_record(card: &mut [u8], number: u8, index: usize, next: u8)
    requires { (1 ≤ number) × ((3 * number < length card.old) × (index < 49)) }
    ensures offset { offset_of card.new number ≡ offset_at index }
    ensures next { next_of card.new number ≡ next }
    ensures others { (k : ℕ) → (k < record_byte number) ⊎ (record_byte number + 2 < k)
        → slice_index card.new k ≡ slice_index card.old k }
{
    let from = 3 * usize::from(number) - 2;
    let record = [side_byte(index % 7), side_byte(index / 7), next];
    card[from..from + 3].copy_from_slice(&record);
}

/// Writes a card of the element into a list of exactly 1 + 3r bytes, r the number of its offsets: a record for each offset,
/// and a chain over all the records. In which order the records stand and the chain runs is free, and not promised.
/// `read_card` gives the same element back.
///
/// Refuses a list of any other length with `Length` (12), at place 0; the list then stays as it was.
pub fn write_card(element: &Element, card: &mut [u8]) -> Result<(), CardFault>
    ensures answers { MatchResult result
        (λ _. length card.old ≡ 1 + 3 * length (offsets element.now))
        (λ fault. (fault ≡ CardFault.Length) × (length card.old ≢ 1 + 3 * length (offsets element.now))) }
    ensures card { MatchResult result
        (λ _. CardOf element.now card.new)
        (λ _. card.new ≡ card.old) }
    ensures reads_back { WrittenCardsReadBack }
{
    let size = element.size();
    if card.len() != 1 + 3 * usize::from(size) {
        return Err(CardFault::Length);
    }
    card[0] = size;
    // Counted by hand: each record names the one that was written before it.
    let mut number = size;
    let mut next = 0;
    for index in (0..49).rev() {
        if element.holds(index) {
            write_record(card, number, index, next);
            next = number;
            number -= 1;
        }
    }
    Ok(())
}
