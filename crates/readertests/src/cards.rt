// Cards and what they come to, built-in elements, and cards that are written.
use elements::{Element, Offset, read_card, write_card};
use std::process::Abort;
use std::test::Fail;

// The built-in elements: the number, the places of the offsets as bits, and how many bytes a card takes.
const BUILT_IN: [(u32, u64, usize); 4] = [
    (1, 1 << 17 | 0b111 << 23 | 1 << 31, 16),
    (2, 0b111 << 16 | 0b111 << 23 | 0b111 << 30, 28),
    (3, 0b11 << 24, 7),
    (4, 0b111 << 23, 10),
];

// The places of an element's offsets, as bits.
fn places(element: &Element) -> u64 {
    (0..64)
        .filter(|index| element.holds(*index))
        .fold(0, |places, index| places | 1 << index)
}

// The same, asked offset by offset.
fn contained(element: &Element) -> u64 {
    (0..49u8)
        .filter(|index| {
            Offset::new((index % 7) as i8 - 3, (index / 7) as i8 - 3).is_some_and(
                |offset| element.contains(offset),
            )
        })
        .fold(0, |places, index| places | 1 << index)
}

// The places of the offsets of a card's element, or the number and the byte of its fault.
fn outcome(card: &[u8]) -> Result<u64, (u32, usize)> {
    read_card(card)
        .map(|element| places(&element))
        .map_err(|fault| (fault.number(), fault.place()))
}

// The card of all 49 offsets, in reading order.
fn whole_square() -> [u8; 148] {
    let mut card = [0; 148];
    card[0] = 49;
    let (records, _) = card[1..].as_chunks_mut();
    for (index, record) in (0..49u8).zip(records) {
        let next = if index < 48 { index + 2 } else { 0 };
        *record = [
            (index % 7).wrapping_sub(3),
            (index / 7).wrapping_sub(3),
            next,
        ];
    }
    card
}

#[test]
fn cards_tell_an_element_or_their_first_fault(rt: HostRuntime) {
    let centre = 1 << 24;
    let table: [(&[u8], Result<u64, (u32, usize)>); 21] = [
        (&[], Err((12, 0))),
        (&[0], Err((12, 0))),
        (&[1, 0, 0], Err((12, 0))),
        (&[1, 0, 0, 0, 0], Err((12, 0))),
        (&[50; 151], Err((12, 0))),
        (&[2, 252, 0, 2, 0, 0, 0], Err((13, 1))),
        (&[2, 0, 0, 2, 4, 4, 3], Err((13, 4))),
        (&[2, 0, 0, 2, 3, 4, 3], Err((13, 5))),
        (&[2, 0, 0, 2, 253, 252, 0], Err((13, 5))),
        (&[2, 0, 0, 3, 1, 0, 0], Err((14, 3))),
        (&[2, 0, 0, 2, 0, 0, 3], Err((14, 6))),
        (&[1, 0, 0, 1], Err((15, 1))),
        (&[2, 0, 0, 2, 0, 0, 0], Err((15, 4))),
        (&[3, 0, 0, 2, 1, 0, 3, 2, 0, 2], Err((15, 4))),
        (&[1, 1, 0, 0], Err((16, 3))),
        (&[2, 1, 0, 2, 2, 0, 0], Err((16, 6))),
        (&[1, 0, 0, 0], Err((17, 3))),
        (&[2, 0, 0, 0, 1, 0, 0], Err((17, 3))),
        (&[2, 0, 0, 2, 1, 0, 0], Ok(centre | 1 << 25)),
        (&[3, 0, 0, 3, 99, 99, 99, 253, 3, 0], Ok(centre | 1 << 42)),
        (&[2, 3, 253, 2, 0, 0, 0], Ok(centre | 1 << 6)),
    ];
    for (card, expected) in table {
        assert_eq!(rt; outcome(card), expected);
    }
    assert_eq!(rt; outcome(&whole_square()), Ok((1 << 49) - 1));
}

// Writes the element's card into lists of 0 to 149 bytes: only one of `right` bytes takes it, and tells the same element.
fn check_written(rt: &impl Abort, element: &Element, right: usize) {
    for len in 0..150 {
        let mut bytes = [255; 150];
        let card = &mut bytes[0..len];
        let written = write_card(element, card).map_err(|fault| (fault.number(), fault.place()));
        if len == right {
            assert_eq!(rt; written, Ok(()));
            assert_eq!(rt; outcome(card), Ok(places(element)));
        } else {
            assert_eq!(rt; written, Err((12, 0)));
            assert_eq!(rt; bytes, [255; 150]);
        }
    }
}

#[test]
fn elements_are_built_in_and_read_back_as_they_were_written(rt: HostRuntime) -> Result<(), Fail> {
    for (number, expected, right) in BUILT_IN {
        let Ok(element) = Element::built_in(number) else {
            return Err(Fail::new("a built-in element is refused"));
        };
        assert_eq!(rt; places(&element), expected);
        assert_eq!(rt; contained(&element), expected);
        assert_eq!(rt; 1 + 3 * usize::from(element.size()), right);
        check_written(&rt, &element, right);
    }
    for number in [0, 5, u32::MAX] {
        let refused = Element::built_in(number).err();
        assert_eq!(rt; refused.map(|fault| fault.number()), Some(10));
    }
    let Ok(square) = read_card(&whole_square()) else {
        return Err(Fail::new("the card of the whole square is refused"));
    };
    assert_eq!(rt; square.size(), 49);
    check_written(&rt, &square, 148);
    Ok(())
}

#[test]
fn offsets_lie_within_three_of_the_centre(rt: HostRuntime) {
    let table = [
        (0, 0, true),
        (-3, 3, true),
        (3, -3, true),
        (-4, 0, false),
        (4, 0, false),
        (0, -4, false),
        (0, 4, false),
        (i8::MIN, i8::MAX, false),
    ];
    for (column, row, within) in table {
        assert_eq!(rt; Offset::new(column, row).is_some(), within);
    }
}
