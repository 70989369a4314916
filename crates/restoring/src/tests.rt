// Restoring on lists: a worked figure, and a refusal of each number with what it leaves.
use crate::restore;
use elements::Element;
use levels::{Level, Number};
use std::test::Fail;

// The skeleton of the sheet 0 2 1 2 0 by the built-in element 3, to depth 2.
const PIECES: [u32; 15] = [0, 1, 0, 1, 0, 0, 0, 0, 0, 0, 0, 1, 0, 0, 0];

// The number of a refusal, 0 where there is none, and what then stands in the answer list and in the work list, where 7 stood.
type Outcome = (u32, [u32; 5], [u32; 5]);

// What stands in each list before.
const SEVENS: [u32; 5] = [7; 5];

fn seven() -> Number {
    Number::new(7).unwrap()
}

fn heights(list: &[Number; 5]) -> [u32; 5] {
    let [a, b, c, d, e] = *list;
    [a.height(), b.height(), c.height(), d.height(), e.height()]
}

// What comes of the first numbers of a list of pieces, on the front of a work list.
fn outcome(
    element: &Element,
    sizes: (usize, usize),
    pieces: &[u32],
    w: usize,
    len: usize,
) -> Outcome {
    let mut answer = [seven(); 5];
    let mut work = [seven(); 5];
    let (depth, size) = sizes;
    let list = &mut work[..len.min(5)];
    let told = restore(element, depth, size, pieces, w, 1, &mut answer, list);
    let number = told.err().map_or(0, |fault| fault.number());
    (number, heights(&answer), heights(&work))
}

#[test]
fn a_skeleton_is_restored_or_refused(rt: HostRuntime) -> Result<(), Fail> {
    let Ok(element) = Element::built_in(3) else {
        return Err(Fail::new("a built-in element is refused"));
    };
    let mut high = PIECES;
    high[12] = 65_537;
    let mut highest = PIECES;
    highest[11] = 65_535;
    let zeros = [0; 5];
    let table: [((usize, usize), &[u32], usize, usize, Outcome); 11] = [
        ((2, 0), &PIECES, 5, 5, (0, [0, 2, 1, 2, 0], zeros)),
        ((2, 1), &PIECES, 5, 5, (0, [0, 1, 1, 1, 0], zeros)),
        ((2, 2), &PIECES, 5, 5, (0, [0, 1, 1, 1, 0], zeros)),
        (
            (2, 0),
            &highest,
            5,
            5,
            (0, [0, 65_536, 65_535, 65_536, 0], zeros),
        ),
        ((0, 1), &PIECES, 0, 4, (1, SEVENS, SEVENS)),
        ((0, 1), &[], 5, 4, (4, SEVENS, SEVENS)),
        ((0, 0), &[], 5, 5, (7, SEVENS, SEVENS)),
        ((65, 0), &[], 5, 5, (7, SEVENS, SEVENS)),
        ((2, 3), &PIECES, 5, 5, (7, SEVENS, SEVENS)),
        ((1, 0), &high, 5, 5, (8, SEVENS, SEVENS)),
        ((2, 2), &high, 5, 5, (21, zeros, zeros)),
    ];
    for (sizes, pieces, w, len, expected) in table {
        assert_eq!(rt; outcome(&element, sizes, pieces, w, len), expected);
    }
    Ok(())
}
