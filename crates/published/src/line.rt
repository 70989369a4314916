// A gray line and its cuts, with what openings make of each.
use crate::sheet::{Row, show_rows};
use elements::{Element, read_card};
use levels::Gray;
use limits::Sides;
use std::io;
use std::io::ErrorKind;

const LINE: [u8; 15] = [0, 2, 1, 2, 3, 4, 0, 4, 4, 1, 2, 3, 2, 1, 0];

// The card of the offsets (0, 0), (1, 0) and (2, 0): their number, and of each column, row and next record.
const THREE_IN_A_ROW: [u8; 10] = [3, 0, 0, 2, 1, 0, 3, 2, 0, 0];

// Prints the line and its cuts, each with its opening by three in a row, its peak by them, which is the sheet minus that opening, and its
// histogram of sizes by pairs.
pub(crate) fn show_lines(rt: &HostRuntime) -> io::Result<()> {
    let heap = rt.alloc();
    let line: Vec<Gray> = LINE.iter().map(|byte| Gray::new(*byte)).collect(heap)?;
    let sides = Sides::new(15, 1).map_err(|_| ErrorKind::InvalidInput)?;
    let three = read_card(&THREE_IN_A_ROW).map_err(|_| ErrorKind::InvalidInput)?;
    let pair = Element::built_in(3).unwrap();
    let rows = [
        Row::Opening("opening by three in a row", &three),
        Row::Peak(&three),
        Row::Sizes(&pair),
    ];
    let heights = [4, 3, 2, 1];
    let cuts = show_rows(rt, "line", line.as_slice(), sides, &rows, &heights)?;
    for (height, mask) in heights.iter().zip(&cuts) {
        let title = format!(in heap; "cut at {height}")?;
        show_rows(rt, title.as_str(), mask.as_slice(), sides, &rows, &[])?;
    }
    Ok(())
}
