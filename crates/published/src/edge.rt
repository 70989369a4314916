// A gray sheet, with its erosion by five cells and its edge.
use crate::sheet::{Row, show_rows};
use elements::Element;
use levels::Gray;
use limits::Sides;
use std::io;
use std::io::ErrorKind;

const SHEET: [u8; 49] = [
    0, 0, 1, 1, 0, 0, 0, //
    0, 1, 4, 2, 1, 1, 0, //
    0, 1, 4, 3, 2, 1, 0, //
    0, 4, 4, 3, 2, 1, 1, //
    0, 4, 3, 3, 2, 1, 1, //
    0, 3, 3, 2, 1, 1, 0, //
    0, 1, 1, 1, 0, 0, 0, //
];

// Prints the sheet, its erosion by a cell and its four side neighbours, and its edge, which is the sheet minus that erosion.
pub(crate) fn show_edge(rt: &HostRuntime) -> io::Result<()> {
    let sheet: Vec<Gray> = SHEET
        .iter()
        .map(|byte| Gray::new(*byte))
        .collect(rt.alloc())?;
    let sides = Sides::new(7, 7).map_err(|_| ErrorKind::InvalidInput)?;
    let five = Element::built_in(1).unwrap();
    let rows = [
        Row::Erosion("erosion by five cells", &five),
        Row::Edge(&five),
    ];
    show_rows(rt, "sheet", sheet.as_slice(), sides, &rows, &[])?;
    Ok(())
}
