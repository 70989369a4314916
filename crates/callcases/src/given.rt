// What a sequence gives its calls: an element, and a picture.
use crate::line::{Line, split_line};
use cases::Kind;
use elements::{Element, read_card};
use levels::level::Level;
use std::alloc::Global;
use std::io;
use std::io::ErrorKind;
use std::iter::once;

// The element to erode and dilate by, and the picture to load.
#[derive(Drop)]
pub(crate) struct Given<L> {
    pub(crate) element: Element,
    pub(crate) picture: Vec<L>,
}

impl<L: Level> Given<L> {
    // Reads what a text gives in its first lines, such as `element 0,0 1,0 -1,2` and behind it `picture 0 2 1 2 0 255`, and tells
    // the lines behind. Without such a line it is this element, and the kind's picture.
    pub(crate) fn read<'a, K: Kind<Level = L>>(
        heap: Global,
        kind: &K,
        element: &Element,
        text: &'a str,
    ) -> io::Result<(Given<L>, &'a str)> {
        let (element, text) = match split_line(text) {
            (line, rest) if line.starts_with("element ") => (read_element(heap, line)?, rest),
            _ => (*element, text),
        };
        let (picture, text) = match split_line(text) {
            (line, rest) if line.starts_with("picture ") => {
                let heights = Line::read(heap, line)?.numbers;
                (kind.levels(heap, heights.as_slice())?, rest)
            }
            _ => (kind.levels(heap, &K::PICTURE)?, text),
        };
        Ok((Given { element, picture }, text))
    }
}

// Reads the element of a line such as `element 0,0 1,0 -1,2`, by way of the card of its offsets.
fn read_element(heap: Global, line: &str) -> io::Result<Element> {
    let offsets = line
        .split(' ')
        .skip(1)
        .map(read_offset)
        .try_collect::<Vec<(i8, i8)>>(heap)?;
    let records = u8::try_from(offsets.len()).map_err(|_| ErrorKind::InvalidInput)?;
    let mut card = vec![in heap; records; 1]?;
    // Each record goes on with the one behind it, and the last with none.
    let nexts = (2..=records).chain(once(0));
    for ((column, row), next) in offsets.into_iter().zip(nexts) {
        card.extend_from_slice(&[column.cast_unsigned(), row.cast_unsigned(), next])?;
    }
    Ok(read_card(card.as_slice()).map_err(|_| ErrorKind::InvalidInput)?)
}

// Reads the column and the row of an offset such as `-1,2`.
fn read_offset(offset: &str) -> io::Result<(i8, i8)> {
    let (column, row) = offset.split_once(',').ok_or(ErrorKind::InvalidInput)?;
    let column = column.parse::<i8>().map_err(|_| ErrorKind::InvalidInput)?;
    let row = row.parse::<i8>().map_err(|_| ErrorKind::InvalidInput)?;
    Ok((column, row))
}
