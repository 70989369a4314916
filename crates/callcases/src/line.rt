// Lines of the input: a word, and numbers behind it.
use in_use::Sizes;
use std::alloc::Global;
use std::io;
use std::io::ErrorKind;

// A line, taken apart. The first number of a line `scale` is its factor, which may have a minus, and stands apart; the factor of any
// other line is 0.
#[derive(Drop)]
pub(crate) struct Line<'a> {
    pub(crate) word: &'a str,
    pub(crate) factor: i32,
    pub(crate) numbers: Vec<usize>,
}

impl<'a> Line<'a> {
    // Reads a line such as `erode 1 2` or `scale -1 1 2`.
    pub(crate) fn read(heap: Global, line: &'a str) -> io::Result<Line<'a>> {
        let mut words = line.split(' ');
        let word = words.next().unwrap_or("");
        let factor = match word {
            "scale" => read_factor(words.next().unwrap_or(""))?,
            _ => 0,
        };
        let numbers = words
            .map(|number| -> io::Result<usize> {
                Ok(
                    number
                        .parse::<usize>()
                        .map_err(|_| ErrorKind::InvalidInput)?,
                )
            })
            .try_collect(heap)?;
        Ok(Line {
            word,
            factor,
            numbers,
        })
    }

    // The sizes that a line such as `rack 5 1 4 30` tells, and the length of the memory.
    pub(crate) fn sizes(&self, of: &str) -> io::Result<(Sizes, usize)> {
        match self.numbers.as_slice() {
            [w, h, places, len] if self.word == of => {
                let sizes = Sizes {
                    w: *w,
                    h: *h,
                    places: *places,
                };
                Ok((sizes, *len))
            }
            _ => Err(ErrorKind::InvalidInput.into()),
        }
    }
}

// Reads the factor of a line `scale`.
fn read_factor(word: &str) -> io::Result<i32> {
    Ok(word.parse::<i32>().map_err(|_| ErrorKind::InvalidInput)?)
}

// The first line of a text, and the lines behind it.
pub(crate) fn split_line(text: &str) -> (&str, &str) {
    text.split_once('\n').unwrap_or((text, ""))
}
