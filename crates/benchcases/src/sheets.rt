// Erosion and dilation as calls on lists of levels.
use cases::{Answer, Heights, first_levels};
use elements::Element;
use levels::level::Level;
use limits::Fault;
use morphology::{dilate, erode};
use std::io;

// Prints the answer of a call that writes a list of five levels that were highest, and the heights that it left.
fn show_written<L: Level, F: FnOnce(&mut [L]) -> Result<(), Fault>>(
    rt: &HostRuntime,
    write: F,
) -> io::Result<()>
    requires { F.IsAlwaysCallable write }
{
    let mut to = vec![in rt.alloc(); L::highest(); 5]?;
    let answer = Answer::from(write(to.as_mut_slice()));
    let heights = Heights(to.as_slice());
    println!(rt; "{answer}{heights}")
}

// The lengths of the sheet and its sides: first those that make a sheet, then each refusal.
// A row of named fields takes five lines, and the loop names them.
const SHEETS: [(usize, usize, usize); 16] = [
    (5, 5, 1),
    (5, 1, 5),
    (5, 0, 5),
    (5, 5, 0),
    (5, 1025, 1),
    (5, 1, 1025),
    (5, usize::MAX, usize::MAX),
    (0, 0, 1),
    (5, 5, 2),
    (5, 2, 2),
    (5, 4, 1),
    (5, 6, 1),
    (4, 5, 1),
    (6, 5, 1),
    (4, 4, 1),
    (6, 6, 1),
];

// Prints the erosions and the dilations of the first levels of a picture by an element.
pub(crate) fn operate_all<L: Level>(
    rt: &HostRuntime,
    picture: &[L],
    element: &Element,
) -> io::Result<()> {
    for (len, w, h) in SHEETS {
        let sheet = first_levels(picture, len);
        show_written(rt, |to: &mut [L]| erode(sheet, to, w, h, element))?;
        show_written(rt, |to: &mut [L]| dilate(sheet, to, w, h, element))?;
    }
    Ok(())
}
