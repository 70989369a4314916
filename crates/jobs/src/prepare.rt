// What a job works with: its element and its picture.
ghost use Rattle.std.specs.Prelude.{◌≡◌, ◌≤◌, map, length, IfOk, Ok, Err, MatchResult};
ghost use Rattle.jobs.specs.Runs.{prepared};
ghost use Rattle.levels.specs.Gray.{gray_height};

use elements::{Element, read_card};
use faults::JobFault;
use levels::Gray;
use limits::{Fault, Sides};
use pictures::read_picture;
use std::alloc::{AllocError, Global};

// The element of a job, the sides of its picture, and the place of the picture's first cell in the file.
#[derive(Clone, Copy)]
pub(crate) struct Prepared {
    pub(crate) element: Element,
    pub(crate) sides: Sides,
    pub(crate) start: usize,
}

// The element of a card and the picture of a file, or the first fault: the card's, the picture's, then a side above 96.
pub(crate) fn prepare(card: &[u8], file: &[u8]) -> Result<Prepared, JobFault>
    ensures answers { MatchResult result
        (λ x. prepared card.now file.now ≡ Ok (x.element, record { width = x.sides.w; height = x.sides.h; start = x.start }))
        (λ fault. prepared card.now file.now ≡ Err fault) }
    ensures within { IfOk result (λ x. x.start ≤ length file.now) }
{
    let element = read_card(card)?;
    let picture = read_picture(file)?;
    let sides = Sides::new(picture.width, picture.height)?;
    if sides.w > 96 || sides.h > 96 {
        return Err(Fault::Side.into());
    }
    Ok(Prepared {
        element,
        sides,
        start: picture.start,
    })
}

// The gray levels of bytes.
pub(crate) fn gray_levels(heap: Global, bytes: &[u8]) -> Result<Vec<Gray>, AllocError>
    ensures { IfOk result (λ v. map gray_height v.items ≡ bytes.now) }
{
    bytes.iter().map(|byte| Gray::new(*byte)).collect(heap)
}
