// Restoring a sheet from a skeleton, on lists.
ghost use Rattle.std.specs.Prelude.{◌≡◌, ◌*◌, ℕ, List, None, Some, length, MatchResult};
ghost use Rattle.elements.specs.Elements.{offsets};
ghost use Rattle.limits.specs.Faults.{told};
ghost use Rattle.morphology.specs.Erosion.{dilated};
ghost use Rattle.operators.specs.Restoring.{answer_list, restore_refusal, work_list};
ghost use Rattle.restoring.specs.Lengths.{lengths_refusal};
ghost use Rattle.restoring.specs.Numbers.{heights_of};

use crate::rebuilding::{clear, rebuild};
use elements::Element;
use levels::Number;
use limits::{Fault, Sides, check_size};
use morphology::{SheetMap, check_sheets};
use transforms::{Swelling, apply_times};

// The sides of the sheets.
// Refuses 1, 4, 7 and 8, as `restore` does.
fn check(
    depth: usize,
    size: usize,
    pieces_len: usize,
    w: usize,
    h: usize,
    answer_len: usize,
    work_len: usize,
) -> Result<Sides, Fault>
    ensures { MatchResult result
        (λ sides. (sides.w ≡ w) × (sides.h ≡ h) × (lengths_refusal w h depth size pieces_len answer_len work_len ≡ None))
        (λ fault. lengths_refusal w h depth size pieces_len answer_len work_len ≡ Some fault) }
{
    let sides = check_sheets(w, h, &[answer_len, work_len])?;
    check_size(depth)?;
    if size > depth {
        return Err(Fault::SizeOrDepth);
    }
    if pieces_len != (depth + 1) * sides.cells() {
        return Err(Fault::ListLength);
    }
    Ok(sides)
}

// Restoring by any map that swells.
fn restore_by<M: SheetMap>(
    by: &Swelling<M>,
    depth: usize,
    size: usize,
    pieces: &[u32],
    w: usize,
    h: usize,
    answer: &mut [Number],
    work: &mut [Number],
) -> Result<(), Fault>
    requires keeps { (f : List ℕ) → length f ≡ w * h → length (M.maps by.now.map w h f) ≡ w * h }
    ensures answers { result
        ≡ told (restore_refusal (M.maps by.now.map w h) w h depth size pieces.now (length answer.old) (length work.old)) }
    ensures answer { heights_of answer.new
        ≡ answer_list (M.maps by.now.map w h) w h depth size pieces.now (heights_of answer.old) (heights_of work.old) }
    ensures work { heights_of work.new
        ≡ work_list (M.maps by.now.map w h) w h depth size pieces.now (heights_of answer.old) (heights_of work.old) }
{
    let sides = check(depth, size, pieces.len(), w, h, answer.len(), work.len())?;
    if let Err(fault) = rebuild(by, depth, size, pieces, sides, answer, work) {
        clear(answer);
        clear(work);
        return Err(fault);
    }
    apply_times(&by.map, size, answer, work, w, h)?;
    clear(work);
    Ok(())
}

/// Restores a sheet of w × h cells from a skeleton to a depth, by the dilation by an element: from the last piece down to piece `size` each
/// sheet is dilated and the piece before added, and what comes of it is dilated `size` times. Of a skeleton that the call `skeleton`
/// wrote it gives the opening of that size. The answer list gets the restored sheet; the work list is for the sheets on the way, and is
/// all zero afterwards.
/// Refuses a side that is not 1 to 1,024 (1), an answer or work list that has not w × h numbers (4), a depth that is not 1 to 64 or a size
/// above it (7), a skeleton list that has not (depth + 1) × w × h numbers (8), and a cell that is above 65,536 before the last
/// dilations (21). The last leaves both lists all zero; every other refusal leaves both as they were.
pub fn restore(
    element: &Element,
    depth: usize,
    size: usize,
    pieces: &[u32],
    w: usize,
    h: usize,
    answer: &mut [Number],
    work: &mut [Number],
) -> Result<(), Fault>
    ensures answers { result ≡ told (restore_refusal (dilated w h (offsets element.now)) w h depth size pieces.now
        (length answer.old) (length work.old)) }
    ensures answer { heights_of answer.new ≡ answer_list (dilated w h (offsets element.now)) w h depth size pieces.now
        (heights_of answer.old) (heights_of work.old) }
    ensures work { heights_of work.new ≡ work_list (dilated w h (offsets element.now)) w h depth size pieces.now
        (heights_of answer.old) (heights_of work.old) }
{
    let by = Swelling::by_element(element);
    restore_by(&by, depth, size, pieces, w, h, answer, work)
}
