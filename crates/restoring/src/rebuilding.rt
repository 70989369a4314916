// What is rebuilt of the pieces of a skeleton, from the last one down.
ghost use Rattle.std.specs.Prelude.{◌≡◌, ◌+◌, ◌-◌, ◌*◌, ◌≤◌, ℕ, List, true, length, replicate, nat_lt, MatchResult};
ghost use Rattle.std.specs.List.{list_any};
ghost use Rattle.limits.specs.declared.fault.Fault.TheVariants.{RestoreCell};
ghost use Rattle.operators.specs.Restoring.{piece_of, plus, rebuilt};
ghost use Rattle.restoring.specs.Numbers.{heights_of};

use levels::{Level, Number};
use limits::{Fault, Sides};
use morphology::SheetMap;
use transforms::Swelling;

// Every number of a list becomes zero.
pub(crate) fn clear(list: &mut [Number])
    ensures { heights_of list.new ≡ replicate (length list.old) 0 }
{
    list.fill(Number::lowest());
}

// Piece n of a skeleton of sheets of so many cells.
fn piece(pieces: &[u32], n: usize, cells: usize) -> &[u32]
    requires { (n + 1) * cells ≤ length pieces.now }
    ensures { result.now ≡ piece_of cells pieces.now n }
{
    &pieces[n * cells..][..cells]
}

// Writes the sums of the heights of a sheet and of a piece to the list `sums`, cell by cell.
// Refuses a sum above 65,536 (21), and then leaves the list free.
fn add_piece(sheet: &[Number], piece: &[u32], sums: &mut [Number]) -> Result<(), Fault>
    requires sheet { length sheet.now ≡ length sums.old }
    requires piece { length piece.now ≡ length sums.old }
    ensures { MatchResult result
        (λ _. heights_of sums.new ≡ plus (heights_of sheet.now) piece.now)
        (λ fault. (fault ≡ RestoreCell) × (list_any (nat_lt 65536) (plus (heights_of sheet.now) piece.now) ≡ true)) }
{
    // The cells by place: after a zip a proof knows no more of the sums than their number.
    for (k, sum) in sums.iter_mut().enumerate() {
        let Some(number) = Number::new(sheet[k].height().saturating_add(piece[k])) else {
            return Err(Fault::RestoreCell);
        };
        *sum = number;
    }
    Ok(())
}

// Rebuilds a sheet in the list `sheet` from the last piece down to piece `size`; the list `spare` is for the sheets on the way.
// Refuses a cell above 65,536 (21), and then leaves both lists free. No step lowers a cell, so one that is too high on the way is too
// high at the end.
pub(crate) fn rebuild<M: SheetMap>(
    by: &Swelling<M>,
    depth: usize,
    size: usize,
    pieces: &[u32],
    sides: Sides,
    sheet: &mut [Number],
    spare: &mut [Number],
) -> Result<(), Fault>
    requires keeps { (f : List ℕ) → length f ≡ sides.w * sides.h →
        length (M.maps by.now.map sides.w sides.h f) ≡ sides.w * sides.h }
    requires depth { depth ≤ 64 }
    requires size { size ≤ depth }
    requires pieces { length pieces.now ≡ (depth + 1) * (sides.w * sides.h) }
    requires sheet { length sheet.old ≡ sides.w * sides.h }
    requires spare { length spare.old ≡ sides.w * sides.h }
    ensures { let made = rebuilt (M.maps by.now.map sides.w sides.h) (sides.w * sides.h) depth pieces.now (depth - size) in
        MatchResult result
        (λ _. heights_of sheet.new ≡ made)
        (λ fault. (fault ≡ RestoreCell) × (list_any (nat_lt 65536) made ≡ true)) }
{
    let cells = sides.cells();
    clear(spare);
    add_piece(spare, piece(pieces, depth, cells), sheet)?;
    for n in 0..depth - size {
        by.map.apply(sheet, spare, sides.w, sides.h).unwrap();
        add_piece(spare, piece(pieces, depth - n - 1, cells), sheet)?;
    }
    Ok(())
}
