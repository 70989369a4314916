// Skeletons.
ghost use Rattle.std.specs.Prelude.{◌≡◌, ◌+◌, ◌*◌, ◌≤◌, ℕ, List, [], ◌∷◌, ◌++◌, map, length, take, drop, MatchResult};
ghost use Rattle.limits.specs.Faults.{told};
ghost use Rattle.morphology.specs.Measuring.{measure_refusal, numbers_refusal};
ghost use Rattle.operators.specs.Maps.{times};
ghost use Rattle.operators.specs.Openings.{opening};
ghost use Rattle.operators.specs.Skeletons.{minus, skeleton, skeleton_piece};

use levels::level::Level;
use limits::{Fault, Sides, check_size};
use morphology::{Measurement, SheetMap, check_sheets};

/// The skeleton of a sheet by a map that shrinks and one that swells, to a depth.
#[derive(Clone, Copy)]
pub struct Skeleton<M, N> {
    pub shrink: M,
    pub swell: N,
    pub depth: usize,
}

// Writes the heights of a sheet.
fn write_heights<L: Level>(sheet: &[L], piece: &mut [u32])
    requires { length sheet.now ≡ length piece.old }
    ensures { piece.new ≡ map L.height sheet.now }
{
    // The levels by place, here and below: after a zip a proof knows no more of the piece than its length.
    for (k, number) in piece.iter_mut().enumerate() {
        *number = sheet[k].height();
    }
}

// Takes the heights of a sheet from the numbers of a piece.
fn subtract_heights<L: Level>(sheet: &[L], piece: &mut [u32])
    requires { length sheet.now ≡ length piece.old }
    ensures { piece.new ≡ minus piece.old (map L.height sheet.now) }
{
    for (k, number) in piece.iter_mut().enumerate() {
        *number = number.saturating_sub(sheet[k].height());
    }
}

// Writes a piece of a skeleton, below the depth: the numbers become the heights of the sheet in `plane` minus those of its opening of
// size 1. The sheet is then the shrunken one.
fn write_piece<M: SheetMap, N: SheetMap, L: Level>(
    of: &Skeleton<M, N>,
    plane: &mut [L],
    spare: &mut [L],
    sides: Sides,
    piece: &mut [u32],
)
    requires plane { length plane.old ≡ sides.w * sides.h }
    requires spare { length spare.old ≡ sides.w * sides.h }
    requires piece { length piece.old ≡ sides.w * sides.h }
    ensures piece { let shrink = M.maps of.now.shrink sides.w sides.h in
        let swell = N.maps of.now.swell sides.w sides.h in
        piece.new ≡ minus (map L.height plane.old) (swell (shrink (map L.height plane.old))) }
    ensures plane { map L.height plane.new ≡ M.maps of.now.shrink sides.w sides.h (map L.height plane.old) }
{
    write_heights(plane, piece);
    of.shrink.apply(plane, spare, sides.w, sides.h).unwrap();
    of.swell.apply(spare, plane, sides.w, sides.h).unwrap();
    subtract_heights(plane, piece);
    plane.copy_from_slice(spare);
}

impl<M: SheetMap, N: SheetMap> Measurement for Skeleton<M, N> {
    type Entry = u32;

    ghost depth_of = { λ t. t.depth };

    ghost len_of = { λ t cells. (t.depth + 1) * cells };

    ghost numbers_of = { λ t w h f. skeleton (M.maps t.shrink w h) (N.maps t.swell w h) t.depth f };

    fn check(&self, sides: Sides, len: usize) -> Result<(), Fault> {
        check_size(self.depth)?;
        if len != (self.depth + 1) * sides.cells() {
            return Err(Fault::ListLength);
        }
        Ok(())
    }

    fn measure<L: Level>(
        &self,
        sheet: &[L],
        plane: &mut [L],
        spare: &mut [L],
        w: usize,
        h: usize,
        list: &mut [u32],
    ) -> Result<(), Fault> {
        let sides = check_sheets(w, h, &[sheet.len(), plane.len(), spare.len()])?;
        self.check(sides, list.len())?;
        let cells = sides.cells();
        plane.copy_from_slice(sheet);
        for n in 0..self.depth {
            let start = n * cells;
            write_piece(self, plane, spare, sides, &mut list[start..start + cells]);
        }
        write_heights(plane, &mut list[self.depth * cells..]);
        Ok(())
    }
}
