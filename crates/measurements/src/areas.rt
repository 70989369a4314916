// Areas of what two maps in turn make of a sheet, by size.
ghost use Rattle.std.specs.Prelude.{◌≡◌, ◌+◌, ◌*◌, ◌≤◌, ℕ, List, [], ◌∷◌, map, length, MatchResult};
ghost use Rattle.limits.specs.Faults.{tells, told};
ghost use Rattle.measurements.specs.Areas.{areas};
ghost use Rattle.morphology.specs.Measuring.{measure_refusal, numbers_refusal};
ghost use Rattle.morphology.specs.Sheets.{area, lists_refusal};
ghost use Rattle.operators.specs.Maps.{times};

use levels::level::Level;
use limits::{Fault, Sides, check_size};
use morphology::{Measurement, SheetMap, check_sheets};
use transforms::apply_times;

/// The areas of what two maps in turn make of a sheet, each as many times, for each number of times from 0 to the depth. So those of
/// the openings, or of the closings, of each size, from that of the sheet itself on.
#[derive(Clone, Copy)]
pub struct Areas<M, N> {
    pub first: M,
    pub second: N,
    pub depth: usize,
}

// The sum of the heights of so many levels.
fn sum_of_heights<L: Level>(sheet: &[L]) -> u64
    requires { length sheet.now ≤ 1048576 }
    ensures { result ≡ area (map L.height sheet.now) }
{
    sheet.iter().map(|level| u64::from(level.height())).sum()
}

/// The area of a sheet of w × h levels: the sum of its heights.
/// Refuses a side that is not 1 to 1,024 (1), then a list that has not w × h levels (4).
pub fn area_of<L: Level>(sheet: &[L], w: usize, h: usize) -> Result<u64, Fault>
    ensures { result ≡ tells (lists_refusal w h (length sheet.now ∷ [])) (area (map L.height sheet.now)) }
{
    check_sheets(w, h, &[sheet.len()])?;
    Ok(sum_of_heights(sheet))
}

impl<M: SheetMap, N: SheetMap> Measurement for Areas<M, N> {
    type Entry = u64;

    ghost depth_of = { λ t. t.depth };

    ghost len_of = { λ t cells. t.depth + 1 };

    ghost numbers_of = { λ t w h f. areas (M.maps t.first w h) (N.maps t.second w h) t.depth f };

    fn check(&self, _: Sides, len: usize) -> Result<(), Fault> {
        check_size(self.depth)?;
        if len != self.depth + 1 {
            return Err(Fault::ListLength);
        }
        Ok(())
    }

    fn measure<L: Level>(
        &self,
        sheet: &[L],
        plane: &mut [L],
        spare: &mut [L],
        w: usize,
        h: usize,
        list: &mut [u64],
    ) -> Result<(), Fault> {
        let sides = check_sheets(w, h, &[sheet.len(), plane.len(), spare.len()])?;
        self.check(sides, list.len())?;
        for (size, number) in list.iter_mut().enumerate() {
            plane.copy_from_slice(sheet);
            apply_times(&self.first, size, plane, spare, w, h)?;
            apply_times(&self.second, size, plane, spare, w, h)?;
            *number = area_of(plane, w, h)?;
        }
        Ok(())
    }
}
