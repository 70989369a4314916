// Work on the cells of places and working planes, in the memory that a rack or a slate was lent.
ghost use Rattle.std.specs.Prelude.{◌≡◌, ◌+◌, ◌*◌, ◌≤◌, map, length, None};
ghost use Rattle.bench.specs.Calls.{made_from};
ghost use Rattle.bench.specs.Model.{cells_from, overwritten};
ghost use Rattle.morphology.specs.Measuring.{numbers_refusal};

use levels::level::Level;
use limits::Sides;
use morphology::{Measurement, Transform};

// Writes cells from a start on.
pub(crate) fn store<L: Copy>(memory: &mut [L], start: usize, cells: &[L])
    requires { start + length cells.now ≤ length memory.old }
    ensures { memory.new ≡ overwritten start cells.now memory.old }
{
    memory[start..start + cells.len()].copy_from_slice(cells);
}

// So many cells from a start on: all places lie in the memory that was lent, since calls on sheets allocate nothing.
pub(crate) fn part<T>(memory: &[T], start: usize, cells: usize) -> &[T]
    requires { start + cells ≤ length memory.now }
    ensures { result.now ≡ cells_from start cells memory.now }
{
    &memory[start..start + cells]
}

// Writes what a transformation makes of the sheets from two starts to the first of two working planes, by way of the second, and
// tells what the transformation reports.
// No method: it is lent the places and the working planes at once.
pub(crate) fn make_plane<T: Transform, L: Level>(
    transform: &T,
    sheets: &[L],
    planes: &mut [L],
    sides: Sides,
    one: usize,
    other: usize,
) -> T::Report
    requires one { one + sides.w * sides.h ≤ length sheets.now }
    requires other { other + sides.w * sides.h ≤ length sheets.now }
    requires planes { length planes.old ≡ 2 * (sides.w * sides.h) }
    ensures made { cells_from 0 (sides.w * sides.h) (map L.height planes.new)
        ≡ made_from (T.makes transform.now) sides.w sides.h one other (map L.height sheets.now) }
    ensures reports { result ≡ made_from (T.report_of transform.now) sides.w sides.h one other (map L.height sheets.now) }
{
    let cells = sides.cells();
    let (plane, spare) = planes.split_at_mut(cells);
    transform
        .transform(
            part(sheets, one, cells),
            part(sheets, other, cells),
            plane,
            spare,
            sides.w,
            sides.h,
        )
        .unwrap()
}

// Writes the numbers that a measurement tells of the sheet from a start to a list, by way of two working planes.
pub(crate) fn measure_sheet<M: Measurement, L: Level>(
    measurement: &M,
    sheets: &[L],
    planes: &mut [L],
    sides: Sides,
    start: usize,
    list: &mut [M::Entry],
)
    requires sheet { start + sides.w * sides.h ≤ length sheets.now }
    requires planes { length planes.old ≡ 2 * (sides.w * sides.h) }
    requires numbers { numbers_refusal (M.depth_of measurement.now) (M.len_of measurement.now (sides.w * sides.h)) (length list.old) ≡ None }
    ensures { list.new ≡ M.numbers_of measurement.now sides.w sides.h (cells_from start (sides.w * sides.h) (map L.height sheets.now)) }
{
    let cells = sides.cells();
    let (plane, spare) = planes.split_at_mut(cells);
    measurement
        .measure(
            part(sheets, start, cells),
            plane,
            spare,
            sides.w,
            sides.h,
            list,
        )
        .unwrap();
}
