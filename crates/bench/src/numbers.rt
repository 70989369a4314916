// Work on the cells of tallies, in the memory that a slate was lent.
ghost use Rattle.std.specs.Prelude.{◌≡◌, ℕ, ◌+◌, ◌<◌, ◌≤◌, map, length, pos, slice_index_or, FitsSigned};
ghost use Rattle.std.specs.Int.{w32};
ghost use Rattle.bench.specs.Starts.{SourceOf};
ghost use Rattle.bench.specs.Model.{cells_from, overwritten};
ghost use Rattle.operators.specs.Tallies.{differed};
ghost use Rattle.weights.specs.Weights.{combined_cell, combined_cells};

use levels::level::Level;
use weights::Combination;

// Writes the heights of one list minus those of another.
pub(crate) fn write_difference<L: Level>(one: &[L], other: &[L], cells: &mut [i32])
    requires one { length one.now ≡ length cells.old }
    requires other { length other.now ≡ length cells.old }
    ensures { cells.new ≡ differed (map L.height one.now) (map L.height other.now) }
{
    // The levels by place: after a zip a proof knows no more of the cells than their length.
    for (k, cell) in cells.iter_mut().enumerate() {
        *cell = one[k].height() as i32 - other[k].height() as i32;
    }
}

// What is made of two cells.
fn combined(how: Combination, x: i32, y: i32) -> i32
    requires { FitsSigned w32 (combined_cell how x y) }
    ensures { result ≡ combined_cell how x y }
{
    match how {
        Combination::Sum => x + y,
        Combination::Multiple { factor } => factor * x,
    }
}

// Writes what is made of the cells from two starts to those from a third. Each source is the target or lies apart from it, so no
// cell is written before it is read.
pub(crate) fn combine_cells(
    how: Combination,
    memory: &mut [i32],
    one: usize,
    other: usize,
    to: usize,
    cells: usize,
)
    requires one { SourceOf one to cells (length memory.old) }
    requires other { SourceOf other to cells (length memory.old) }
    requires target { to + cells ≤ length memory.old }
    requires fits { (k : ℕ) → k < cells → FitsSigned w32
        (combined_cell how (slice_index_or memory.old (one + k) (pos 0)) (slice_index_or memory.old (other + k) (pos 0))) }
    ensures { memory.new ≡ overwritten to
        (combined_cells how (cells_from one cells memory.old) (cells_from other cells memory.old)) memory.old }
{
    for k in 0..cells {
        memory[to + k] = combined(how, memory[one + k], memory[other + k]);
    }
}
