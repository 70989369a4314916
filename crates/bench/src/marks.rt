// The marks of a rack or a slate: its sides and places, what each place is filled with, and the open visit.
ghost use Rattle.std.specs.Prelude.{◌≡◌, ◌*◌, ◌≤◌, min, true, ◌||◌, length, drop, is_some};
ghost use Rattle.bench.specs.Flags.{none};

use crate::visit::Visit;

/// Sides, number of places, the open visit or none, and for each filled place what is kept of it beside its
/// cells: nothing of a sheet, its weight of a tally. With no visit open every place is empty. Past the last place nothing is kept.
// Wrong sizes are sides 0 and no places, and no `Option`: a rack must open with any sizes, and each call would take it apart.
// Twelve entries with the number of places beside them: fixed memory, since firmware lends no other.
#[derive(Drop)]
pub struct Marks<T> {
    pub(crate) w: usize,
    pub(crate) h: usize,
    pub(crate) places: usize,
    pub(crate) visit: Option<Visit>,
    pub(crate) filled: [Option<T>; 12],
    ghost twelve: { length filled ≡ 12 },
    ghost some_column: { min 1 places ≤ w },
    ghost some_row: { min 1 places ≤ h },
    ghost wide: { w ≤ min 1 places * 1024 },
    ghost high: { h ≤ min 1 places * 1024 },
    ghost few: { places ≤ 12 },
    ghost forgotten: { (is_some visit || none filled) ≡ true },
    ghost unused: { none (drop places filled) ≡ true },
}
