// How racks and slates are opened.
ghost use Rattle.std.specs.Prelude.{◌≡◌, ◌+◌, ◌*◌, ◌≤◌, length, replicate, None};
ghost use Rattle.bench.specs.Calls.{as_opened};
ghost use Rattle.bench.specs.Model.{rack_state, slate_state};
ghost use Rattle.limits.specs.Faults.{unless};
ghost use Rattle.limits.specs.Sizes.{sizes_refusal};

use crate::marks::Marks;
use crate::rack::Rack;
use crate::slate::Slate;
use levels::level::Level;
use limits::check_sizes;

// The marks of a rack or a slate as it opens: with sides 0 and no places where the sizes are wrong.
fn opened_marks<T: Copy>(working: u8, w: usize, h: usize, places: usize, len: usize) -> Marks<T>
    ensures w { result.w ≡ unless (sizes_refusal working w h places len) w 0 }
    ensures h { result.h ≡ unless (sizes_refusal working w h places len) h 0 }
    ensures places { result.places ≡ unless (sizes_refusal working w h places len) places 0 }
    ensures visit { result.visit ≡ None }
    ensures filled { result.filled ≡ replicate 12 None }
    ensures sized { 1 ≤ result.places → len ≡ (result.places + working) * (result.w * result.h) }
{
    let (w, h, places) = match check_sizes(working, w, h, places, len) {
        Ok(()) => (w, h, places),
        Err(_) => (0, 0, 0),
    };
    Marks {
        w,
        h,
        places,
        visit: None,
        filled: [None; 12],
    }
}

// Racks and slates keep an `open`, `clear`, `sizes` and reading call each, over the same marks: one lends levels and the other numbers
// and a weight, and a type over both would have more parameters than these calls have lines.
impl<'a, L: Level> Rack<'a, L> {
    /// Opens a rack: every place is empty, no visit is open and the memory is as it was.
    /// Wrong sizes, which `check_rack` refuses, open it with sides 0 and no places.
    pub fn open(memory: &'a mut [L], w: usize, h: usize, places: usize) -> Rack<'a, L>
        ensures state { rack_state L.height result ≡ as_opened 2 w h places (length memory.old) }
        ensures memory { result.memory.now ≡ memory.old }
        ensures lent { result.memory.ghost_name ≡ memory.entry.ghost_name }
    {
        let marks = opened_marks(2, w, h, places, memory.len());
        Rack { memory, marks }
    }
}

impl<'a> Slate<'a> {
    /// Opens a slate: every place is empty, no visit is open and the memory is as it was.
    /// Wrong sizes, which `check_slate` refuses, open it with sides 0 and no places.
    pub fn open(memory: &'a mut [i32], w: usize, h: usize, places: usize) -> Slate<'a>
        ensures state { slate_state result ≡ as_opened 0 w h places (length memory.old) }
        ensures memory { result.memory.now ≡ memory.old }
        ensures lent { result.memory.ghost_name ≡ memory.entry.ghost_name }
    {
        let marks = opened_marks(0, w, h, places, memory.len());
        Slate { memory, marks }
    }
}
