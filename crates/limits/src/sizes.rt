// The limits on sides and places and the memory that they ask for, on sizes and on factors.
ghost use Rattle.std.specs.Prelude.{◌≡◌, ◌+◌, ◌*◌, OnOk};
ghost use Rattle.limits.specs.Faults.{told};
ghost use Rattle.limits.specs.Sizes.{factor_refusal, size_refusal, sizes_refusal};

use crate::fault::Fault;
use crate::sides::Sides;

// Plain numbers, here and in what opens a rack or a slate: callers may hand in any, and a type would ask more of them.
/// Whether memory of `len` cells serves that many places of w × h cells, with `working` working planes behind them.
/// Refuses a side that is not 1 to 1,024 (1), a number of places that is not 1 to 12 (2), and then a length that is not
/// (places + working) × w × h (3).
pub fn check_sizes(working: u8, w: usize, h: usize, places: usize, len: usize) -> Result<(), Fault>
    ensures answers { result ≡ told (sizes_refusal working w h places len) }
    ensures sizes { OnOk result (len ≡ (places + working) * (w * h)) }
{
    let sides = Sides::new(w, h)?;
    if !(1..=12).contains(&places) {
        return Err(Fault::Places);
    }
    if len != (places + usize::from(working)) * sides.cells() {
        return Err(Fault::Memory);
    }
    Ok(())
}

// The names of the two calls are the users', so each stands over `check_sizes`.
/// Whether memory of `len` levels serves a rack of that many places for sheets of w × h levels, with two working planes.
/// Refuses 1, 2 and 3, as `check_sizes` does; the length has to be (places + 2) × w × h.
pub fn check_rack(w: usize, h: usize, places: usize, len: usize) -> Result<(), Fault>
    ensures { result ≡ told (sizes_refusal 2 w h places len) }
{
    check_sizes(2, w, h, places, len)
}

/// Whether memory of `len` numbers serves a slate of that many places for tallies of w × h numbers.
/// Refuses 1, 2 and 3, as `check_sizes` does; the length has to be places × w × h.
pub fn check_slate(w: usize, h: usize, places: usize, len: usize) -> Result<(), Fault>
    ensures { result ≡ told (sizes_refusal 0 w h places len) }
{
    check_sizes(0, w, h, places, len)
}

/// Whether a number is the size of an opening or a closing, or a depth.
/// Refuses one that is not 1 to 64 (7).
pub fn check_size(size: usize) -> Result<(), Fault>
    ensures { result ≡ told (size_refusal size) }
{
    if !(1..=64).contains(&size) {
        return Err(Fault::SizeOrDepth);
    }
    Ok(())
}

/// Whether a number is the factor of a multiple.
/// Refuses one that is not −100 to 100 (9).
pub fn check_factor(factor: i32) -> Result<(), Fault>
    ensures { result ≡ told (factor_refusal factor) }
{
    if factor.unsigned_abs() > 100 {
        return Err(Fault::FactorOrHeight);
    }
    Ok(())
}
