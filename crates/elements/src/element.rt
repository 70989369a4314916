// Structuring elements.
mod built_in;
mod members;

ghost use Rattle.std.specs.Prelude.{◌≡◌, ◌≤◌, true, false, length, slice_index_or};
ghost use Rattle.elements.specs.Offsets.{count};

/// A set of 2 to 49 offsets with (0, 0) among them, kept as a 7 × 7 square of flags
/// in reading order, so that the same offsets are the same value.
// 49 flags and no list: an element allocates nothing.
#[derive(Clone, Copy)]
pub struct Element {
    flags: [bool; 49],
    ghost square: { length flags ≡ 49 },
    ghost centre: { slice_index_or flags 24 false ≡ true },
    ghost several: { 2 ≤ count flags },
}

// How many flags are set.
pub(crate) fn count_set(flags: &[bool; 49]) -> u8
    ensures { result ≡ count flags.now }
{
    flags.iter().filter(|flag| **flag).count() as u8
}

impl Element {
    /// Whether the element has the offset at this place of the square; past the square it has none.
    pub fn holds(&self, index: usize) -> bool
        ensures { result ≡ slice_index_or self.now.flags index false }
    {
        self.flags.get(index).is_some_and(|flag| *flag)
    }

    // The element of these flags, where (0, 0) and one more offset are among them.
    pub(crate) fn from_flags(flags: [bool; 49]) -> Element
        requires { (slice_index_or flags 24 false ≡ true) × (2 ≤ count flags) }
        ensures { result.flags ≡ flags }
    {
        Element { flags }
    }
}
