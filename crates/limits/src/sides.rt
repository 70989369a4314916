// The sides of sheets and tallies.
ghost use Rattle.std.specs.Prelude.{◌≡◌, ◌*◌, ◌≤◌, false, ◌&&◌, MatchResult};
ghost use Rattle.limits.specs.Sizes.{lawful_side};
ghost use Rattle.limits.specs.declared.fault.Fault.TheVariants.{Side};

use crate::fault::Fault;

/// The width and the height of a sheet or a tally, each 1 to 1,024.
#[derive(Clone, Copy, PartialEq)]
pub struct Sides {
    pub w: usize,
    pub h: usize,
    ghost some_column: { 1 ≤ w },
    ghost some_row: { 1 ≤ h },
    ghost wide: { w ≤ 1024 },
    ghost high: { h ≤ 1024 },
}

impl Sides {
    /// The sides of this width and height.
    /// Refuses a side that is not 1 to 1,024 (1).
    pub fn new(w: usize, h: usize) -> Result<Sides, Fault>
        ensures { MatchResult result
            (λ sides. (sides.w ≡ w) × (sides.h ≡ h))
            (λ fault. (fault ≡ Side) × ((lawful_side w && lawful_side h) ≡ false)) }
    {
        if !(1..=1024).contains(&w) || !(1..=1024).contains(&h) {
            return Err(Fault::Side);
        }
        Ok(Sides { w, h })
    }

    /// How many cells a sheet or a tally of these sides has.
    pub fn cells(self) -> usize
        ensures { result ≡ self.w * self.h }
    {
        self.w * self.h
    }
}
