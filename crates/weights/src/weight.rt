// The weight of a tally.
ghost use Rattle.std.specs.Prelude.{◌≡◌, ◌≤◌};

/// The weight of a tally, 0 to 1,000: no cell exceeds weight × 65,536 in size.
#[derive(Clone, Copy)]
pub struct Weight {
    pub(crate) number: u16,
    ghost lawful: { number ≤ 1000 },
}

impl Weight {
    ghost use Rattle.std.specs.Prelude.{List, ℤ};
    ghost use Rattle.weights.specs.Weights.{difference, weighed};

    /// The weight of a difference of two sheets.
    pub fn of_difference() -> Weight
        ensures { (cells : List ℤ) → weighed result cells ≡ difference cells }
    {
        Weight { number: 1 }
    }

    /// The weight as a number.
    pub fn number(self) -> u16
        ensures value { result ≡ self.number }
        ensures bound { result ≤ 1000 }
    {
        self.number
    }
}
