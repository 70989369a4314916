// Offsets: a step of at most three columns and three rows from a cell.
ghost use Rattle.std.specs.Prelude.{◌≡◌, ◌<◌, pos, negsuc, ◌≤ℤ◌, MatchOption};
ghost use Rattle.elements.specs.Offsets.{Near, place_of};

/// A step of at most three columns and three rows; to the right and down count up.
#[derive(Clone, Copy)]
pub struct Offset {
    column: i8,
    row: i8,
    ghost left: { negsuc 2 ≤ℤ column },
    ghost right: { column ≤ℤ pos 3 },
    ghost above: { negsuc 2 ≤ℤ row },
    ghost below: { row ≤ℤ pos 3 },
}

impl Offset {
    /// The offset of this column and row; `None` where one of them lies outside −3 to 3.
    pub fn new(column: i8, row: i8) -> Option<Offset>
        ensures { MatchOption result
            (Near column × Near row → ⊥)
            (λ o. (o.column ≡ column) × (o.row ≡ row)) }
    {
        if !(-3..=3).contains(&column) || !(-3..=3).contains(&row) {
            return None;
        }
        Some(Offset { column, row })
    }

    // The place in the square of flags, in reading order.
    pub(crate) fn index(self) -> usize
        ensures within { result < 49 }
        ensures place { result ≡ place_of self.column self.row }
    {
        ((self.row + 3) * 7 + (self.column + 3)).cast_unsigned() as usize
    }
}
