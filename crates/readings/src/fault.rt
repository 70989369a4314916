// Why readings are refused.
ghost use Rattle.std.specs.Prelude.{◌≡◌};
ghost use Rattle.readings.specs.Faults.{reading_fault_number, reading_fault_place};

/// Why readings or levels were refused, with the index of the reading at which that shows.
#[derive(Clone, Copy)]
pub enum ReadingFault {
    /// There are not as many readings as levels.
    Lengths,
    /// The degrees of the reading at this index equal no c ÷ 16 for a count c from −32,768 to 32,767.
    Unreadable(usize),
}

impl ReadingFault {
    /// The fault's number: 3 for `Lengths` and 18 for `Unreadable`.
    // By match: a variant carries an index, and only an enum of plain variants has a number by `as`.
    pub fn number(self) -> u32
        ensures { result ≡ reading_fault_number self }
    {
        match self {
            ReadingFault::Lengths => 3,
            ReadingFault::Unreadable(_) => 18,
        }
    }

    /// The index, from 0, of the reading at which the fault shows; 0 for `Lengths`.
    // 0 and no `Option`: every refusal with a place has a number there, as in the other readers.
    pub fn place(self) -> usize
        ensures { result ≡ reading_fault_place self }
    {
        match self {
            ReadingFault::Lengths => 0,
            ReadingFault::Unreadable(index) => index,
        }
    }
}
