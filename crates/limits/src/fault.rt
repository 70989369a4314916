// The refusals of the library's calls on sheets, tallies and visits.
ghost use Rattle.std.specs.Prelude.{◌≡◌};
ghost use Rattle.limits.specs.Faults.{fault_number};

/// Why a call refused. The discriminant is the number of the refusal.
#[derive(Clone, Copy, PartialEq)]
pub enum Fault {
    /// A side is not 1 to 1,024.
    Side = 1,
    /// The number of places is not 1 to 12.
    Places = 2,
    /// The memory has not the length that sides and places ask for.
    Memory = 3,
    /// A list has not as many levels as a sheet has cells.
    Length = 4,
    /// No sheet place has this number.
    SheetPlace = 5,
    /// No tally place has this number.
    TallyPlace = 6,
    /// A size or a depth is outside its limits.
    SizeOrDepth = 7,
    /// The list of a spectrum or of a skeleton has not the length that depth and sides ask for.
    ListLength = 8,
    /// A factor is not −100 to 100, or a cut height not 1 to the kind's top.
    FactorOrHeight = 9,
    /// No built-in element has this number.
    BuiltIn = 10,
    /// A flat number is not 1 to 9,999.
    Flat = 11,
    /// A cell to be restored is above 65,536 before the last dilations.
    RestoreCell = 21,
    /// No visit is open on the rack, or on the slate where it is taken alone.
    NoVisit = 31,
    /// A visit is open on the rack or on the slate.
    VisitOpen = 32,
    /// The slip is of another flat than the open visit.
    OtherFlat = 33,
    /// The source place holds no sheet.
    EmptySheet = 34,
    /// The source place holds no tally.
    EmptyTally = 35,
    /// The weight of the tally to be made is above 1,000.
    Weight = 36,
    /// Rack and slate differ in their sides or in the flat of their visits.
    Unequal = 37,
}

impl Fault {
    /// The number of the refusal.
    pub fn number(self) -> u32
        ensures { result ≡ fault_number self }
    {
        self as u32
    }
}
