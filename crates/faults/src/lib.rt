// The fault of a job, which carries the fault of the layer below whole.
#![tactic(auto)]

ghost use Rattle.std.specs.Prelude.{◌≡◌, Some};
ghost use Rattle.faults.specs.Faults.{fault_layer, fault_text, job_fault_number, job_fault_place};
ghost use Rattle.faults.specs.declared.JobFault.TheVariants.{Card, Picture, Bench, Line};

use commands::LineFault;
use elements::CardFault;
use limits::Fault;
use pictures::PictureFault;
use std::fmt;

/// Why a job refused: the fault of the card, of the picture, of the bench, or of a job line.
#[derive(Clone, Copy)]
pub enum JobFault {
    Card(CardFault),
    Picture(PictureFault),
    Bench(Fault),
    Line(LineFault),
}

// Each fault type has its own `number` and `place`, and no trait: nothing is generic over faults, and this is the one place that joins them.
impl JobFault {
    /// The letter of the layer: C card, P picture, B bench, J job.
    pub fn layer(self) -> &'static str
        ensures { result.now ≡ fault_layer self }
    {
        match self {
            JobFault::Card(_) => "C",
            JobFault::Picture(_) => "P",
            JobFault::Bench(_) => "B",
            JobFault::Line(_) => "J",
        }
    }

    /// The number of the refusal.
    pub fn number(self) -> u32
        ensures { result ≡ job_fault_number self }
    {
        match self {
            JobFault::Card(fault) => fault.number(),
            JobFault::Picture(fault) => fault.number(),
            JobFault::Bench(fault) => fault.number(),
            JobFault::Line(fault) => fault.number(),
        }
    }

    /// The byte of the card or the picture, or the column of the line; 0 for the bench.
    // 0 and no `Option`: the printed line has a number there, 0 for a fault of the bench.
    pub fn place(self) -> usize
        ensures { result ≡ job_fault_place self }
    {
        match self {
            JobFault::Card(fault) => fault.place(),
            JobFault::Picture(fault) => fault.place(),
            JobFault::Bench(_) => 0,
            JobFault::Line(fault) => fault.column,
        }
    }
}

/// Writes the layer, the number and the place, as in `C 12 0`.
impl fmt::Display for JobFault {
    ghost output = { λ fault. Some (fault_text fault) };

    fn fmt<W: fmt::Write>(&self, f: &mut fmt::Formatter<W>) -> fmt::Result {
        let layer = self.layer();
        let number = self.number();
        let place = self.place();
        write!(f, "{layer} {number} {place}")
    }
}

// Written out: a derived `From` has no `from_gives`, and the contracts of jobs tell which fault a `?` makes.
impl From<CardFault> for JobFault {
    ghost from_gives = { λ f j. j ≡ Card f };

    fn from(fault: CardFault) -> JobFault {
        JobFault::Card(fault)
    }
}

impl From<PictureFault> for JobFault {
    ghost from_gives = { λ f j. j ≡ Picture f };

    fn from(fault: PictureFault) -> JobFault {
        JobFault::Picture(fault)
    }
}

impl From<Fault> for JobFault {
    ghost from_gives = { λ f j. j ≡ Bench f };

    fn from(fault: Fault) -> JobFault {
        JobFault::Bench(fault)
    }
}

impl From<LineFault> for JobFault {
    ghost from_gives = { λ f j. j ≡ Line f };

    fn from(fault: LineFault) -> JobFault {
        JobFault::Line(fault)
    }
}
