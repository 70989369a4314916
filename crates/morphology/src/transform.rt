// What makes a sheet of one or two others, whatever their level kind.
ghost use Rattle.std.specs.Prelude.{◌≡◌, ℕ, List, [], ◌∷◌, map, length, MatchResult};
ghost use Rattle.elements.specs.Elements.{offsets};
ghost use Rattle.limits.specs.Faults.{tells};
ghost use Rattle.morphology.specs.Cells.{combined};
ghost use Rattle.morphology.specs.Erosion.{operated};
ghost use Rattle.morphology.specs.Sheets.{lists_refusal};

use crate::erosion::operate;
use crate::extremum::Extremum;
use crate::operation::Operation;
use crate::runs::combine_run;
use crate::sheets::check_sheets;
use elements::Element;
use levels::level::Level;
use limits::Fault;

/// A transformation makes a sheet of two sheets of the same sides, and may report something of its own. Its meaning is the sheet
/// that it makes and what it reports, in heights and the same for every level kind. One that reads a single sheet does not
/// look at the other.
pub trait Transform {
    /// What it reports beside the sheet that it makes; nothing is `()`.
    type Report;

    // What it makes of two sheets of w × h heights, and what it reports of them.
    ghost makes: { Self → ℕ → ℕ → List ℕ → List ℕ → List ℕ };

    ghost report_of: { Self → ℕ → ℕ → List ℕ → List ℕ → Self.Report };

    /// Writes what it makes of two sheets of w × h levels to the list `to`. The list `spare` is for steps on the way; what it
    /// holds afterwards is free.
    /// Refuses a side that is not 1 to 1,024 (1), then a list that has not w × h levels (4), and then leaves both lists as they
    /// were.
    fn transform<L: Level>(
        &self,
        one: &[L],
        other: &[L],
        to: &mut [L],
        spare: &mut [L],
        w: usize,
        h: usize,
    ) -> Result<Self::Report, Fault>
        ensures answers { result ≡ tells
            (lists_refusal w h (length one.now ∷ length other.now ∷ length to.old ∷ length spare.old ∷ []))
            (report_of self.now w h (map L.height one.now) (map L.height other.now)) }
        ensures memory { MatchResult result
            (λ _. map L.height to.new ≡ makes self.now w h (map L.height one.now) (map L.height other.now))
            (λ _. (to.new ≡ to.old) × (spare.new ≡ spare.old)) };
}

/// The erosion or dilation of a sheet by an element.
#[derive(Clone, Copy)]
pub struct ByElement<'e> {
    pub op: Operation,
    pub element: &'e Element,
}

impl<'e> Transform for ByElement<'e> {
    type Report = ();

    ghost makes = { λ t w h f g. operated t.op w h (offsets t.element.now) f };

    ghost report_of = { λ t w h f g. tt };

    fn transform<L: Level>(
        &self,
        one: &[L],
        other: &[L],
        to: &mut [L],
        spare: &mut [L],
        w: usize,
        h: usize,
    ) -> Result<(), Fault> {
        check_sheets(w, h, &[one.len(), other.len(), to.len(), spare.len()])?;
        operate(self.op, one, to, w, h, self.element)
    }
}

/// The meet of two sheets, which keeps the lower of two levels at each cell, or their join, which keeps the higher.
#[derive(Clone, Copy)]
pub struct CellByCell {
    pub which: Extremum,
}

impl Transform for CellByCell {
    type Report = ();

    ghost makes = { λ t w h f g. combined t.which f g };

    ghost report_of = { λ t w h f g. tt };

    fn transform<L: Level>(
        &self,
        one: &[L],
        other: &[L],
        to: &mut [L],
        spare: &mut [L],
        w: usize,
        h: usize,
    ) -> Result<(), Fault> {
        check_sheets(w, h, &[one.len(), other.len(), to.len(), spare.len()])?;
        to.copy_from_slice(one);
        combine_run(self.which, other, to);
        Ok(())
    }
}
