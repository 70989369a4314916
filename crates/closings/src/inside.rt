// The erosion that skips the offsets that fall outside, as a map of sheets.
ghost use Rattle.std.specs.Prelude.{◌≡◌, [], ◌∷◌, map, length, MatchResult};
ghost use Rattle.elements.specs.Elements.{offsets};
ghost use Rattle.limits.specs.Faults.{told};
ghost use Rattle.morphology.specs.Sheets.{lists_refusal};
ghost use Rattle.operators.specs.Closings.{eroded_inside};

use crate::passes::sweep_inside;
use elements::Element;
use levels::level::Level;
use limits::Fault;
use morphology::{SheetMap, check_sheets};

/// The erosion of a sheet by an element that skips what falls outside: each cell becomes the least of the levels at those of the
/// element's offsets from it that stay on the sheet.
#[derive(Clone, Copy)]
pub struct ErosionInside<'e> {
    pub element: &'e Element,
}

impl<'e> SheetMap for ErosionInside<'e> {
    ghost maps = { λ t w h f. eroded_inside w h (offsets t.element.now) f };

    fn apply<L: Level>(&self, from: &[L], to: &mut [L], w: usize, h: usize) -> Result<(), Fault> {
        let sides = check_sheets(w, h, &[from.len(), to.len()])?;
        // The element has (0, 0), which never falls outside, so every cell may start from its own level.
        to.copy_from_slice(from);
        sweep_inside(from, to, sides, self.element);
        Ok(())
    }
}
