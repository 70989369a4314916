// Two maps in turn, each so many times: openings and closings.
ghost use Rattle.std.specs.Prelude.{◌≡◌, ℕ, List, [], ◌∷◌, map, length, MatchResult};
ghost use Rattle.limits.specs.Faults.{tells};
ghost use Rattle.morphology.specs.Sheets.{lists_refusal};
ghost use Rattle.operators.specs.Maps.{times};

use crate::mapped::repeat;
use levels::level::Level;
use limits::Fault;
use morphology::{SheetMap, Transform, check_sheets};

/// So many times the first map, and then as many times the second. So the opening of a size takes that many times a map that shrinks
/// and then one that swells, and the closing one that swells and then one that shrinks.
#[derive(Drop)]
pub struct InTurn<M, N> {
    pub first: M,
    pub second: N,
    pub size: usize,
}

impl<M: SheetMap, N: SheetMap> Transform for InTurn<M, N> {
    type Report = ();

    ghost makes = { λ t w h f g. times t.size (N.maps t.second w h) (times t.size (M.maps t.first w h) f) };

    ghost report_of = { λ t w h f g. tt };

    fn transform<L: Level>(
        &self,
        one: &[L],
        other: &[L],
        to: &mut [L],
        spare: &mut [L],
        w: usize,
        h: usize,
    ) -> Result<(), Fault> {
        let sides = check_sheets(w, h, &[one.len(), other.len(), to.len(), spare.len()])?;
        to.copy_from_slice(one);
        repeat(&self.first, self.size, to, spare, sides);
        repeat(&self.second, self.size, to, spare, sides);
        Ok(())
    }
}
