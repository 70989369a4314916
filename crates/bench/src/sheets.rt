// What the calls on sheets stand on: the sizes of a rack, the sheet in a place, how a place is filled with a sheet that is made, and how
// numbers are told of a sheet.
ghost use Rattle.std.specs.Prelude.{◌≡◌, ◌*◌, ◌≤◌, true, map, length, is_some, Some, None, MatchResult};
ghost use Rattle.bench.specs.Calls.{MakesInPlane, MakesSheet, MeasuresSheet, SameMemory, sheet_refusal, stored};
ghost use Rattle.bench.specs.Model.{is_place, overwritten, place_start, places_of, plane_of, rack_outline, rack_state};

use crate::planes::{make_plane, measure_sheet, part, store};
use crate::rack::Rack;
use levels::level::Level;
use limits::{Fault, Sides};
use morphology::{Measurement, Transform};

impl<L: Level> Rack<'_, L> {
    /// The width and height of the rack's sheets and the number of its places; all 0 where it was opened with wrong sizes.
    pub fn sizes(&self) -> (usize, usize, usize)
        ensures value { result ≡ ((rack_outline self.now).w, (rack_outline self.now).h, (rack_outline self.now).places) }
        ensures bound { (result.0 ≤ 1024) × (result.1 ≤ 1024) }
    {
        (self.marks.w, self.marks.h, self.marks.places)
    }

    /// The levels of the sheet in a place.
    /// Refuses a place that the rack has not (5), no visit open (31), and a place that is empty (34).
    pub fn sheet(&self, place: usize) -> Result<&[L], Fault>
        ensures answers { MatchResult result
            (λ sheet. (sheet_refusal (rack_outline self.now) place ≡ None)
            × ((rack_state L.height self.now).content place ≡ Some (map L.height sheet.now)))
            (λ fault. sheet_refusal (rack_outline self.now) place ≡ Some fault) }
        ensures sides { MatchResult result
            (λ sheet. (length sheet.now ≡ (rack_outline self.now).w * (rack_outline self.now).h)
            × (1 ≤ (rack_outline self.now).w) × (1 ≤ length sheet.now) × (length sheet.now ≤ 1048576))
            (λ _. Unit {0}) }
    {
        self.marks
            .source(place, Fault::SheetPlace, Fault::EmptySheet)?;
        let cells = self.marks.cells();
        Ok(part(self.memory, (place - 1) * cells, cells))
    }

    /// The first working plane: w × h levels, where `make_in_plane` leaves the sheet that it makes; no levels where the rack was
    /// opened with wrong sizes.
    pub fn plane(&self) -> &[L]
        ensures value { result.now ≡ plane_of self.now.marks self.now.memory.now }
        ensures sides { length result.now ≡ (rack_outline self.now).w * (rack_outline self.now).h }
    {
        let cells = self.marks.cells();
        part(self.memory, self.marks.places * cells, cells)
    }

    /// Makes in the first working plane what a transformation makes of the sheets in the places `one` and `other`, and tells what
    /// the transformation reports. The two may be the same, and no place changes.
    /// Refuses a place that the rack has not (5), no visit open (31), and a place that is empty (34); a refusal changes nothing.
    /// The second working plane is left as it may be.
    pub fn make_in_plane<T: Transform>(
        &mut self,
        transform: &T,
        one: usize,
        other: usize,
    ) -> Result<T::Report, Fault>
        ensures { MakesInPlane L.height (T.makes transform.now) (T.report_of transform.now) self.old self.new one other result }
    {
        let marks = &self.marks;
        marks.refuse_sources(one, other)?;
        let cells = marks.cells();
        let sides = Sides {
            w: marks.w,
            h: marks.h,
        };
        let front = marks.places * cells;
        let memory = &mut *self.memory;
        let (sheets, planes) = memory.split_at_mut(front);
        Ok(make_plane(
            transform,
            sheets,
            planes,
            sides,
            (one - 1) * cells,
            (other - 1) * cells,
        ))
    }

    // Fills a place with the sheet in the first working plane.
    fn keep_plane(&mut self, to: usize)
        requires place { is_place self.old.marks.places to ≡ true }
        requires visit { is_some self.old.marks.visit ≡ true }
        ensures steps { rack_state L.height self.new
            ≡ stored (rack_state L.height self.old) to (plane_of self.old.marks (map L.height self.old.memory.now)) }
        ensures memory { places_of self.old.marks (map L.height self.new.memory.now)
            ≡ overwritten (place_start (self.old.marks.w * self.old.marks.h) to)
            (plane_of self.old.marks (map L.height self.old.memory.now))
            (places_of self.old.marks (map L.height self.old.memory.now)) }
        ensures lent { SameMemory self.old.memory self.new.memory }
    {
        let cells = self.marks.cells();
        let front = self.marks.places * cells;
        let memory = &mut *self.memory;
        let (sheets, planes) = memory.split_at_mut(front);
        store(sheets, (to - 1) * cells, part(planes, 0, cells));
        self.marks.fill(to, ());
    }

    /// Fills the place `to` with what a transformation makes of the sheets in the places `one` and `other`, and tells what the
    /// transformation reports. Any of the three may be the same; the sources are read first.
    /// Refuses a place that the rack has not (5), no visit open (31), and a source place that is empty (34); a refusal changes
    /// nothing. Of the places exactly the target's cells change, and the working planes are left as they may be.
    pub fn make<T: Transform>(
        &mut self,
        transform: &T,
        one: usize,
        other: usize,
        to: usize,
    ) -> Result<T::Report, Fault>
        ensures { MakesSheet L.height (T.makes transform.now) (T.report_of transform.now) self.old self.new one other to result }
    {
        // First, since no fault comes before that of a place: making in a plane refuses the rest.
        if !self.marks.has_place(to) {
            return Err(Fault::SheetPlace);
        }
        let report = self.make_in_plane(transform, one, other)?;
        self.keep_plane(to);
        Ok(report)
    }

    /// Writes the numbers that a measurement tells of the sheet in a place to a list.
    /// Refuses a place that the rack has not (5), a depth that is not 1 to 64 (7), a list that is not as long as the measurement asks (8),
    /// no visit open (31), and a place that is empty (34); a refusal changes nothing. No place changes, and the working planes are left as
    /// they may be.
    pub fn measure<M: Measurement>(
        &mut self,
        measurement: &M,
        place: usize,
        list: &mut [M::Entry],
    ) -> Result<(), Fault>
        ensures { MeasuresSheet L.height (M.depth_of measurement.now) (M.len_of measurement.now) (M.numbers_of measurement.now)
            self.old self.new place list.old list.new result }
    {
        let marks = &self.marks;
        if !marks.has_place(place) {
            return Err(Fault::SheetPlace);
        }
        let sides = Sides {
            w: marks.w,
            h: marks.h,
        };
        measurement.check(sides, list.len())?;
        marks.source(place, Fault::SheetPlace, Fault::EmptySheet)?;
        let cells = marks.cells();
        let front = marks.places * cells;
        let memory = &mut *self.memory;
        let (sheets, planes) = memory.split_at_mut(front);
        measure_sheet(
            measurement,
            sheets,
            planes,
            sides,
            (place - 1) * cells,
            list,
        );
        Ok(())
    }
}
