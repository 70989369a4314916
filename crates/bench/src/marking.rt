// What is read off marks, what they refuse, and how they change.
ghost use Rattle.std.specs.Prelude.{◌≡◌, ◌-◌, ◌*◌, ◌≤◌, true, replicate, is_some, Some, None, MatchResult, slice_set};
ghost use Rattle.bench.specs.Calls.{begin_refusal, end_refusal, equal_benches, load_refusal, source_refusal, sources_refusal};
ghost use Rattle.bench.specs.TallyCalls.{combine_refusal, difference_refusal, store_refusal, weight_refusal};
ghost use Rattle.limits.specs.Faults.{told};
ghost use Rattle.weights.specs.Weights.{Tally};
ghost use Rattle.bench.specs.Model.{SameSizes, flat_of, is_place, kept, outline_of};

use crate::marks::Marks;
use crate::visit::Visit;
use limits::Fault;

impl<T: Copy> Marks<T> {
    // How many cells a place has.
    pub(crate) fn cells(&self) -> usize
        ensures { result ≡ self.now.w * self.now.h }
    {
        self.w * self.h
    }

    // Whether there is a place of this number.
    pub(crate) fn has_place(&self, place: usize) -> bool
        ensures { result ≡ is_place self.now.places place }
    {
        (1..=self.places).contains(&place)
    }

    // Whether there is a place of this number and it is filled.
    fn is_filled(&self, place: usize) -> bool
        ensures { result ≡ (outline_of self.now).filled place }
    {
        self.has_place(place) && self.filled[place - 1].is_some()
    }

    // What load refuses: 4, 5, 31.
    pub(crate) fn refuse_load(&self, place: usize, len: usize) -> Result<(), Fault>
        ensures { result ≡ told (load_refusal (outline_of self.now) place len) }
    {
        if len != self.cells() {
            return Err(Fault::Length);
        }
        if !self.has_place(place) {
            return Err(Fault::SheetPlace);
        }
        if self.visit.is_none() {
            return Err(Fault::NoVisit);
        }
        Ok(())
    }

    // What is kept beside the cells of a place. Refuses what a call does that reads what is in it, with the faults of no such
    // place and of an empty one: 5 or 6, 31, 34 or 35.
    pub(crate) fn source(&self, place: usize, no_place: Fault, empty: Fault) -> Result<T, Fault>
        ensures { MatchResult result
            (λ content. (source_refusal no_place empty (outline_of self.now) place ≡ None)
            × (kept self.now place ≡ Some content))
            (λ fault. source_refusal no_place empty (outline_of self.now) place ≡ Some fault) }
    {
        if !self.has_place(place) {
            return Err(no_place);
        }
        if self.visit.is_none() {
            return Err(Fault::NoVisit);
        }
        self.filled[place - 1].ok_or(empty)
    }

    // What a call refuses that makes something of the sheets in two places: 5, 31, 34.
    pub(crate) fn refuse_sources(&self, one: usize, other: usize) -> Result<(), Fault>
        ensures { result ≡ told (sources_refusal (outline_of self.now) one other) }
    {
        if !self.has_place(other) {
            return Err(Fault::SheetPlace);
        }
        self.source(one, Fault::SheetPlace, Fault::EmptySheet)?;
        if !self.is_filled(other) {
            return Err(Fault::EmptySheet);
        }
        Ok(())
    }

    // What a call refuses that fills a tally place from two lists of these lengths: 4, 6, 31.
    pub(crate) fn refuse_store(&self, to: usize, one: usize, other: usize) -> Result<(), Fault>
        ensures { result ≡ told (store_refusal (outline_of self.now) to one other) }
    {
        if one != self.cells() || other != self.cells() {
            return Err(Fault::Length);
        }
        if !self.has_place(to) {
            return Err(Fault::TallyPlace);
        }
        if self.visit.is_none() {
            return Err(Fault::NoVisit);
        }
        Ok(())
    }

    // What is kept beside the cells of the tallies in two places, of which a third is made. Refuses all that such a call does
    // but the weight of the tally to be made: 6, 31, 35.
    pub(crate) fn tallies(&self, one: usize, other: usize, to: usize) -> Result<(T, T), Fault>
        ensures { MatchResult result
            (λ both. (kept self.now one ≡ Some both.0) × (kept self.now other ≡ Some both.1)
            × ((made : Tally) → combine_refusal (outline_of self.now) made one other to ≡ weight_refusal made))
            (λ fault. (made : Tally) → combine_refusal (outline_of self.now) made one other to ≡ Some fault) }
    {
        if !self.has_place(other) || !self.has_place(to) {
            return Err(Fault::TallyPlace);
        }
        Ok((
            self.source(one, Fault::TallyPlace, Fault::EmptyTally)?,
            self.source(other, Fault::TallyPlace, Fault::EmptyTally)?,
        ))
    }

    // Fills a place.
    pub(crate) fn fill(&mut self, place: usize, content: T)
        requires place { (1 ≤ place) × (place ≤ self.old.places) }
        requires visit { is_some self.old.visit ≡ true }
        ensures sizes { SameSizes self.old self.new }
        ensures visit { self.new.visit ≡ self.old.visit }
        ensures filled { self.new.filled ≡ slice_set self.old.filled (place - 1) (Some content) }
    {
        self.filled[place - 1] = Some(content);
    }

    // Opens a visit.
    pub(crate) fn open(&mut self, visit: Visit)
        ensures sizes { SameSizes self.old self.new }
        ensures visit { self.new.visit ≡ Some visit }
        ensures filled { self.new.filled ≡ self.old.filled }
    {
        self.visit = Some(visit);
    }

    // Closes the visit and empties every place.
    #[tactic(auto, using(crate::proofs::Unused::none_past))]
    pub(crate) fn clear(&mut self)
        ensures sizes { SameSizes self.old self.new }
        ensures visit { self.new.visit ≡ None }
        ensures filled { self.new.filled ≡ replicate 12 None }
    {
        // Bound first, since the check covers no repeat that is written to a field.
        let empty = [None; 12];
        self.filled = empty;
        self.visit = None;
    }

    // The flat of the open visit, if one is open.
    fn flat(&self) -> Option<u16>
        ensures { result ≡ flat_of self.now.visit }
    {
        self.visit.map(|visit| visit.flat)
    }

    // Whether rack and slate have the same sides and visits to the same flat, or none.
    fn equals<U: Copy>(&self, slate: &Marks<U>) -> bool
        ensures { result ≡ equal_benches (outline_of self.now) (outline_of slate.now) }
    {
        (self.w, self.h, self.flat()) == (slate.w, slate.h, slate.flat())
    }

    // What begin refuses: 11, 32, 37.
    pub(crate) fn refuse_begin<U: Copy>(&self, slate: &Marks<U>, flat: u16) -> Result<(), Fault>
        ensures { result ≡ told (begin_refusal (outline_of self.now) (outline_of slate.now) flat) }
    {
        if !(1..=9999).contains(&flat) {
            return Err(Fault::Flat);
        }
        if self.visit.is_some() || slate.visit.is_some() {
            return Err(Fault::VisitOpen);
        }
        if !self.equals(slate) {
            return Err(Fault::Unequal);
        }
        Ok(())
    }

    // What end refuses: 31, 33, 37.
    pub(crate) fn refuse_end<U: Copy>(&self, slate: &Marks<U>, flat: u16) -> Result<(), Fault>
        ensures { result ≡ told (end_refusal (outline_of self.now) (outline_of slate.now) flat) }
    {
        let Some(open) = self.flat() else {
            return Err(Fault::NoVisit);
        };
        if open != flat {
            return Err(Fault::OtherFlat);
        }
        if !self.equals(slate) {
            return Err(Fault::Unequal);
        }
        Ok(())
    }

    // What the difference of two sheets refuses: 5, 6, 31, 34, 37.
    pub(crate) fn refuse_difference<U: Copy>(
        &self,
        slate: &Marks<U>,
        one: usize,
        other: usize,
        to: usize,
    ) -> Result<(), Fault>
        ensures { result ≡ told (difference_refusal (outline_of self.now) (outline_of slate.now) one other to) }
    {
        if !self.has_place(one) || !self.has_place(other) {
            return Err(Fault::SheetPlace);
        }
        if !slate.has_place(to) {
            return Err(Fault::TallyPlace);
        }
        if self.visit.is_none() {
            return Err(Fault::NoVisit);
        }
        if !self.is_filled(one) || !self.is_filled(other) {
            return Err(Fault::EmptySheet);
        }
        if !self.equals(slate) {
            return Err(Fault::Unequal);
        }
        Ok(())
    }
}
