// Any call on a bench in use as one call.
ghost use Rattle.std.specs.Prelude.{◌≡◌, OnErr, OnOk};
ghost use Rattle.in_use.specs.Calls.{KeepsList, call_of, told_of};
ghost use Rattle.in_use.specs.InUse.{bench_of, open_flat};
ghost use Rattle.in_use.specs.Memory.{RackLeft, SlateLeft};
ghost use Rattle.in_use.specs.Sums.{SumsOfMasks};
ghost use Rattle.model.specs.Steps.{answer, step, telling};
ghost use Rattle.runs.specs.Theorems.{FilledPlaces, Forgetting, MaskSums, Restoring, SkeletonsTellSheets, SpectraTellAreas, TalliesWithinWeights, in_heights};

use crate::bench_in_use::BenchInUse;
use crate::call::{Call, CallOn, Told};
use bench::load;
use calls::{area, dilate, erode, join, meet, open, regrow, show_sheet, skeleton, span};
use closings::{close, spectrum, valley};
use levels::level::Level;
use limits::Fault;
use runs::runs_of_a_kind;
use tallies::{add, differ, edge, peak, scale, show_tally};

impl<L: Level> BenchInUse<'_, L> {
    // That the bench, and the answer to any call on it, are made up of those of the masks.
    fn sums_of_masks(&self)
        ensures { SumsOfMasks L.height L.top (bench_of L.height self.now) }
    {
        runs_of_a_kind::<L>();
    }

    /// Makes any call, and tells what it tells; a list that is to be written is lent in the call. Each refuses and leaves what the
    /// function of its name does: a refused call changes no memory and no list, an accepted end leaves all memory lowest or zero, and any
    /// other accepted call changes just its target's cells, the working planes apart.
    pub fn perform(&mut self, call: CallOn<'_, L>) -> Result<Told<L>, Fault>
        ensures steps { bench_of L.height self.new ≡ step (bench_of L.height self.old)
            (in_heights L.height (call_of (open_flat (bench_of L.height self.old)) call.entry)) }
        ensures answers { telling (told_of L.height call.exit) result ≡ answer (bench_of L.height self.old)
            (in_heights L.height (call_of (open_flat (bench_of L.height self.old)) call.entry)) }
        ensures lists { OnErr result (KeepsList call.entry call.exit) }
        ensures memory { OnErr result ((self.new.rack.memory.now ≡ self.old.rack.memory.now)
            × (self.new.slate.memory.now ≡ self.old.slate.memory.now)) }
        ensures levels { OnOk result (RackLeft L.height self.old.rack self.new.rack call.entry) }
        ensures numbers { OnOk result (SlateLeft self.old.slate self.new.slate call.entry) }
        ensures masks { SumsOfMasks L.height L.top (bench_of L.height self.old) }
        ensures sums { MaskSums L.height L.top }
        ensures restoring { Restoring L.height }
        ensures skeletons { SkeletonsTellSheets L.height }
        ensures spectra { SpectraTellAreas L.height }
        ensures weights { TalliesWithinWeights L.height L.top }
        ensures places { FilledPlaces L.height }
        ensures forgetting { Forgetting L.height }
    {
        // First, so that their clauses are known wherever this returns.
        runs_of_a_kind::<L>();
        self.sums_of_masks();
        match call {
            Call::ShowSheet { place, list } => {
                show_sheet(&self.rack, place, list)?;
                Ok(Told::Sheet)
            }
            Call::ShowTally { place, list } => {
                let weight = show_tally(&self.slate, place, list)?;
                Ok(Told::Tally { weight })
            }
            Call::Spectrum {
                element,
                depth,
                place,
                list,
            } => {
                spectrum(&mut self.rack, element, depth, place, list)?;
                Ok(Told::Spectrum)
            }
            Call::Skeleton {
                element,
                depth,
                place,
                list,
            } => {
                skeleton(&mut self.rack, element, depth, place, list)?;
                Ok(Told::Skeleton)
            }
            Call::Begin { flat } => {
                self.begin(flat)?;
                Ok(Told::Slip { flat })
            }
            Call::End => {
                self.end()?;
                Ok(Told::Nothing)
            }
            Call::Load { place, picture } => {
                load(&mut self.rack, place, picture)?;
                Ok(Told::Nothing)
            }
            Call::Erode { element, from, to } => {
                erode(&mut self.rack, element, from, to)?;
                Ok(Told::Nothing)
            }
            Call::Dilate { element, from, to } => {
                dilate(&mut self.rack, element, from, to)?;
                Ok(Told::Nothing)
            }
            Call::Open {
                element,
                size,
                from,
                to,
            } => {
                open(&mut self.rack, element, size, from, to)?;
                Ok(Told::Nothing)
            }
            Call::Close {
                element,
                size,
                from,
                to,
            } => {
                close(&mut self.rack, element, size, from, to)?;
                Ok(Told::Nothing)
            }
            Call::Meet { one, other, to } => {
                meet(&mut self.rack, one, other, to)?;
                Ok(Told::Nothing)
            }
            Call::Join { one, other, to } => {
                join(&mut self.rack, one, other, to)?;
                Ok(Told::Nothing)
            }
            Call::Regrow {
                element,
                marker,
                upper,
                to,
            } => {
                let rounds = regrow(&mut self.rack, element, marker, upper, to)?;
                Ok(Told::Rounds { rounds })
            }
            Call::Edge { element, from, to } => {
                edge(&mut self.rack, &mut self.slate, element, from, to)?;
                Ok(Told::Nothing)
            }
            Call::Peak { element, from, to } => {
                peak(&mut self.rack, &mut self.slate, element, from, to)?;
                Ok(Told::Nothing)
            }
            Call::Valley { element, from, to } => {
                valley(&mut self.rack, &mut self.slate, element, from, to)?;
                Ok(Told::Nothing)
            }
            Call::Differ { one, other, to } => {
                differ(&self.rack, &mut self.slate, one, other, to)?;
                Ok(Told::Nothing)
            }
            Call::Add { one, other, to } => {
                add(&mut self.slate, one, other, to)?;
                Ok(Told::Nothing)
            }
            Call::Scale { factor, from, to } => {
                scale(&mut self.slate, factor, from, to)?;
                Ok(Told::Nothing)
            }
            Call::Area { place } => {
                let area = area(&self.rack, place)?;
                Ok(Told::Area { area })
            }
            Call::Span { place } => {
                let (least, greatest) = span(&self.rack, place)?;
                Ok(Told::Span { least, greatest })
            }
        }
    }
}
