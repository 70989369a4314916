// Pattern spectra.
ghost use Rattle.std.specs.Prelude.{◌≡◌, [], ◌∷◌, map, length, MatchResult};
ghost use Rattle.bench.specs.Calls.{MeasuresSheet};
ghost use Rattle.closings.specs.ByElement.{spectrum_by, spectrum_length};
ghost use Rattle.limits.specs.Faults.{told};
ghost use Rattle.morphology.specs.Measuring.{measure_refusal, numbers_refusal};

use crate::inside::ErosionInside;
use bench::Rack;
use elements::Element;
use levels::level::Level;
use limits::{Fault, Sides, check_size};
use measurements::{Areas, subtract_next};
use morphology::{ByElement, Measurement, Operation, check_sheets};

/// The pattern spectrum of a sheet by an element, to a depth.
#[derive(Clone, Copy)]
pub struct PatternSpectrum<'e> {
    pub element: &'e Element,
    pub depth: usize,
}

impl<'e> Measurement for PatternSpectrum<'e> {
    type Entry = u64;

    ghost depth_of = { λ t. t.depth };

    ghost len_of = { λ t cells. spectrum_length t.depth cells };

    ghost numbers_of = { λ t w h f. spectrum_by t.element.now t.depth w h f };

    fn check(&self, _: Sides, len: usize) -> Result<(), Fault> {
        check_size(self.depth)?;
        if len != 2 * self.depth + 1 {
            return Err(Fault::ListLength);
        }
        Ok(())
    }

    fn measure<L: Level>(
        &self,
        sheet: &[L],
        plane: &mut [L],
        spare: &mut [L],
        w: usize,
        h: usize,
        list: &mut [u64],
    ) -> Result<(), Fault> {
        let sides = check_sheets(w, h, &[sheet.len(), plane.len(), spare.len()])?;
        self.check(sides, list.len())?;
        let PatternSpectrum { element, depth } = *self;
        let erosion = ByElement {
            op: Operation::Erosion,
            element,
        };
        let dilation = ByElement {
            op: Operation::Dilation,
            element,
        };
        let closings = Areas {
            first: dilation,
            second: ErosionInside { element },
            depth,
        };
        let openings = Areas {
            first: erosion,
            second: dilation,
            depth,
        };
        // The areas fall from that of the greatest closing, by way of the sheet's own, to that of the greatest opening, and each entry
        // is how far to the next; what is left at the end is the rest.
        closings.measure(sheet, plane, spare, w, h, &mut list[..=depth])?;
        list[..=depth].reverse();
        openings.measure(sheet, plane, spare, w, h, &mut list[depth..])?;
        subtract_next(list);
        Ok(())
    }
}

/// Writes the pattern spectrum by an element, to a depth, of the sheet in a place to a list of 2 × depth + 1 numbers. For the sizes n from
/// −depth to −1 it tells the area of the closing of size −n minus that of the closing of size −n − 1, for those from 0 to depth − 1 the
/// area of the opening of size n minus that of the opening of size n + 1, and last the rest, the area of the opening of the depth.
/// It takes depth × (depth + 1) erosions and dilations for the sizes below 0, and as many for the others, and no memory but the list and the
/// working planes.
/// Refuses 5, 7, 8, 31 and 34, and leaves the rack, as `Rack::measure` does.
pub fn spectrum<L: Level>(
    rack: &mut Rack<'_, L>,
    element: &Element,
    depth: usize,
    place: usize,
    list: &mut [u64],
) -> Result<(), Fault>
    ensures { MeasuresSheet L.height depth (spectrum_length depth) (spectrum_by element.now depth)
        rack.old rack.new place list.old list.new result }
{
    rack.measure(&PatternSpectrum { element, depth }, place, list)
}
