// The built-in elements.
ghost use Rattle.std.specs.Prelude.{◌≡◌, ◌≤◌, true, false, Some, None, MatchResult, slice_index_or};
ghost use Rattle.limits.specs.declared.fault.Fault.TheVariants as Refusal;
ghost use Rattle.elements.specs.BuiltIns.{built_in, built_in_offsets, pictured_flags};
ghost use Rattle.elements.specs.Elements.{offsets};
ghost use Rattle.elements.specs.Offsets.{count};

use crate::element::Element;
use limits::Fault;

// In a picture, an offset that the element has.
const X: bool = true;

// In a picture, an offset that it has not.
const O: bool = false;

// Which built-in element.
#[derive(Clone, Copy)]
enum BuiltIn {
    Cross,
    Square,
    Pair,
    Triple,
}

impl TryFrom<u32> for BuiltIn {
    type Error = Fault;

    ghost try_from_gives = { λ number r. MatchResult r
        (λ element. Some (built_in_offsets element) ≡ built_in number)
        (λ fault. (fault ≡ Refusal.BuiltIn) × (built_in number ≡ None)) };

    // The built-in element of a number. Refuses a number of none with `BuiltIn` (10).
    fn try_from(number: u32) -> Result<BuiltIn, Fault> {
        match number {
            1 => Ok(BuiltIn::Cross),
            2 => Ok(BuiltIn::Square),
            3 => Ok(BuiltIn::Pair),
            4 => Ok(BuiltIn::Triple),
            _ => Err(Fault::BuiltIn),
        }
    }
}

// The element of a 3 × 3 picture about (0, 0), row by row.
fn pictured(rows: [[bool; 3]; 3]) -> Element
    requires { (slice_index_or (pictured_flags rows) 24 false ≡ true) × (2 ≤ count (pictured_flags rows)) }
    ensures { result.flags ≡ pictured_flags rows }
{
    let [[a, b, c], [d, e, f], [g, h, i]] = rows;
    let square = [
        [O, O, O, O, O, O, O],
        [O, O, O, O, O, O, O],
        [O, O, a, b, c, O, O],
        [O, O, d, e, f, O, O],
        [O, O, g, h, i, O, O],
        [O, O, O, O, O, O, O],
        [O, O, O, O, O, O, O],
    ];
    let mut flags = [false; 49];
    flags.copy_from_slice(square.as_flattened());
    Element::from_flags(flags)
}

impl From<BuiltIn> for Element {
    ghost from_gives = { λ element r. offsets r ≡ built_in_offsets element };

    fn from(element: BuiltIn) -> Element {
        pictured(match element {
            BuiltIn::Cross => [[O, X, O], [X, X, X], [O, X, O]],
            BuiltIn::Square => [[X, X, X], [X, X, X], [X, X, X]],
            BuiltIn::Pair => [[O, O, O], [O, X, X], [O, O, O]],
            BuiltIn::Triple => [[O, O, O], [X, X, X], [O, O, O]],
        })
    }
}

impl Element {
    /// The built-in element of this number: 1 is (0, 0) and its four side neighbours, 2 the 3 × 3 square about (0, 0),
    /// 3 is (0, 0) and (1, 0), and 4 is (−1, 0), (0, 0) and (1, 0).
    ///
    /// Refuses any other number with `BuiltIn` (10).
    pub fn built_in(number: u32) -> Result<Element, Fault>
        ensures { MatchResult result
            (λ element. Some (offsets element) ≡ built_in number)
            (λ fault. (fault ≡ Fault.BuiltIn) × (built_in number ≡ None)) }
    {
        Ok(Element::from(BuiltIn::try_from(number)?))
    }
}
