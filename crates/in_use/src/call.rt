// Any call on a bench, by its arguments, and what it tells.

use calls::Spot;
use elements::Element;
use weights::Weight;

/// A call on a bench, by its arguments. Any of its numbers may be wrong. A list to be written, a picture and an element are lent: `CallOn`
/// says how. The calls that write a list stand first.
// The types of what is lent are parameters, since the check covers no caller of a function that takes an enum whose variants name them.
pub enum Call<S, T, N, K, P, E> {
    ShowSheet {
        place: usize,
        list: S,
    },
    ShowTally {
        place: usize,
        list: T,
    },
    Spectrum {
        element: E,
        depth: usize,
        place: usize,
        list: N,
    },
    Skeleton {
        element: E,
        depth: usize,
        place: usize,
        list: K,
    },
    Begin {
        flat: u16,
    },
    End,
    Load {
        place: usize,
        picture: P,
    },
    Erode {
        element: E,
        from: usize,
        to: usize,
    },
    Dilate {
        element: E,
        from: usize,
        to: usize,
    },
    Open {
        element: E,
        size: usize,
        from: usize,
        to: usize,
    },
    Close {
        element: E,
        size: usize,
        from: usize,
        to: usize,
    },
    Meet {
        one: usize,
        other: usize,
        to: usize,
    },
    Join {
        one: usize,
        other: usize,
        to: usize,
    },
    Regrow {
        element: E,
        marker: usize,
        upper: usize,
        to: usize,
    },
    Edge {
        element: E,
        from: usize,
        to: usize,
    },
    Peak {
        element: E,
        from: usize,
        to: usize,
    },
    Valley {
        element: E,
        from: usize,
        to: usize,
    },
    Differ {
        one: usize,
        other: usize,
        to: usize,
    },
    Add {
        one: usize,
        other: usize,
        to: usize,
    },
    Scale {
        factor: i32,
        from: usize,
        to: usize,
    },
    Area {
        place: usize,
    },
    Span {
        place: usize,
    },
}

/// A call on a bench of this level kind: a sheet is written to a list of levels, and a tally, a spectrum and a skeleton to lists of numbers.
pub type CallOn<'c, L> = Call<
    &'c mut [L],
    &'c mut [i32],
    &'c mut [u64],
    &'c mut [u32],
    &'c [L],
    &'c Element,
>;

/// What an accepted call tells, and whether it wrote a list.
#[derive(Clone, Copy)]
pub enum Told<L> {
    Nothing,
    /// The flat on the slip of the visit that began; the bench keeps the slip.
    Slip { flat: u16 },
    /// The changing rounds of a regrow.
    Rounds { rounds: u64 },
    Area { area: u64 },
    Span { least: Spot<L>, greatest: Spot<L> },
    /// The entries of the spectrum are in the call's list.
    Spectrum,
    /// The pieces of the skeleton are in the call's list.
    Skeleton,
    /// The sheet is in the call's list.
    Sheet,
    /// The numbers of the tally are in the call's list; this is its weight.
    Tally { weight: Weight },
}
