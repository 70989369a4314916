// A sheet on a bench, and what calls make and tell of it.
use crate::rows::print_rows;
use calls::cut;
use elements::Element;
use in_use::{BenchInUse, Call, Sizes};
use levels::Mask;
use levels::level::Level;
use limits::{Fault, Sides};
use std::alloc::Global;
use std::io;
use std::io::ErrorKind;

// A row that is shown of a sheet.
#[derive(Clone, Copy)]
pub(crate) enum Row<'e> {
    // its erosion, by the name of the element
    Erosion(&'e str, &'e Element),
    // its opening of size 1, by the name of the element
    Opening(&'e str, &'e Element),
    Edge(&'e Element),
    Peak(&'e Element),
    // the entries of the sizes from 0 to 6 of its pattern spectrum
    Sizes(&'e Element),
}

// No call of this program is refused, or its tables are no tables.
fn accepted<T: Drop>(told: Result<T, Fault>) -> io::Result<()> {
    match told {
        Ok(_) => Ok(()),
        Err(_) => Err(ErrorKind::InvalidInput.into()),
    }
}

// Prints the heights of the sheet in a place.
fn show_place<L: Level>(
    rt: &HostRuntime,
    of: &str,
    what: &str,
    sides: Sides,
    bench: &mut BenchInUse<'_, L>,
    place: usize,
) -> io::Result<()> {
    let mut list = vec![in rt.alloc(); L::lowest(); sides.cells()]?;
    accepted(bench.perform(Call::ShowSheet {
        place,
        list: list.as_mut_slice(),
    }))?;
    let heights: Vec<u32> = list.iter().map(|level| level.height()).collect(rt.alloc())?;
    print_rows(rt, of, what, sides.w, heights.as_slice())
}

// Prints the numbers of the tally in the one tally place.
fn show_tally<L: Level>(
    rt: &HostRuntime,
    of: &str,
    what: &str,
    sides: Sides,
    bench: &mut BenchInUse<'_, L>,
) -> io::Result<()> {
    let mut list = vec![in rt.alloc(); 0; sides.cells()]?;
    accepted(bench.perform(Call::ShowTally {
        place: 1,
        list: list.as_mut_slice(),
    }))?;
    print_rows(rt, of, what, sides.w, list.as_slice())
}

// Prints a row of the sheet in place 1.
fn show_row<L: Level>(
    rt: &HostRuntime,
    of: &str,
    sides: Sides,
    bench: &mut BenchInUse<'_, L>,
    row: Row<'_>,
) -> io::Result<()> {
    match row {
        Row::Erosion(what, element) => {
            accepted(bench.perform(Call::Erode {
                element,
                from: 1,
                to: 2,
            }))?;
            show_place(rt, of, what, sides, bench, 2)
        }
        Row::Opening(what, element) => {
            accepted(bench.perform(Call::Open {
                element,
                size: 1,
                from: 1,
                to: 2,
            }))?;
            show_place(rt, of, what, sides, bench, 2)
        }
        Row::Edge(element) => {
            accepted(bench.perform(Call::Edge {
                element,
                from: 1,
                to: 1,
            }))?;
            show_tally(rt, of, "edge", sides, bench)
        }
        Row::Peak(element) => {
            accepted(bench.perform(Call::Peak {
                element,
                from: 1,
                to: 1,
            }))?;
            show_tally(rt, of, "peak", sides, bench)
        }
        Row::Sizes(element) => {
            // Those of the sizes from −7 to −1 stand before them, and the rest behind.
            let mut list = [0; 15];
            accepted(bench.perform(Call::Spectrum {
                element,
                depth: 7,
                place: 1,
                list: &mut list,
            }))?;
            print_rows(rt, of, "histogram of sizes", 7, &list[7..14])
        }
    }
}

// The cuts at these heights of the sheet in place 1.
fn cuts_of<L: Level>(
    heap: Global,
    sides: Sides,
    bench: &BenchInUse<'_, L>,
    heights: &[u32],
) -> io::Result<Vec<Vec<Mask>>> {
    let mut cuts = Vec::new(heap);
    for height in heights {
        let mut mask = vec![in heap; Mask::No; sides.cells()]?;
        cut(&bench.rack, *height, 1, mask.as_mut_slice()).map_err(|_| ErrorKind::InvalidInput)?;
        cuts.push(mask)?;
    }
    Ok(cuts)
}

// Prints the sheet in place 1, which is loaded first, and then these rows of it; and hands out its cuts at these heights.
fn show_on<'e, L: Level>(
    rt: &HostRuntime,
    of: &str,
    sheet: &[L],
    sides: Sides,
    bench: &mut BenchInUse<'_, L>,
    rows: &'e [Row<'e>],
    heights: &[u32],
) -> io::Result<Vec<Vec<Mask>>> {
    accepted(bench.begin(1))?;
    accepted(bench.perform(Call::Load {
        place: 1,
        picture: sheet,
    }))?;
    show_place(rt, of, "levels", sides, bench, 1)?;
    for row in rows {
        show_row(rt, of, sides, bench, *row)?;
    }
    cuts_of(rt.alloc(), sides, bench, heights)
}

// Prints a sheet, and then these rows of it, by calls in a visit to a bench; and hands out its cuts at these heights.
pub(crate) fn show_rows<'e, L: Level>(
    rt: &HostRuntime,
    of: &str,
    sheet: &[L],
    sides: Sides,
    rows: &'e [Row<'e>],
    heights: &[u32],
) -> io::Result<Vec<Vec<Mask>>> {
    let Sides { w, h } = sides;
    let mut levels = vec![in rt.alloc(); L::lowest(); 4 * sides.cells()]?;
    let mut numbers = vec![in rt.alloc(); 0; sides.cells()]?;
    let mut bench = BenchInUse::open(
        levels.as_mut_slice(),
        Sizes { w, h, places: 2 },
        numbers.as_mut_slice(),
        Sizes { w, h, places: 1 },
    );
    let cuts = show_on(rt, of, sheet, sides, &mut bench, rows, heights);
    let _ = bench.end();
    // Taken apart, as it has no drop.
    let BenchInUse {
        rack: _,
        slate: _,
        slip: _,
    } = bench;
    cuts
}
