// The making of a call.
use crate::given::Given;
use crate::line::Line;
use crate::reply::{List, Reply};
use calls::cut;
use cases::first_levels;
use in_use::{BenchInUse, Call, CallOn, Told};
use levels::level::Level;
use levels::{Mask, Number};
use limits::Fault;
use restoring::restore;
use std::alloc::Global;
use std::io;
use std::io::ErrorKind;

// Loads so many highest levels.
fn load_highest<L: Level>(
    heap: Global,
    bench: &mut BenchInUse<'_, L>,
    place: usize,
    len: usize,
) -> io::Result<Result<Told<L>, Fault>> {
    let highest = vec![in heap; L::highest(); len]?;
    let picture = highest.as_slice();
    Ok(bench.perform(Call::Load { place, picture }))
}

// Makes the call of a line that fills a place of a rack. The last number of a load tells how many levels it takes: the first or the
// last ones of the picture, or highest ones.
fn fill<'g, L: Level>(
    heap: Global,
    given: &'g Given<L>,
    bench: &mut BenchInUse<'_, L>,
    line: &Line<'_>,
) -> io::Result<Result<Told<L>, Fault>> {
    let element = &given.element;
    let picture = given.picture.as_slice();
    // A match, here and below: the words are the format.
    match (line.word, line.numbers.as_slice()) {
        ("load", [place, len]) => {
            let picture = first_levels(picture, *len);
            Ok(bench.perform(Call::Load {
                place: *place,
                picture,
            }))
        }
        ("load-last", [place, len]) => {
            let (_, picture) = picture.split_at(picture.len().saturating_sub(*len));
            Ok(bench.perform(Call::Load {
                place: *place,
                picture,
            }))
        }
        ("load-highest", [place, len]) => load_highest(heap, bench, *place, *len),
        ("erode", [from, to]) => Ok(bench.perform(Call::Erode {
            element,
            from: *from,
            to: *to,
        })),
        ("dilate", [from, to]) => Ok(bench.perform(Call::Dilate {
            element,
            from: *from,
            to: *to,
        })),
        ("open", [size, from, to]) => Ok(bench.perform(Call::Open {
            element,
            size: *size,
            from: *from,
            to: *to,
        })),
        ("close", [size, from, to]) => Ok(bench.perform(Call::Close {
            element,
            size: *size,
            from: *from,
            to: *to,
        })),
        ("meet", [one, other, to]) => {
            let call: CallOn<'g, L> = Call::Meet {
                one: *one,
                other: *other,
                to: *to,
            };
            Ok(bench.perform(call))
        }
        ("join", [one, other, to]) => {
            let call: CallOn<'g, L> = Call::Join {
                one: *one,
                other: *other,
                to: *to,
            };
            Ok(bench.perform(call))
        }
        ("regrow", [marker, upper, to]) => Ok(bench.perform(Call::Regrow {
            element,
            marker: *marker,
            upper: *upper,
            to: *to,
        })),
        _ => fill_tally(given, bench, line),
    }
}

// Makes the call of a line that fills a place of a slate.
fn fill_tally<'g, L: Level>(
    given: &'g Given<L>,
    bench: &mut BenchInUse<'_, L>,
    line: &Line<'_>,
) -> io::Result<Result<Told<L>, Fault>> {
    let element = &given.element;
    match (line.word, line.numbers.as_slice()) {
        ("edge", [from, to]) => Ok(bench.perform(Call::Edge {
            element,
            from: *from,
            to: *to,
        })),
        ("peak", [from, to]) => Ok(bench.perform(Call::Peak {
            element,
            from: *from,
            to: *to,
        })),
        ("valley", [from, to]) => Ok(bench.perform(Call::Valley {
            element,
            from: *from,
            to: *to,
        })),
        ("differ", [one, other, to]) => {
            let call: CallOn<'g, L> = Call::Differ {
                one: *one,
                other: *other,
                to: *to,
            };
            Ok(bench.perform(call))
        }
        ("add", [one, other, to]) => {
            let call: CallOn<'g, L> = Call::Add {
                one: *one,
                other: *other,
                to: *to,
            };
            Ok(bench.perform(call))
        }
        ("scale", [from, to]) => {
            let call: CallOn<'g, L> = Call::Scale {
                factor: line.factor,
                from: *from,
                to: *to,
            };
            Ok(bench.perform(call))
        }
        _ => Err(ErrorKind::InvalidInput.into()),
    }
}

// Makes the call of a line that writes a list, whose length is the line's last number.
fn write<'g, L: Level>(
    heap: Global,
    given: &'g Given<L>,
    bench: &mut BenchInUse<'_, L>,
    line: &Line<'_>,
) -> io::Result<Reply<L>> {
    let element = &given.element;
    match (line.word, line.numbers.as_slice()) {
        ("show", [place, len]) => {
            let mut list = vec![in heap; L::highest(); *len]?;
            let told = bench.perform(Call::ShowSheet {
                place: *place,
                list: list.as_mut_slice(),
            });
            Ok(Reply {
                told,
                list: List::Sheet(list),
            })
        }
        ("show-tally", [place, len]) => {
            let mut list = vec![in heap; 7; *len]?;
            let told = bench.perform(Call::ShowTally {
                place: *place,
                list: list.as_mut_slice(),
            });
            Ok(Reply {
                told,
                list: List::Tally(list),
            })
        }
        ("spectrum", [depth, place, len]) => {
            let mut list = vec![in heap; 7; *len]?;
            let told = bench.perform(Call::Spectrum {
                element,
                depth: *depth,
                place: *place,
                list: list.as_mut_slice(),
            });
            Ok(Reply {
                told,
                list: List::Spectrum(list),
            })
        }
        ("skeleton", [depth, place, len]) => {
            let mut list = vec![in heap; 7; *len]?;
            let told = bench.perform(Call::Skeleton {
                element,
                depth: *depth,
                place: *place,
                list: list.as_mut_slice(),
            });
            Ok(Reply {
                told,
                list: List::Skeleton(list),
            })
        }
        ("cut", [place, height, len]) => {
            let height = u32::try_from(*height).map_err(|_| ErrorKind::InvalidInput)?;
            let mut list = vec![in heap; Mask::Yes; *len]?;
            let answer = cut(&bench.rack, height, *place, list.as_mut_slice());
            Ok(Reply {
                told: answer.map(|()| Told::Nothing),
                list: List::Mask(list),
            })
        }
        _ => Ok(Reply {
            told: fill(heap, given, bench, line)?,
            list: List::None,
        }),
    }
}

// The pieces that a line gives.
fn given_pieces<L>(heap: Global, numbers: &[usize]) -> io::Result<Reply<L>> {
    let pieces = numbers
        .iter()
        .map(|number| -> io::Result<u32> {
            Ok(u32::try_from(*number).map_err(|_| ErrorKind::InvalidInput)?)
        })
        .try_collect(heap)?;
    Ok(Reply {
        told: Ok(Told::Nothing),
        list: List::Pieces(pieces),
    })
}

// Makes the call of a line, on a bench or on lists. The pieces are those of the last skeleton or of the line that gave
// some, for a restore.
pub(crate) fn make<'g, L: Level>(
    heap: Global,
    given: &'g Given<L>,
    bench: &mut BenchInUse<'_, L>,
    pieces: &[u32],
    line: &Line<'_>,
) -> io::Result<Reply<L>> {
    let tells_no_list = |told| Reply {
        told,
        list: List::None,
    };
    match (line.word, line.numbers.as_slice()) {
        ("begin", [flat]) => {
            let flat = u16::try_from(*flat).map_err(|_| ErrorKind::InvalidInput)?;
            let call: CallOn<'g, L> = Call::Begin { flat };
            Ok(tells_no_list(bench.perform(call)))
        }
        ("end", []) => {
            let call: CallOn<'g, L> = Call::End;
            Ok(tells_no_list(bench.perform(call)))
        }
        ("area", [place]) => {
            let call: CallOn<'g, L> = Call::Area { place: *place };
            Ok(tells_no_list(bench.perform(call)))
        }
        ("span", [place]) => {
            let call: CallOn<'g, L> = Call::Span { place: *place };
            Ok(tells_no_list(bench.perform(call)))
        }
        ("pieces", numbers) => given_pieces(heap, numbers),
        ("restore", [w, h, depth, size, answer_len, work_len]) => {
            let mut answer = vec![in heap; seven(); *answer_len]?;
            let mut work = vec![in heap; seven(); *work_len]?;
            let told = restore(
                &given.element,
                *depth,
                *size,
                pieces,
                *w,
                *h,
                answer.as_mut_slice(),
                work.as_mut_slice(),
            );
            Ok(Reply {
                told: told.map(|()| Told::Nothing),
                list: List::Restored(answer, work),
            })
        }
        _ => write(heap, given, bench, line),
    }
}

// What stands in the lists of a restore before it.
fn seven() -> Number {
    Number::new(7).unwrap()
}
