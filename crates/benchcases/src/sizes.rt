// The sizes of racks and slates, at the ends of their ranges.
use cases::Answer;
use limits::{check_rack, check_slate};
use std::io;

// Width, height, number of places and length of the memory: a row of named fields takes six lines, and the loops name them.
type Row = (usize, usize, usize, usize);

const RACKS: [Row; 20] = [
    (5, 1, 4, 30),
    (1, 1, 1, 3),
    (1024, 1024, 12, 14_680_064),
    (1, 1024, 1, 3_072),
    (1024, 1, 12, 14_336),
    (0, 1, 1, 0),
    (1, 0, 1, 0),
    (1025, 1, 1, 3_075),
    (1, 1025, 1, 3_075),
    (usize::MAX, usize::MAX, usize::MAX, usize::MAX),
    (5, 1, 0, 10),
    (5, 1, 13, 75),
    (5, 1, usize::MAX, 5),
    (5, 1, 4, 29),
    (5, 1, 4, 31),
    (5, 1, 4, 20),
    (5, 1, 4, 0),
    (1024, 1024, 12, usize::MAX),
    (0, 1, 0, 7),
    (1, 1, 0, 7),
];

const SLATES: [Row; 16] = [
    (5, 1, 1, 5),
    (1, 1, 1, 1),
    (1024, 1024, 12, 12_582_912),
    (0, 1, 1, 0),
    (1, 0, 1, 0),
    (1025, 1, 1, 1_025),
    (1, 1025, 1, 1_025),
    (usize::MAX, usize::MAX, usize::MAX, usize::MAX),
    (5, 1, 0, 0),
    (5, 1, 12, 60),
    (5, 1, 13, 65),
    (5, 1, 1, 4),
    (5, 1, 1, 6),
    (5, 1, 4, 30),
    (0, 1, 13, 7),
    (1, 1, 13, 7),
];

// Prints which sizes make a rack and which make a slate.
pub(crate) fn check_sizes(rt: &HostRuntime) -> io::Result<()> {
    rt.println("# sizes of racks")?;
    for (w, h, places, len) in RACKS {
        rt.println(Answer::from(check_rack(w, h, places, len)))?;
    }
    rt.println("# sizes of slates")?;
    for (w, h, places, len) in SLATES {
        rt.println(Answer::from(check_slate(w, h, places, len)))?;
    }
    Ok(())
}
