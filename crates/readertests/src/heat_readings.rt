// Heat readings and what they come to.
use levels::Heat;
use readings::{Reading, read_heat, tell_heat};

// What a call comes to, or the number and the index of its fault.
type Outcome = Result<(), (u32, usize)>;

// Readings, with what they come to, and the count of the level that then stands where 7 stood.
const READ: [(Reading, Outcome, Option<i16>); 23] = [
    (Reading::Dead, Ok(()), None),
    (Reading::Degrees(20.0625), Ok(()), Some(321)),
    (Reading::Degrees(20.06), Err((18, 0)), Some(7)),
    (Reading::Degrees(-2048.0), Ok(()), Some(-32_768)),
    (Reading::Degrees(-2048.0625), Err((18, 0)), Some(7)),
    (Reading::Degrees(2047.9375), Ok(()), Some(32_767)),
    (Reading::Degrees(2048.0), Err((18, 0)), Some(7)),
    (Reading::Degrees(0.0625), Ok(()), Some(1)),
    (Reading::Degrees(0.03125), Err((18, 0)), Some(7)),
    (Reading::Degrees(-0.0), Ok(()), Some(0)),
    (Reading::Degrees(f32::NAN), Err((18, 0)), Some(7)),
    (Reading::Degrees(f32::INFINITY), Err((18, 0)), Some(7)),
    (Reading::Degrees(f32::NEG_INFINITY), Err((18, 0)), Some(7)),
    (Reading::Degrees(3.4e38), Err((18, 0)), Some(7)),
    (Reading::Degrees(-3.4e38), Err((18, 0)), Some(7)),
    (Reading::Degrees(1.0e-45), Err((18, 0)), Some(7)),
    (Reading::Beyond(-2048.0), Ok(()), Some(-32_768)),
    (Reading::Beyond(-2048.0625), Err((18, 0)), Some(7)),
    (Reading::Beyond(2047.9375), Ok(()), Some(32_767)),
    (Reading::Beyond(2048.0), Err((18, 0)), Some(7)),
    (Reading::Beyond(-20.0625), Ok(()), Some(-321)),
    (Reading::Beyond(20.06), Err((18, 0)), Some(7)),
    (Reading::Beyond(f32::NAN), Err((18, 0)), Some(7)),
];

// What a list comes to, and the counts of the levels that then stand where 7 and blank did.
fn outcome(readings: &[Reading]) -> (Outcome, [Option<i16>; 2]) {
    let mut levels = [Heat::of_count(7), Heat::blank()];
    let read = read_heat(readings, &mut levels).map_err(|fault| (fault.number(), fault.place()));
    (read, [levels[0].count(), levels[1].count()])
}

// The case of a reading and its degrees.
fn parts(reading: Reading) -> (&'static str, f32) {
    match reading {
        Reading::Dead => ("dead", 0.0),
        Reading::Degrees(degrees) => ("degrees", degrees),
        Reading::Beyond(degrees) => ("beyond", degrees),
    }
}

// The reading by which a level is told, and the count that it is read as again.
fn told_and_read(level: Heat) -> ((&'static str, f32), Option<i16>) {
    let mut readings = [Reading::Beyond(7.0), Reading::Dead];
    let _ = tell_heat(&[level, level], &mut readings);
    let (_, [_, count]) = outcome(&readings);
    (parts(readings[0]), count)
}

#[test]
fn readings_are_read_and_told(rt: HostRuntime) {
    for (reading, expected, count) in READ {
        assert_eq!(rt;
            outcome(&[reading, Reading::Dead]),
            (expected, [count, None])
        );
    }
    let told = [
        (Heat::blank(), ("dead", 0.0)),
        (Heat::of_count(-32_768), ("degrees", -2048.0)),
        (Heat::of_count(0), ("degrees", 0.0)),
        (Heat::of_count(321), ("degrees", 20.0625)),
        (Heat::of_count(32_767), ("degrees", 2047.9375)),
    ];
    for (level, reading) in told {
        assert_eq!(rt; told_and_read(level), (reading, level.count()));
    }
}

// Tells so many blank levels as so many readings, which are beyond 7 degrees before, and gives what they then are.
fn told(levels: usize, readings: usize) -> (Outcome, [(&'static str, f32); 2]) {
    let blank = [Heat::blank(); 2];
    let mut list = [Reading::Beyond(7.0); 2];
    let told = tell_heat(&blank[..levels.min(2)], &mut list[..readings.min(2)]);
    (
        told.map_err(|fault| (fault.number(), fault.place())),
        [parts(list[0]), parts(list[1])],
    )
}

#[test]
fn lists_of_unequal_lengths_are_not_told(rt: HostRuntime) {
    let (dead, beyond) = (("dead", 0.0), ("beyond", 7.0));
    let table = [
        (0, 0, Ok(()), [beyond, beyond]),
        (0, 1, Err((3, 0)), [beyond, beyond]),
        (1, 0, Err((3, 0)), [beyond, beyond]),
        (1, 1, Ok(()), [dead, beyond]),
        (1, 2, Err((3, 0)), [beyond, beyond]),
        (2, 1, Err((3, 0)), [beyond, beyond]),
        (2, 2, Ok(()), [dead, dead]),
    ];
    for (levels, readings, outcome, list) in table {
        assert_eq!(rt; told(levels, readings), (outcome, list));
    }
}

#[test]
fn lists_are_refused_for_their_first_fault(rt: HostRuntime) {
    let good = Reading::Degrees(1.0);
    let bad = Reading::Degrees(0.01);
    let table: [(&[Reading], (u32, usize)); 6] = [
        (&[], (3, 0)),
        (&[bad], (3, 0)),
        (&[good, bad, good], (3, 0)),
        (&[good, bad], (18, 1)),
        (&[bad, good], (18, 0)),
        (&[bad, bad], (18, 0)),
    ];
    for (readings, fault) in table {
        assert_eq!(rt; outcome(readings), (Err(fault), [Some(7), None]));
    }
    assert_eq!(rt; read_heat(&[], &mut []).is_ok(), true);
}
