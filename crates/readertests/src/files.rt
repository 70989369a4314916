// Picture files and what they come to.
use pictures::{Picture, read_picture};
use std::test::Fail;

// Files that are refused, with the number and the byte.
const REFUSED: [(&str, u32, usize); 28] = [
    ("", 19, 0),
    ("P", 19, 1),
    ("P5", 19, 2),
    ("P5\n", 19, 3),
    ("P5\n3", 19, 4),
    ("P5\n3 ", 19, 5),
    ("P5\n3 2", 19, 6),
    ("P5\n3 2\n", 19, 7),
    ("P5\n3 2\n2", 19, 8),
    ("P5\n3 2\n25", 19, 9),
    ("P5\n3 2\n255", 19, 10),
    ("\0", 19, 0),
    ("P6\n3 2\n255\nabcdef", 19, 1),
    ("P5\n\0", 19, 3),
    ("P5\n0 2", 19, 3),
    ("P5\n3\n2", 19, 4),
    ("P5\n3  2", 19, 5),
    ("P5\n3 02", 19, 5),
    ("P5\n10000 1", 19, 7),
    ("P5\n1025 1\n25", 19, 12),
    ("P5\n1025 1\n255\n", 1, 3),
    ("P5\n9999 9999\n255\n", 1, 3),
    ("P5\n1024 1025\n255\n", 1, 8),
    ("P5\n1024 1\n255\n", 20, 14),
    ("P5\n1 1024\n255\n", 20, 14),
    ("P5\n3 2\n255\n", 20, 11),
    ("P5\n3 2\n255\nabcde", 20, 16),
    ("P5\n3 2\n255\nabcdefg", 20, 17),
];

#[test]
fn files_tell_a_picture_or_their_fault(rt: HostRuntime) -> Result<(), Fail> {
    let single = Picture {
        width: 1,
        height: 1,
        start: 11,
    };
    assert_eq!(rt; read_picture(b"P5\n1 1\n255\n\0"), Ok(single));
    let six = Picture {
        width: 3,
        height: 2,
        start: 11,
    };
    assert_eq!(rt; read_picture(b"P5\n3 2\n255\nabcdef"), Ok(six));
    for (file, number, place) in REFUSED {
        let outcome = read_picture(file.as_bytes()).map_err(|fault| (
            fault.number(),
            fault.place(),
        ));
        assert_eq!(rt; outcome, Err((number, place)));
    }
    Ok(())
}
