// Job lines and what they come to.
use commands::{Command, read_line};
use std::test::Fail;

// Lines of commands, with the command.
const ACCEPTED: [(&str, Command); 10] = [
    ("V 7", Command::Begin { flat: 7 }),
    ("L 0", Command::Load { place: 0 }),
    ("E 1 2", Command::Erode { from: 1, to: 2 }),
    ("D 10 9999", Command::Dilate { from: 10, to: 9999 }),
    (
        "O 64 1 2",
        Command::Open {
            size: 64,
            from: 1,
            to: 2,
        },
    ),
    (
        "C 0 3 9999",
        Command::Close {
            size: 0,
            from: 3,
            to: 9999,
        },
    ),
    ("A 9999", Command::Area { place: 9999 }),
    (
        "P 64 1",
        Command::Spectrum {
            depth: 64,
            place: 1,
        },
    ),
    (
        "P 0 9999",
        Command::Spectrum {
            depth: 0,
            place: 9999,
        },
    ),
    ("X", Command::End),
];

// Lines that are refused, with the column.
const REFUSED: [(&str, usize); 26] = [
    ("", 1),
    ("V", 2),
    ("V ", 3),
    ("V 07", 4),
    ("V 12345", 7),
    ("V 7 ", 4),
    ("V  7", 3),
    ("V -1", 3),
    ("V 7\n", 4),
    ("V\t7", 2),
    ("\0", 1),
    ("E 1", 4),
    ("E 1 2 3", 6),
    ("D 10000 2", 7),
    ("Q 1", 1),
    ("v 1", 1),
    ("O 1 2", 6),
    ("C 1 2 3 4", 8),
    ("o 1 1 2", 1),
    ("P", 2),
    ("P 1", 4),
    ("P 1 2 3", 6),
    ("P 02 1", 4),
    ("P 1  2", 5),
    ("p 1 2", 1),
    ("X 1", 2),
];

#[test]
fn lines_tell_a_command_or_their_first_misfit(rt: HostRuntime) -> Result<(), Fail> {
    for (line, command) in ACCEPTED {
        assert_eq!(rt; read_line(line.as_bytes()), Ok(command));
    }
    for (line, column) in REFUSED {
        let outcome = read_line(line.as_bytes()).map_err(|fault| (fault.number(), fault.column));
        assert_eq!(rt; outcome, Err((22, column)));
    }
    Ok(())
}
