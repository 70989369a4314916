// The texts of cases: printable ASCII with escapes for other bytes and for long runs of bytes.
use std::alloc::Global;
use std::io;
use std::io::ErrorKind;

// The bytes of a list such as `00 ff`, of two hexadecimal digits for each.
fn hexadecimal(heap: Global, list: &str) -> io::Result<Vec<u8>> {
    list.split(' ')
        .map(|digits| -> io::Result<u8> {
            Ok(u8::from_str_radix(digits, 16).map_err(|_| ErrorKind::InvalidInput)?)
        })
        .try_collect(heap)
}

// Adds the bytes of a list, or of a run such as `96*00 ff`, which is the bytes 00 and ff 96 times.
fn add_run(heap: Global, run: &str, bytes: &mut Vec<u8>) -> io::Result<()> {
    let (times, list) = run.split_once('*').unwrap_or(("1", run));
    let times = times.parse::<u32>().map_err(|_| ErrorKind::InvalidInput)?;
    let once = hexadecimal(heap, list)?;
    for _ in 0..times {
        bytes.extend_from_slice(once.as_slice())?;
    }
    Ok(())
}

// Adds the bytes of an escape, given from behind its backslash, and of the plain text after it.
fn add_escaped(heap: Global, piece: &str, bytes: &mut Vec<u8>) -> io::Result<()> {
    if let Some(plain) = piece.strip_prefix('n') {
        bytes.push(b'\n')?;
        bytes.extend_from_slice(plain.as_bytes())?;
        return Ok(());
    }
    let (run, plain) = piece
        .strip_prefix('[')
        .and_then(|rest| rest.split_once(']'))
        .ok_or(ErrorKind::InvalidInput)?;
    add_run(heap, run, bytes)?;
    bytes.extend_from_slice(plain.as_bytes())?;
    Ok(())
}

/// The bytes of a text: `\n` is a newline, `\[00 ff]` the bytes 00 and ff, `\[96*00 ff]` these 96 times, and any other
/// text itself. Errs where a backslash begins none of these.
pub(crate) fn unescape(heap: Global, text: &str) -> io::Result<Vec<u8>> {
    let mut bytes = Vec::new(heap);
    let mut pieces = text.split('\\');
    if let Some(plain) = pieces.next() {
        bytes.extend_from_slice(plain.as_bytes())?;
    }
    for piece in pieces {
        add_escaped(heap, piece, &mut bytes)?;
    }
    Ok(bytes)
}
