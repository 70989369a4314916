// The program walljob: reads the two files of a job and its lines, and prints what the job tells.
#![tactic(auto)]

use jobs::run_job;
use std::alloc::Global;
use std::fs::File;
use std::io;
use std::io::{ErrorKind, Read};

// At most so many bytes of a file or of the input are read.
const LIMIT: u64 = 65_536;

// The first bytes of a file or a stream.
fn read_some<R: Read + Drop>(heap: Global, source: R) -> io::Result<Vec<u8>> {
    let mut bytes = Vec::new(heap);
    source.take(LIMIT).read_to_end(&mut bytes)?;
    Ok(bytes)
}

// The first bytes of a file; a missing file counts as empty.
fn read_file(rt: &HostRuntime, path: &str) -> io::Result<Vec<u8>> {
    match File::open(rt, path) {
        Ok(file) => read_some(rt.alloc(), file),
        Err(error) if error.kind() == ErrorKind::NotFound => Ok(Vec::new(rt.alloc())),
        Err(error) => Err(error),
    }
}

fn main(rt: HostRuntime) -> io::Result<()> {
    let card = read_file(&rt, "element.card")?;
    let file = read_file(&rt, "sheet.pgm")?;
    let input = read_some(rt.alloc(), rt.stdin())?;
    let printed = run_job(
        rt.alloc(),
        card.as_slice(),
        file.as_slice(),
        input.as_slice(),
    )?;
    rt.print(printed)
}
