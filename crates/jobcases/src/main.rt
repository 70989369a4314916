// The program jobcases: runs the jobs of a list of cases, and prints what each tells.
#![tactic(auto)]

mod texts;

use jobs::run_job;
use std::io;
use std::io::{BufRead, BufReader, ErrorKind};
use texts::unescape;

// A case is a line `# name` and then the lines `card`, `file` and `lines`, each with a text.
fn main(rt: HostRuntime) -> io::Result<()> {
    let heap = rt.alloc();
    let mut card = Vec::new(heap);
    let mut file = Vec::new(heap);
    for line in BufReader::new(heap, rt.stdin())?.lines(heap) {
        let line = line?;
        let (word, text) = line.as_str().split_once(' ').unwrap_or((line.as_str(), ""));
        // A match: the words are the format.
        match word {
            "#" => rt.println(line.as_str())?,
            "card" => card = unescape(heap, text)?,
            "file" => file = unescape(heap, text)?,
            "lines" => {
                let input = unescape(heap, text)?;
                rt.print(run_job(heap, card.as_slice(), file.as_slice(), input.as_slice())?)?;
            }
            _ => return Err(ErrorKind::InvalidInput.into()),
        }
    }
    Ok(())
}
