// The run of a job: from the bytes of a card, a picture file and job lines to the printed lines.
ghost use Rattle.std.specs.Prelude.{◌≡◌, ◌≤◌, ◌++◌, codes, map, length, IfOk, string_bytes, OnOk};
ghost use Rattle.in_use.specs.InUse.{bench_of};
ghost use Rattle.jobs.specs.Answers.{answer_text, counted};
ghost use Rattle.jobs.specs.Lines.{lines_of};
ghost use Rattle.jobs.specs.Runs.{opened_bench, printed, printed_lines};
ghost use Rattle.jobs.specs.Theorems.{ForgettingJobs, OneAnswerALine, RefusedLinesChangeNothing, SumsOfCutJobs};
ghost use Rattle.levels.specs.Gray.{gray_height};

use crate::answers::answer_line;
use crate::job::Job;
use crate::lines::Lines;
use crate::prepare::{gray_levels, prepare};
use elements::Element;
use faults::JobFault;
use in_use::{BenchInUse, Sizes};
use levels::Gray;
use limits::Sides;
use std::alloc::{AllocError, Global};

// Adds the printed line of an answer.
fn print_answer(
    heap: Global,
    line: usize,
    answer: Result<usize, JobFault>,
    list: &[u64],
    out: &mut String,
) -> Result<(), AllocError>
    requires { IfOk answer (λ count. count ≤ length list.now) }
    ensures { OnOk result (string_bytes out.new ≡ string_bytes out.old ++ (answer_text line (counted answer list.now) ++ codes "\n")) }
{
    let text = answer_line(heap, line, answer, list)?;
    out.push_str(text.as_str())
}

// Obeys the lines of an input one after another.
fn run_lines(heap: Global, job: &mut Job<'_, '_>, input: &[u8]) -> Result<String, AllocError>
    ensures { IfOk result (λ out. string_bytes out ≡
        printed_lines job.old.element (map gray_height job.old.picture.now)
        (bench_of gray_height job.old.bench) 1 (lines_of input.now)) }
{
    let mut out = String::new(heap);
    // The numbers that a line tells: at most the entries of a spectrum to depth 64.
    let mut list = [0; 129];
    for (index, line) in Lines(input).enumerate() {
        let answer = job.obey(line, &mut list);
        print_answer(heap, index + 1, answer, &list, &mut out)?;
    }
    Ok(out)
}

// Runs the lines on a bench of four sheet places and one tally, for a picture of these sides; a visit that
// is open at the end is ended silently.
fn run_picture(
    heap: Global,
    element: Element,
    cells: &[u8],
    sides: Sides,
    input: &[u8],
) -> Result<String, AllocError>
    ensures { IfOk result (λ out. string_bytes out ≡
        printed_lines element cells.now (opened_bench sides.w sides.h) 1 (lines_of input.now)) }
{
    let picture = gray_levels(heap, cells)?;
    let mut levels = vec![in heap; Gray::new(0); 6 * sides.cells()]?;
    let mut numbers = vec![in heap; 0; sides.cells()]?;
    let Sides { w, h } = sides;
    let sheets = Sizes { w, h, places: 4 };
    let tallies = Sizes { w, h, places: 1 };
    let bench = BenchInUse::open(
        levels.as_mut_slice(),
        sheets,
        numbers.as_mut_slice(),
        tallies,
    );
    let picture = picture.as_slice();
    let mut job = Job {
        element,
        picture,
        bench,
    };
    let printed = run_lines(heap, &mut job, input);
    // Taken apart: a bench in use has no drop.
    let _ = job.bench.end();
    let Job {
        element: _,
        picture: _,
        bench: BenchInUse {
            rack: _,
            slate: _,
            slip: None,
        },
    } = job
    else {
        unreachable!()
    };
    printed
}

/// Runs a job: tells what is printed for the bytes of an element card, of a picture file and of job lines.
/// A fault of the card, of the picture or a side above 96 is printed with line 0, and is then all; else there is an
/// answer for each line. Errs only for want of memory. What holds of every job is stated in `specs/Theorems.antt`.
#[tactic(auto, using(crate::proofs::CutJobs::sums_of_cut_jobs, crate::proofs::JobLaws::refused_lines_change_nothing))]
pub fn run_job(heap: Global, card: &[u8], file: &[u8], input: &[u8]) -> Result<String, AllocError>
    ensures printed { IfOk result (λ out. string_bytes out ≡ printed card.now file.now input.now) }
    ensures lines { OneAnswerALine }
    ensures sums { SumsOfCutJobs }
    ensures forgetting { ForgettingJobs }
    ensures refused { RefusedLinesChangeNothing }
{
    match prepare(card, file) {
        Ok(job) => run_picture(heap, job.element, &file[job.start..], job.sides, input),
        // Line 0 and no `Option`: the printed line has a number there, and the fault is of no line.
        Err(fault) => answer_line(heap, 0, Err(fault), &[]),
    }
}
