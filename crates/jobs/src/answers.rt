// The printed line of an answer.
ghost use Rattle.std.specs.Prelude.{◌≡◌, ◌≤◌, ◌++◌, length, IfOk, codes, string_bytes};
ghost use Rattle.commands.specs.Lines.{spaced};
ghost use Rattle.jobs.specs.Answers.{answer_text, counted};

use faults::JobFault;
use std::alloc::{AllocError, Global};

// The line of an accepted call: each number that it tells stands after a blank.
fn numbers_line(heap: Global, numbers: &[u64]) -> Result<String, AllocError>
    ensures { IfOk result (λ s. string_bytes s ≡ codes "=" ++ spaced numbers.now ++ codes "\n") }
{
    let mut text = String::from_str(heap, "=")?;
    for number in numbers {
        let printed = format!(in heap; " {number}")?;
        text.push_str(printed.as_str())?;
    }
    text.push_str("\n")?;
    Ok(text)
}

// The line that is printed for the answer to a job line, which tells so many numbers at the front of a list.
pub(crate) fn answer_line(
    heap: Global,
    line: usize,
    answer: Result<usize, JobFault>,
    list: &[u64],
) -> Result<String, AllocError>
    requires { IfOk answer (λ count. count ≤ length list.now) }
    ensures { IfOk result (λ s. string_bytes s ≡ answer_text line (counted answer list.now) ++ codes "\n") }
{
    // Not the `Answer` of cases: a job's refusal has a line, a layer and a place.
    match answer {
        Ok(count) => numbers_line(heap, &list[..count]),
        Err(fault) => format!(in heap; "! {line} {fault}\n"),
    }
}
