// A job: what each command and each line does.
ghost use Rattle.std.specs.Prelude.{◌≡◌, ◌≤◌, length, map, take, IfOk, Ok};
ghost use Rattle.std.specs.Result.{result_map_both};
ghost use Rattle.faults.specs.declared.JobFault.TheVariants as fault_of;
ghost use Rattle.in_use.specs.InUse.{bench_of};
ghost use Rattle.jobs.specs.Answers.{counted};
ghost use Rattle.jobs.specs.Commands.{answer_to, leaves_after, line_answer, line_leaves};
ghost use Rattle.jobs.specs.Tellings.{numbers_in};
ghost use Rattle.levels.specs.Gray.{gray_height};

use commands::{Command, read_line};
use elements::Element;
use faults::JobFault;
use in_use::{BenchInUse, Call, Told};
use levels::Gray;
use limits::Fault;

// The element and the picture of a job, and its bench.
pub(crate) struct Job<'a, 'b> {
    pub(crate) element: Element,
    pub(crate) picture: &'a [Gray],
    pub(crate) bench: BenchInUse<'b, Gray>,
}

// How many numbers a line tells of what its call tells: they then stand at the front of the list. So many entries of a spectrum do already.
fn tell(told: Told<Gray>, written: usize, list: &mut [u64]) -> usize
    requires room { 1 ≤ length list.old }
    requires within { written ≤ length list.old }
    ensures numbers { take result list.new ≡ numbers_in (take written list.old) told }
    ensures within { result ≤ length list.new }
{
    match told {
        Told::Area { area } => {
            list[0] = area;
            1
        }
        Told::Spectrum => written,
        _ => 0,
    }
}

impl Job<'_, '_> {
    // Makes the call that a command stands for, and tells how many numbers its line tells, which are at the front of the list.
    fn perform(&mut self, command: Command, list: &mut [u64]) -> Result<usize, Fault>
        requires { length list.old ≡ 129 }
        ensures answers { result_map_both (λ count. take count list.new) fault_of.Bench result ≡
            answer_to self.old.element (map gray_height self.old.picture.now) (bench_of gray_height self.old.bench) (Ok command) }
        ensures steps { bench_of gray_height self.new.bench ≡
            leaves_after self.old.element (map gray_height self.old.picture.now) (bench_of gray_height self.old.bench) (Ok command) }
        ensures within { IfOk result (λ count. count ≤ length list.new) }
        ensures element { self.new.element ≡ self.old.element }
        ensures picture { self.new.picture.now ≡ self.old.picture.now }
    {
        let bench = &mut self.bench;
        let element = &self.element;
        let picture = self.picture;
        // A match: the line says which command.
        match command {
            Command::Begin { flat } => {
                let told = bench.perform(Call::Begin { flat })?;
                Ok(tell(told, 0, list))
            }
            Command::Load { place } => {
                let place = usize::from(place);
                let told = bench.perform(Call::Load { place, picture })?;
                Ok(tell(told, 0, list))
            }
            Command::Erode { from, to } => {
                let (from, to) = (usize::from(from), usize::from(to));
                let told = bench.perform(Call::Erode { element, from, to })?;
                Ok(tell(told, 0, list))
            }
            Command::Dilate { from, to } => {
                let (from, to) = (usize::from(from), usize::from(to));
                let told = bench.perform(Call::Dilate { element, from, to })?;
                Ok(tell(told, 0, list))
            }
            Command::Open { size, from, to } => {
                let (size, from, to) = (usize::from(size), usize::from(from), usize::from(to));
                let told = bench.perform(Call::Open {
                    element,
                    size,
                    from,
                    to,
                })?;
                Ok(tell(told, 0, list))
            }
            Command::Close { size, from, to } => {
                let (size, from, to) = (usize::from(size), usize::from(from), usize::from(to));
                let told = bench.perform(Call::Close {
                    element,
                    size,
                    from,
                    to,
                })?;
                Ok(tell(told, 0, list))
            }
            Command::Area { place } => {
                let place = usize::from(place);
                let told = bench.perform(Call::Area { place })?;
                Ok(tell(told, 0, list))
            }
            Command::Spectrum { depth, place } => {
                let (depth, place) = (usize::from(depth), usize::from(place));
                let written = (2 * depth + 1).min(129);
                let (entries, _) = list.split_at_mut(written);
                let told = bench.perform(Call::Spectrum {
                    element,
                    depth,
                    place,
                    list: entries,
                })?;
                Ok(tell(told, written, list))
            }
            Command::End => {
                let told = bench.perform(Call::End)?;
                Ok(tell(told, 0, list))
            }
        }
    }

    // Does what a line says, and tells how many numbers it tells, which are at the front of the list.
    pub(crate) fn obey(&mut self, line: &[u8], list: &mut [u64]) -> Result<usize, JobFault>
        requires { length list.old ≡ 129 }
        ensures answers { counted result list.new ≡
            line_answer self.old.element (map gray_height self.old.picture.now)
            (bench_of gray_height self.old.bench) line.now }
        ensures steps { bench_of gray_height self.new.bench ≡
            line_leaves self.old.element (map gray_height self.old.picture.now)
            (bench_of gray_height self.old.bench) line.now }
        ensures within { IfOk result (λ count. count ≤ length list.new) }
        ensures element { self.new.element ≡ self.old.element }
        ensures picture { self.new.picture.now ≡ self.old.picture.now }
    {
        let command = read_line(line)?;
        Ok(self.perform(command, list)?)
    }
}
