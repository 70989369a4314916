// The lines of an input, one after another.
ghost use Rattle.std.specs.Prelude.{◌≡◌, ◌≤◌, ◌==◌, length, position};
ghost use Rattle.std.specs.Option.{unwrap_or};
ghost use Rattle.std.specs.Iterator.{YieldsFirstRef, item_count};
ghost use Rattle.jobs.specs.Lines.{lines_of};

// The lines of what is left of an input. A newline ends a line, and the last may lack it; unlike `split`, no empty line
// follows a last newline.
#[derive(Drop)]
pub(crate) struct Lines<'a>(pub(crate) &'a [u8]);

impl<'a> Iterator for Lines<'a> {
    type Item = &'a [u8];

    ghost next_gives = { YieldsFirstRef (λ s. lines_of s.0.now) };

    ghost remaining = { item_count (λ s. lines_of s.0.now) };

    fn next(&mut self) -> Option<&'a [u8]> {
        if self.0.is_empty() {
            return None;
        }
        let (line, rest) = self.0.split_at(line_end(self.0));
        self.0 = &rest[rest.len().min(1)..];
        Some(line)
    }
}

// Where the first line ends: at the first newline, or at the end of the input.
fn line_end(input: &[u8]) -> usize
    ensures first { result ≡ unwrap_or (position (λ b. b == 10) input.now) (length input.now) }
    ensures within { result ≤ length input.now }
{
    input
        .iter()
        .position(|b| *b == b'\n')
        .unwrap_or(input.len())
}
