//! What the readers of job lines and of picture headers share: fixed bytes and numbers in text.
#![tactic(auto)]

ghost use Rattle.std.specs.Prelude.{◌≡◌, ◌<◌, ◌≤◌, ◌==◌, length, take, drop, IfErr, OnErr};
ghost use Rattle.std.specs.List.{common_prefix_len};
ghost use Rattle.std.specs.Str.Parse.{AllDigits, digits_value};
ghost use Rattle.text.specs.Forms.{TellsFixed};
ghost use Rattle.text.specs.Pieces.{digit_count, fixed_at, number_at, end_or_misfit, with_end, TellsNumber};

/// The place of the first byte that does not fit, or the text's length where it ends too early.
#[derive(Clone, Copy)]
pub struct Misfit {
    pub place: usize,
}

/// A text, and the place up to which it has been read.
// The place has no ghost field: a public call requires nothing of it, and the contracts tell what holds of any place.
#[derive(Clone, Copy)]
pub struct Scanner<'t> {
    pub bytes: &'t [u8],
    pub at: usize,
}

impl<'t> Scanner<'t> {
    /// A text of which nothing has been read.
    pub fn new(bytes: &'t [u8]) -> Self
        ensures text { result.bytes.now ≡ bytes.now }
        ensures start { result.at ≡ 0 }
    {
        Scanner { bytes, at: 0 }
    }

    /// Reads the bytes `wanted`.
    /// Refuses a text in which they do not stand next, at the first byte that is another, or at its end.
    pub fn fixed(&mut self, wanted: &[u8]) -> Result<(), Misfit>
        ensures answers { end_or_misfit self.new.at result ≡ fixed_at wanted.now self.old.bytes.now self.old.at }
        ensures tells { self.old.at ≤ length self.old.bytes.now →
            TellsFixed wanted.now self.old.bytes.now self.old.at (end_or_misfit self.new.at result) }
        ensures within { self.old.at ≤ length self.old.bytes.now →
            (self.new.at ≤ length self.old.bytes.now) × IfErr result (λ misfit. misfit.place ≤ length self.old.bytes.now) }
        ensures same_text { self.new.bytes.now ≡ self.old.bytes.now }
        ensures err { OnErr result (self.new.at ≡ self.old.at) }
    {
        let matching = count_matching(wanted, self.rest());
        if matching < wanted.len() {
            return Err(Misfit {
                place: self.at + matching,
            });
        }
        self.at += matching;
        Ok(())
    }

    /// Reads a number: as many digits as stand next, at most four, or a 0 alone, so that it has no leading zero.
    /// Refuses a text with no digit next, or with a number below `least`, at that place.
    pub fn number(&mut self, least: u16) -> Result<u16, Misfit>
        ensures answers { with_end self.new.at result ≡ number_at least self.old.bytes.now self.old.at }
        ensures tells { TellsNumber least self.old.bytes.now self.old.at (with_end self.new.at result) }
        ensures within { self.old.at ≤ length self.old.bytes.now →
            (self.new.at ≤ length self.old.bytes.now) × IfErr result (λ misfit. misfit.place ≤ length self.old.bytes.now) }
        ensures same_text { self.new.bytes.now ≡ self.old.bytes.now }
        ensures err { OnErr result (self.new.at ≡ self.old.at) }
    {
        let text = self.rest();
        let count = count_digits(text);
        let value = read_digits(&text[..count]);
        if count == 0 || value < least {
            return Err(Misfit { place: self.at });
        }
        self.at += count;
        Ok(value)
    }

    // What has not been read yet; nothing where the place lies past the end.
    fn rest(&self) -> &'t [u8]
        ensures { result.now ≡ drop self.now.at self.now.bytes.now }
    {
        self.bytes.get(self.at..).unwrap_or(&[])
    }
}

// How many of the bytes `wanted` the text starts with.
fn count_matching(wanted: &[u8], text: &[u8]) -> usize
    ensures value { result ≡ common_prefix_len (λ w b. w == b) wanted.now text.now }
    ensures within { (result ≤ length wanted.now) × (result ≤ length text.now) }
{
    wanted
        .iter()
        .zip(text)
        .take_while(|(wanted, byte)| wanted == byte)
        .count()
}

// How many bytes the number has that `text` starts with: 0 where it starts with no digit.
fn count_digits(text: &[u8]) -> usize
    ensures value { result ≡ digit_count text.now }
    ensures within { (result ≤ length text.now) × (result ≤ 4) }
    ensures digits { AllDigits 10 (take result text.now) }
{
    if text.starts_with(b"0") {
        return 1;
    }
    text.iter()
        .take(4)
        .take_while(|byte| byte.is_ascii_digit())
        .count()
}

// The number that at most four digits write.
fn read_digits(digits: &[u8]) -> u16
    requires { (length digits.now ≤ 4) × (AllDigits 10 digits.now) }
    ensures { result ≡ digits_value 10 digits.now }
{
    let mut value: u16 = 0;
    for digit in digits {
        value = value * 10 + u16::from(*digit - b'0');
    }
    value
}
