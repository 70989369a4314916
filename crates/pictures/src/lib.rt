//! Picture files: how the header of one is read, and what is refused.
#![tactic(auto)]

ghost use Rattle.std.specs.Prelude.{◌≡◌, ◌≤◌, [], ◌∷◌, length, IfOk, Ok, Err, MatchResult};
ghost use Rattle.pictures.specs.declared.PictureFault.TheVariants.{Header};
ghost use Rattle.pictures.specs.Headers.{height_place, picture_fault_number, picture_fault_place, Fills};
ghost use Rattle.pictures.specs.Reading.{read, picture_of_sides, ScansAs, ReadsBackPictures, ReadsOnlyPictures, RefusesWhatIsWrong};

use text::{Misfit, Scanner};

/// The sides of a picture, and the place of its first cell in the file.
#[derive(Clone, Copy, Debug, PartialEq, Eq)]
pub struct Picture {
    pub width: usize,
    pub height: usize,
    pub start: usize,
}

/// Why a file is refused, with the place of the byte in question, from 0.
#[derive(Clone, Copy, Debug, PartialEq, Eq)]
pub enum PictureFault {
    /// 19: the header is not of the form, at its first misfit, or at the file's end where it ends inside the header.
    Header(usize),
    /// 1: a side is above 1,024, at the first digit of the first such side.
    Side(usize),
    /// 20: the file is too short, at its end, or too long, at the first byte too many.
    Length(usize),
}

impl PictureFault {
    /// The refusal's number: 19, 1 or 20.
    // By match, as each variant carries a place.
    pub fn number(self) -> u32
        ensures { result ≡ picture_fault_number self }
    {
        match self {
            PictureFault::Header(_) => 19,
            PictureFault::Side(_) => 1,
            PictureFault::Length(_) => 20,
        }
    }

    /// The place of the byte in question.
    pub fn place(self) -> usize
        ensures { result ≡ picture_fault_place self }
    {
        match self {
            PictureFault::Header(place) | PictureFault::Side(place) | PictureFault::Length(place) =>
                place,
        }
    }
}

impl From<Misfit> for PictureFault {
    ghost from_gives = { λ misfit fault. fault ≡ Header misfit.place };

    fn from(misfit: Misfit) -> PictureFault {
        PictureFault::Header(misfit.place)
    }
}

// The largest side that a picture may have.
const LARGEST_SIDE: u16 = 1_024;

// The place of the width's first digit, after `P5` and a newline.
const WIDTH_DIGIT: usize = 3;

// What a header tells, and the place of the height's first digit.
#[derive(Clone, Copy)]
struct Header {
    width: u16,
    height: u16,
    height_digit: usize,
    start: usize,
}

/// The sides of the picture in a file, and where its cells begin.
///
/// The file is `P5` and a newline; the width, a blank, the height and a newline; `255` and a newline; then one byte
/// for each cell. A side has one to four digits, the first not 0.
/// Refuses, in this order, 19 a header not of this form, 1 a side above 1,024, 20 too few or too many bytes after the header.
pub fn read_picture(bytes: &[u8]) -> Result<Picture, PictureFault>
    ensures answers { result ≡ read bytes.now }
    ensures within { IfOk result (Fills bytes.now) }
    ensures back { ReadsBackPictures }
    ensures only { ReadsOnlyPictures }
    ensures wrong { RefusesWhatIsWrong }
{
    let header = read_header(bytes)?;
    check_size(header, bytes)
}

// The sides in the header that the file starts with.
fn read_header(bytes: &[u8]) -> Result<Header, Misfit>
    ensures answers { MatchResult result
        (λ s. ScansAs bytes.now (Ok (record { numbers = s.width ∷ s.height ∷ []; end = s.start })))
        (λ misfit. ScansAs bytes.now (Err misfit)) }
    ensures within { IfOk result (λ s. (s.height_digit ≡ height_place s.width) × (s.start ≤ length bytes.now)) }
{
    let mut scanner = Scanner::new(bytes);
    scanner.fixed(b"P5\n")?;
    let width = scanner.number(1)?;
    scanner.fixed(b" ")?;
    let height_digit = scanner.at;
    let height = scanner.number(1)?;
    scanner.fixed(b"\n255\n")?;
    Ok(Header {
        width,
        height,
        height_digit,
        start: scanner.at,
    })
}

// The picture of this header, in this file.
// Its sides are not tried by `limits::Sides`: the refusal tells at which digit the side stands.
fn check_size(header: Header, bytes: &[u8]) -> Result<Picture, PictureFault>
    requires { (header.height_digit ≡ height_place header.width) × (header.start ≤ length bytes.now) }
    ensures { result ≡ picture_of_sides header.width header.height header.start (length bytes.now) }
{
    if header.width > LARGEST_SIDE {
        return Err(PictureFault::Side(WIDTH_DIGIT));
    }
    if header.height > LARGEST_SIDE {
        return Err(PictureFault::Side(header.height_digit));
    }
    let width = usize::from(header.width);
    let height = usize::from(header.height);
    let end = header.start + width * height;
    if bytes.len() != end {
        return Err(PictureFault::Length(bytes.len().min(end)));
    }
    Ok(Picture {
        width,
        height,
        start: header.start,
    })
}
