ghost use Rattle.std.specs.Prelude.{◌≡◌, Some};
ghost use Rattle.size.specs.Refusals.{number_of, refused_text};

use std::error::Error;
use std::fmt;

/// Why a call was refused: one list for the whole library, each case with its number.
#[derive(Clone, Copy, PartialEq, Eq, Debug)]
pub enum Refusal {
    /// 1: a size, a count, a field of a mark or a limit of an axis is beyond its range, or not a number.
    Range,
    /// 2: the result is a rectangle that no area may be.
    NoArea,
    /// 3: the label areas outside the plot leave it under 1 pixel.
    NoPlot,
    /// 4: a label area that overlaps the plot is larger than the plot.
    Overlap,
    /// 5: a caption or a description is over 64 bytes long.
    LongText,
    /// 6: the device has no measure for the caption.
    NoMeasure,
    /// 7: the device refused a mark, by its own number, after the call had put so many.
    Device { number: u8, count: usize },
    /// 8: the ends of an axis, a number of stations or a size of letters is out of its range.
    Scale,
    /// 9: what was lent is too short.
    Short,
    /// 10: no header and no mark starts at this byte of a stream.
    NoMark { place: usize },
}

/// The number that stands for the refusal in every statement and every file.
impl From<Refusal> for u8 {
    ghost from_gives = { λ e n. n ≡ number_of e };

    fn from(e: Refusal) -> u8 {
        match e {
            Refusal::Range => 1,
            Refusal::NoArea => 2,
            Refusal::NoPlot => 3,
            Refusal::Overlap => 4,
            Refusal::LongText => 5,
            Refusal::NoMeasure => 6,
            Refusal::Device { .. } => 7,
            Refusal::Scale => 8,
            Refusal::Short => 9,
            Refusal::NoMark { .. } => 10,
        }
    }
}

/// By its number, as `refused 2`.
impl fmt::Display for Refusal {
    ghost output = { λ e. Some (refused_text e) };

    fn fmt<W: fmt::Write>(&self, f: &mut fmt::Formatter<W>) -> fmt::Result {
        let number = u8::from(*self);
        write!(f, "refused {number}")
    }
}

impl Error for Refusal {}
