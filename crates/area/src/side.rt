ghost use Rattle.std.specs.Prelude.{◌≡◌, ◌≤◌, ◌&&◌, pos, ◌+ℤ◌, ◌-ℤ◌, int_le, int_lt, unsigned_abs};
ghost use Rattle.area.specs.Corners.{Span};
ghost use Rattle.area.specs.Insets.{begin_of, end_of};

use crate::offset::Offset;
use size::refusal::Refusal;
use std::ops::Range;

/// The columns of an area, or its rows: from `from` on and before `to`, which are in order and not beyond 30,000 either
/// way.
#[derive(Clone, Copy, PartialEq, Eq, Debug)]
pub(crate) struct Side {
    pub(crate) from: i32,
    pub(crate) to: i32,
    ghost span: { Span from to },
}

impl Side {
    ghost use Rattle.area.specs.Ends.{AreSides, IsSide};

    // The side with these ends; refused where no side may have them.
    pub(crate) fn new(from: i32, to: i32) -> Result<Side, Refusal>
        ensures { IsSide from to result }
    {
        if from <= to && -30000 <= from && to <= 30000 {
            Ok(Side { from, to })
        } else {
            Err(Refusal::NoArea)
        }
    }

    // How many pixels there are from one end to the other.
    pub(crate) fn length(self) -> u32
        ensures value { result ≡ unsigned_abs (self.to -ℤ self.from) }
        ensures bound { result ≤ 60000 }
        ensures sum { self.from +ℤ pos result ≡ self.to }
    {
        (self.to - self.from) as u32
    }

    pub(crate) fn contains(self, at: i32) -> bool
        ensures { result ≡ (int_le self.from at && int_lt at self.to) }
    {
        Range::from(self).contains(&at)
    }

    // What is left without so many pixels at the start and at the end.
    pub(crate) fn inset(self, start: Offset, end: Offset) -> Result<Side, Refusal>
        ensures { IsSide (self.from +ℤ start) (self.to -ℤ end) result }
    {
        Side::new(self.from + start.pixels, self.to - end.pixels)
    }

    // The part that begins `start` pixels after the first but not past the end, and ends `length` pixels on.
    pub(crate) fn shrink(self, start: Offset, length: Offset) -> Result<Side, Refusal>
        ensures { let begin = begin_of self.from self.to start in IsSide begin (end_of begin length) result }
    {
        let begin = self.to.min(self.from + start.pixels);
        Side::new(begin, begin.max(begin + length.pixels))
    }

    // The part before the pixel `at`, counted from the first, and the part from there on.
    pub(crate) fn split(self, at: Offset) -> Result<(Side, Side), Refusal>
        ensures { AreSides self.from (self.from +ℤ at) self.to result }
    {
        let middle = self.from + at.pixels;
        // between the ends of a side both parts are sides, so one test serves for both
        if middle < self.from || self.to < middle {
            return Err(Refusal::NoArea);
        }
        Ok((
            Side {
                from: self.from,
                to: middle,
            },
            Side {
                from: middle,
                to: self.to,
            },
        ))
    }
}

impl From<Side> for Range<i32> {
    ghost from_gives = { λ s r. r ≡ record { start = s.from; end = s.to } };

    fn from(side: Side) -> Range<i32> {
        side.from..side.to
    }
}
