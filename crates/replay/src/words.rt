ghost use Rattle.std.specs.Prelude.{◌≡◌, ◌+◌, ◌<◌, ◌≤◌, ◌∷◌, length, is_ok, IfOk, MatchOption, MatchResult, OnOk, ◌==◌, slice_index_or};
ghost use Rattle.replay.specs.Lines.{Takes, left};

use crate::fault::Unread;
use size::kinds::Size;
use size::relative::RelativeSize;
use std::str::FromStr;

/// The words of a line that are still to be read.
#[derive(Drop)]
pub struct Words<'a> {
    rest: &'a [&'a str],
}

/// One bound of a share, in pixels.
#[derive(Clone, Copy, Debug)]
enum Bound {
    Min(i32),
    Max(i32),
}

impl<'a> Words<'a> {
    /// The words of a whole line.
    pub fn new(words: &'a [&'a str]) -> Words<'a>
        ensures { left result ≡ length words.now }
    {
        Words { rest: words }
    }

    /// Takes the next word.
    pub fn next(&mut self) -> Result<&'a str, Unread>
        ensures count { MatchResult result (λ _. left self.new + 1 ≡ left self.old) (λ _. left self.old ≡ 0) }
        ensures word { IfOk result (λ w. self.old.rest.now ≡ w ∷ self.new.rest.now) }
    {
        // A pattern: a field set from what `split_first` lends is not covered by the borrow checker.
        let [first, rest @ ..] = self.rest else {
            return Err(Unread);
        };
        self.rest = rest;
        Ok(*first)
    }

    /// The next word, which is not taken.
    pub fn peek(&self) -> Option<&'a str>
        ensures { MatchOption result (left self.now ≡ 0) (λ w. (0 < left self.now) × (w ≡ slice_index_or self.now.rest.now 0 w)) }
    {
        self.rest.first().copied()
    }

    /// Takes the next word, which must be `word`.
    pub fn expect(&mut self, word: &str) -> Result<(), Unread>
        ensures { OnOk result (left self.new + 1 ≡ left self.old) }
    {
        if self.next()? == word {
            Ok(())
        } else {
            Err(Unread)
        }
    }

    /// Takes the next word, a number.
    pub fn number<T: FromStr>(&mut self) -> Result<T, Unread>
    where
        T::Err: Drop,
        ensures { OnOk result (left self.new + 1 ≡ left self.old) }
    {
        self.next()?.parse::<T>().map_err(|_| Unread)
    }

    /// Takes the next two words, whole numbers.
    pub fn pair(&mut self) -> Result<(i32, i32), Unread>
        ensures { Takes result self.old self.new }
    {
        Ok((self.number::<i32>()?, self.number::<i32>()?))
    }

    /// Refuses a line that goes on.
    pub fn done(&self) -> Result<(), Unread>
        ensures { is_ok result ≡ (left self.now == 0) }
    {
        if self.rest.is_empty() {
            Ok(())
        } else {
            Err(Unread)
        }
    }

    /// Takes a size of any kind: `px N`, `upx N`, `real F`, or `w|h|s F` and any number of `min N` and `max N`.
    pub fn size(&mut self) -> Result<Size, Unread>
        ensures { Takes result self.old self.new }
    {
        match self.next()? {
            "px" => Ok(Size::Pixels(self.number::<i32>()?)),
            "upx" => Ok(Size::Unsigned(self.number::<u32>()?)),
            "real" => Ok(Size::Real(self.number::<f64>()?)),
            kind => self.share(kind),
        }
    }

    // What follows the name of a share's side.
    fn share(&mut self, side: &str) -> Result<Size, Unread>
        ensures { Takes result self.old self.new }
    {
        let part = self.number::<f64>()?;
        match side {
            "w" => self.bounded(RelativeSize::Width(part)),
            "h" => self.bounded(RelativeSize::Height(part)),
            "s" => self.bounded(RelativeSize::Smaller(part)),
            _ => Err(Unread),
        }
    }

    // The share with the bounds that follow it, of which a later one replaces an earlier; where none follows, the share itself.
    fn bounded(&mut self, share: RelativeSize) -> Result<Size, Unread>
        ensures taken { OnOk result (left self.new ≤ left self.old) }
        ensures alone { IfOk result (λ size. left self.new ≡ left self.old → size ≡ Size.Relative share) }
    {
        let Some(first) = self.bound()? else {
            return Ok(Size::Relative(share));
        };
        let mut size = match first {
            Bound::Min(n) => share.min(n),
            Bound::Max(n) => share.max(n),
        };
        while let Some(bound) = self.bound()? {
            size = match bound {
                Bound::Min(n) => size.min(n),
                Bound::Max(n) => size.max(n),
            };
        }
        Ok(Size::Bounded(size))
    }

    // The bound that comes next, if one does.
    fn bound(&mut self) -> Result<Option<Bound>, Unread>
        ensures { IfOk result (λ b. MatchOption b (left self.new ≡ left self.old) (λ _. left self.new < left self.old)) }
    {
        match self.peek() {
            Some("min") => {
                self.next()?;
                Ok(Some(Bound::Min(self.number::<i32>()?)))
            }
            Some("max") => {
                self.next()?;
                Ok(Some(Bound::Max(self.number::<i32>()?)))
            }
            _ => Ok(None),
        }
    }
}
