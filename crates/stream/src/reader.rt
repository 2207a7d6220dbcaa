ghost use Rattle.std.specs.Prelude.{◌≡◌, ◌≤◌, length};

use backend::mark::Mark;
use codec::parse::{read_header, read_mark};
use size::refusal::Refusal;

/// Reads the marks of a stream one by one.
#[derive(Clone, Copy)]
pub struct StreamReader<'a> {
    // Both slices, since the place of a mark is what their lengths differ by.
    input: &'a [u8],
    rest: &'a [u8],
    ghost within: { length rest.now ≤ length input.now },
}

impl<'a> StreamReader<'a> {
    ghost use Rattle.stream.specs.Readers.{Next, after_next, left_in, next_of, opened_by, opens, place_of, read_by};

    /// A reader of these bytes, past their header; refused with 10 and place 0 where no header starts.
    pub fn new(input: &'a [u8]) -> Result<StreamReader<'a>, Refusal>
        ensures { opened_by result ≡ opens input.now }
    {
        let rest = read_header(input).ok_or(Refusal::NoMark { place: 0 })?;
        Ok(StreamReader { input, rest })
    }

    /// How many bytes have been read: the place at which the next mark starts.
    pub fn place(&self) -> usize
        ensures { result ≡ place_of (left_in self.now) }
    {
        self.input.len() - self.rest.len()
    }

    /// The next mark, its text a part of the input; none at the end of the bytes. Refused with 10 and the place where no mark
    /// starts, and then nothing is passed over.
    pub fn next_mark(&mut self) -> Result<Option<Mark<'a>>, Refusal>
        ensures answer { read_by result ≡ next_of (left_in self.old).rest (place_of (left_in self.old)) }
        ensures after { left_in self.new ≡ after_next (left_in self.old) }
        ensures right { Next (left_in self.old).rest (read_by result) (left_in self.new).rest }
    {
        if self.rest.is_empty() {
            return Ok(None);
        }
        let place = self.place();
        let (mark, rest) = read_mark(self.rest).ok_or(Refusal::NoMark { place })?;
        self.rest = rest;
        Ok(Some(mark))
    }
}
