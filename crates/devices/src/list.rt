ghost use Rattle.std.specs.Prelude.{◌≡◌, ◌≤◌, true, [], ◌∷◌, length, take, slice_get};
ghost use Rattle.devices.specs.Records.{kept};

use crate::record::Record;
use backend::shape::Shape;

/// A device that keeps its marks in two lent slices: a record for each, and the bytes of all texts.
// The memory is the caller's, as nothing here is on a heap, so a count stands beside each slice.
#[derive(Drop)]
pub struct ListDevice<'a> {
    records: &'a mut [Record],
    text: &'a mut [u8],
    used: usize,
    filled: usize,
    ghost few: { used ≤ length records.now },
    ghost short: { filled ≤ length text.now },
    ghost inside: { kept filled (take used records.now) ≡ true },
}

impl<'a> ListDevice<'a> {
    ghost use Rattle.devices.specs.Lists.{emptied, list_model, marks_of, room_of};
    ghost use Rattle.devices.specs.Listed.{held_by, listed, seen};

    /// An empty list over two slices of any lengths, which stay as they are.
    pub fn new(records: &'a mut [Record], text: &'a mut [u8]) -> ListDevice<'a>
        ensures held { held_by result ≡ emptied records.old text.old }
        ensures model { listed result ≡ list_model (emptied records.old text.old) (records.entry.ghost_name ∷ (text.entry.ghost_name ∷ [])) }
    {
        ListDevice {
            records,
            text,
            used: 0,
            filled: 0,
        }
    }

    /// How many marks it holds.
    pub fn len(&self) -> usize
        ensures { result ≡ length (marks_of (held_by self.now)) }
    {
        self.used
    }

    /// How many records and how many bytes of text are left.
    pub fn room(&self) -> (usize, usize)
        ensures { result ≡ room_of (held_by self.now) }
    {
        (
            self.records.len() - self.used,
            self.text.len() - self.filled,
        )
    }

    /// The k-th mark, its text borrowed from the lent bytes; none past the last.
    pub fn get(&self, k: usize) -> Option<Shape<'_>>
        ensures { seen result ≡ slice_get (marks_of (held_by self.now)) k }
    {
        let record = self.records[..self.used].get(k)?;
        Some(record.shape(self.text))
    }
}

mod keep;
