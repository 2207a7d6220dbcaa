ghost use Rattle.std.specs.Prelude.{◌≡◌, ◌+◌, true, length};
ghost use Rattle.backend.specs.Marks.{shape_value};
ghost use Rattle.devices.specs.Records.{inside, mark_in, record_from, text_in};

use backend::shape::{Lettering, Shape, Stroke};

/// A mark as a list keeps it: a text by where its bytes begin and how many they are.
// Places and not a slice: a record cannot borrow from the bytes that the list is lent to write.
#[derive(Clone, Copy, PartialEq, Eq, Debug)]
pub enum Record {
    Line(Stroke),
    Text(Lettering, usize, usize),
    End,
}

impl Record {
    // The record of a shape whose text, if it is one, begins at `at`, and the bytes of the text.
    pub(crate) fn of<'a>(shape: Shape<'a>, at: usize) -> (Record, &'a [u8])
        ensures record { result.0 ≡ record_from shape.entry at (length (text_in shape.entry)) }
        ensures text { result.1.now ≡ text_in shape.entry }
        ensures inside { inside (at + length result.1.now) result.0 ≡ true }
    {
        match shape {
            Shape::Line(stroke) => (Record::Line(stroke), &[]),
            Shape::Text(lettering, bytes) => (Record::Text(lettering, at, bytes.len()), bytes),
            Shape::End => (Record::End, &[]),
        }
    }

    // The shape of the record, its text a part of these bytes.
    pub(crate) fn shape(self, bytes: &[u8]) -> Shape<'_>
        requires { inside (length bytes.now) self ≡ true }
        ensures { shape_value result ≡ mark_in bytes.now self }
    {
        match self {
            Record::Line(stroke) => Shape::Line(stroke),
            Record::Text(lettering, at, n) => Shape::Text(lettering, &bytes[at..at + n]),
            Record::End => Shape::End,
        }
    }
}
