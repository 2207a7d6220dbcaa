ghost use Rattle.std.specs.Result.{result_err};
ghost use Rattle.std.specs.Prelude.{◌≡◌, ◌+◌, ◌-◌, [], ◌∷◌, ◌++◌, length};
ghost use Rattle.size.specs.Answers.{on_ok};
ghost use Rattle.backend.specs.Devices.{Put};
ghost use Rattle.backend.specs.Marks.{mark_of};
ghost use Rattle.codec.specs.Format.{encode};
ghost use Rattle.stream.specs.Written.{Encoded, begun, beginning, front, grown, lent, room_for, stream_model};
ghost use Rattle.stream.specs.Openings.{opened};
ghost use Rattle.stream.specs.Streamed.{numbered, streamed, written_by};

use crate::device::StreamDevice;
use backend::device::Device;
use backend::mark::Mark;
use backend::shape::Shape;
use codec::encode::{HEADER, line_bytes, text_head};
use devices::refusal::PutRefusal;
use size::refusal::Refusal;

impl<'a> StreamDevice<'a> {
    /// A device over a slice of any length, which stays as it is until the stream is begun. Till then every mark is refused.
    pub fn new(out: &'a mut [u8]) -> StreamDevice<'a>
        ensures held { written_by result ≡ lent out.old }
        ensures model { streamed result ≡ stream_model (lent out.old) (out.entry.ghost_name ∷ []) }
    {
        StreamDevice {
            out,
            used: 0,
            letters: None,
        }
    }

    /// Begins a stream, with letters so many pixels wide: writes the header, and gives up a stream begun before. Refused with 8 where
    /// the width is not 1 to 100, with 9 where the slice has under 5 bytes.
    pub fn begin(&mut self, width: u32) -> Result<(), Refusal>
        ensures answer { result ≡ beginning (written_by self.old) width }
        ensures held { written_by self.new ≡ on_ok result (begun (written_by self.old) width) (written_by self.old) }
        ensures place { (streamed self.new).place ≡ (streamed self.old).place }
    {
        if !(1..=100).contains(&width) {
            return Err(Refusal::Scale);
        }
        if self.out.len() < 5 {
            return Err(Refusal::Short);
        }
        self.out[..5].copy_from_slice(&HEADER);
        self.used = 5;
        self.letters = Some(width);
        Ok(())
    }

    /// What was written: the stream of the marks; nothing where none is begun.
    pub fn bytes(&self) -> &[u8]
        ensures written { result.now ≡ front (written_by self.now) }
        ensures stream { result.now ≡ opened (written_by self.now).letters (streamed self.now).marks }
    {
        &self.out[..self.used]
    }

    // Writes the two parts of a mark's bytes after those before, where they find room in a stream that is begun.
    fn append(&mut self, head: &[u8], text: &[u8]) -> Result<(), PutRefusal>
        requires { Encoded (head.now ++ text.now) }
        ensures answer { result_err result ≡ room_for self.old.letters (length self.old.out.now - self.old.used) (length head.now + length text.now) }
        ensures held { written_by self.new ≡ on_ok result (grown (written_by self.old) (head.now ++ text.now)) (written_by self.old) }
        ensures place { (streamed self.new).place ≡ (streamed self.old).place }
    {
        let left = self.out.len() - self.used;
        if self.letters.is_none() || left < head.len() || left - head.len() < text.len() {
            return Err(PutRefusal::NoRoom);
        }
        let mid = self.used + head.len();
        let end = mid + text.len();
        self.out[self.used..mid].copy_from_slice(head);
        self.out[mid..end].copy_from_slice(text);
        self.used = end;
        Ok(())
    }

    // Writes a mark's bytes, or refuses it by name; `put` answers the name's number.
    fn write(&mut self, mark: Mark) -> Result<(), PutRefusal>
        ensures put { Put (streamed self.old) (mark_of mark.entry) (numbered result) (streamed self.new) }
        ensures held { written_by self.new ≡ on_ok result (grown (written_by self.old) (encode (mark_of mark.entry))) (written_by self.old) }
    {
        match mark.shape() {
            Shape::Line(stroke) => self.append(&line_bytes(&stroke), &[]),
            Shape::Text(lettering, bytes) => {
                if bytes.len() > 64 {
                    return Err(PutRefusal::LongText);
                }
                self.append(&text_head(&lettering, bytes.len() as u8), bytes)
            }
            // an end is the byte of its kind
            Shape::End => self.append(&[3], &[]),
        }
    }
}

impl<'a> Device for StreamDevice<'a> {
    ghost model = { streamed };

    fn put(&mut self, m: Mark) -> Result<(), u8>
        ensures put { Put (streamed self.old) (mark_of m.entry) result (streamed self.new) }
        ensures held { written_by self.new ≡ on_ok result (grown (written_by self.old) (encode (mark_of m.entry))) (written_by self.old) }
    {
        self.write(m).map_err(u8::from)
    }

    fn measure(&self, text: &[u8], font: u8) -> Option<(u32, u32)> {
        let letter = self.letters?;
        if text.len() > 64 {
            return None;
        }
        Some((text.len() as u32 * letter, 2 * letter))
    }
}
