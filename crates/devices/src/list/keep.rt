ghost use Rattle.std.specs.Result.{result_err};
ghost use Rattle.std.specs.Prelude.{◌≡◌, ◌+◌, ◌<◌, ◌≤◌, true, length};
ghost use Rattle.size.specs.Answers.{on_ok};
ghost use Rattle.backend.specs.Devices.{Put};
ghost use Rattle.backend.specs.Marks.{mark_of, shape_value};
ghost use Rattle.devices.specs.Records.{inside};
ghost use Rattle.devices.specs.Lists.{added, is_all_printable, room_of, stored, verdict};
ghost use Rattle.devices.specs.Listed.{held_by, listed};

use crate::list::ListDevice;
use crate::record::Record;
use crate::refusal::PutRefusal;
use backend::device::Device;
use backend::mark::Mark;
use backend::shape::Shape;

// Whether every byte is from the space to the tilde.
fn all_printable(text: &[u8]) -> bool
    ensures { result ≡ is_all_printable text.now }
{
    text.iter().all(|b| (b' '..=b'~').contains(b))
}

impl<'a> ListDevice<'a> {
    // Whether a mark whose text has `n` bytes finds room.
    fn judge(&self, n: usize) -> Result<(), PutRefusal>
        ensures { result_err result ≡ verdict (room_of (held_by self.now)) n }
    {
        let (free, left) = self.room();
        if n > 64 {
            return Err(PutRefusal::LongText);
        }
        if free == 0 {
            return Err(PutRefusal::NoRoom);
        }
        if left < n {
            return Err(PutRefusal::NoTextRoom);
        }
        Ok(())
    }

    // One record more, and the bytes of its text after those before.
    #[tactic(auto, using(std::proofs::lemmas::Grind::common_steps, crate::proofs::Keeping::kept_more))]
    fn store(&mut self, r: Record, bytes: &[u8])
        requires room { (self.old.used < length self.old.records.now) × (self.old.filled + length bytes.now ≤ length self.old.text.now) }
        requires inside { inside (self.old.filled + length bytes.now) r ≡ true }
        ensures held { held_by self.new ≡ stored (held_by self.old) r bytes.now }
        ensures place { (listed self.new).place ≡ (listed self.old).place }
    {
        let end = self.filled + bytes.len();
        self.text[self.filled..end].copy_from_slice(bytes);
        self.records[self.used] = r;
        self.used += 1;
        self.filled = end;
    }

    // Puts a mark's shape where there is room. Apart from `put`, since its proof has an answer: a wrong `put` is then refused at the source.
    fn keep(&mut self, shape: Shape) -> Result<(), u8>
        ensures put { Put (listed self.old) (shape_value shape.entry) result (listed self.new) }
        ensures held { held_by self.new ≡ on_ok result (added (held_by self.old) shape.entry) (held_by self.old) }
    {
        let (record, bytes) = Record::of(shape, self.filled);
        self.judge(bytes.len())?;
        self.store(record, bytes);
        Ok(())
    }
}

impl<'a> Device for ListDevice<'a> {
    ghost model = { listed };

    fn put(&mut self, m: Mark) -> Result<(), u8>
        ensures put { Put (listed self.old) (mark_of m.entry) result (listed self.new) }
        ensures held { held_by self.new ≡ on_ok result (added (held_by self.old) m.entry.shape) (held_by self.old) }
    {
        self.keep(m.shape())
    }

    fn measure(&self, text: &[u8], font: u8) -> Option<(u32, u32)> {
        if text.len() > 64 || !all_printable(text) {
            return None;
        }
        let font = u32::from(font);
        Some((text.len() as u32 * font / 2, font))
    }
}
