ghost use Rattle.std.specs.Prelude.{◌≡◌};
ghost use Rattle.backend.specs.Devices.{Model, Put};
ghost use Rattle.backend.specs.Marks.{mark_of};

use crate::mark::Mark;

/// What takes marks in their order, or refuses one with a number of its own.
pub trait Device {
    ghost model: { Self → Model };

    /// Puts a mark: it is taken at the end, or refused with the device's number and nothing changes.
    // The number is the device's own: a device of another crate has refusals that no list here names, and `Refusal::Device` holds any device's.
    fn put(&mut self, m: Mark) -> Result<(), u8>
        ensures { Put (model self.old) (mark_of m.entry) result (model self.new) };

    /// The width and the height of a text, or none where the device has no measure for it.
    fn measure(&self, text: &[u8], font: u8) -> Option<(u32, u32)>
        ensures { result ≡ (model self.now).extent text.now font };
}
