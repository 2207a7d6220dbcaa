ghost use Rattle.stream.specs.Plays.{Played};
ghost use Rattle.stream.specs.RoundTrips.{RoundTrip};
ghost use Rattle.stream.specs.Streamed.{written_by};
ghost use Rattle.stream.specs.Written.{heard};

use crate::device::StreamDevice;
use crate::play::play;
use backend::device::Device;
use size::refusal::Refusal;

impl<'a> StreamDevice<'a> {
    /// Reads back what was written, onto another device: its own marks, in order, up to the first that the other refuses. Refused with 10
    /// and place 0 where no stream is begun.
    #[tactic(auto, using(crate::proofs::Hearing::heard_read))]
    pub fn play_on<D: Device>(&self, device: &mut D) -> Result<usize, Refusal>
        ensures played { Played (heard (written_by self.now)) (D.model device.old) result (D.model device.new) }
        ensures always { RoundTrip }
    {
        play(self.bytes(), device)
    }
}
