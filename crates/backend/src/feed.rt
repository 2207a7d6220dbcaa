ghost use Rattle.std.specs.Result.{result_err};
ghost use Rattle.std.specs.Prelude.{◌≡◌, ◌+◌, [], ◌∷◌};
ghost use Rattle.backend.specs.Marks.{mark_of};
ghost use Rattle.backend.specs.Passes.{Fed, step};

use crate::device::Device;
use crate::mark::Mark;
use size::refusal::Refusal;

// What a pass of one mark answers by what the device does, `put` marks put before it. Apart from `feed`, whose proof has an answer, so that a
// wrong count is refused here.
fn counted(answer: Result<(), u8>, put: u32) -> Result<usize, Refusal>
    ensures { result ≡ step (result_err answer) put (Ok (put + 1)) }
{
    answer
        .map(|()| put as usize + 1)
        .map_err(|number| Refusal::Device {
            number,
            count: put as usize,
        })
}

/// Puts one mark, as a pass of its own: `put` marks were put before it, and the answer counts on from there.
/// Refused with 7 where the device refuses the mark.
pub fn feed<D: Device>(d: &mut D, put: u32, m: Mark) -> Result<usize, Refusal>
    ensures { Fed put (mark_of m.entry ∷ []) (D.model d.old) result (D.model d.new) }
{
    counted(d.put(m), put)
}
