ghost use Rattle.std.specs.Prelude.{◌≡◌, Ok};
ghost use Rattle.codec.specs.Reading.{marks_or, read};
ghost use Rattle.codec.specs.Exact.{Exact};
ghost use Rattle.stream.specs.Plays.{Played, counted};

use crate::reader::StreamReader;
use backend::device::Device;
use size::refusal::Refusal;

/// How many marks a stream has; refused with 10 where the bytes are no stream, and the first place at which no header or
/// mark starts.
#[tactic(auto, using(crate::proofs::Playing::ends))]
pub fn count(input: &[u8]) -> Result<usize, Refusal>
    ensures answer { result ≡ counted 0 (read input.now) }
    ensures exact { Exact input.now }
{
    let mut reader = StreamReader::new(input)?;
    // Here and below a chain would be `from_fn`, `transpose` and `try_fold`, which is no plainer than the loop.
    let mut n = 0;
    while reader.next_mark()?.is_some() {
        n += 1;
    }
    Ok(n)
}

// Puts the marks of bytes that are a stream; not by `feed`, which counts in 32 bits, and a stream may have more marks.
fn put_marks<D: Device>(input: &[u8], device: &mut D) -> Result<usize, Refusal>
    requires { read input.now ≡ Ok (marks_or (read input.now)) }
    ensures { Played (read input.now) (D.model device.old) result (D.model device.new) }
{
    let mut reader = StreamReader::new(input)?;
    let mut count = 0;
    while let Some(mark) = reader.next_mark()? {
        device
            .put(mark)
            .map_err(|number| Refusal::Device { number, count })?;
        count += 1;
    }
    Ok(count)
}

/// Puts every mark of a stream onto a device, up to the first that it refuses. Bytes that are no stream are refused with 10 and the
/// place, and then nothing is put.
pub fn play<D: Device>(input: &[u8], device: &mut D) -> Result<usize, Refusal>
    ensures played { Played (read input.now) (D.model device.old) result (D.model device.new) }
    ensures exact { Exact input.now }
{
    count(input)?;
    put_marks(input, device)
}
