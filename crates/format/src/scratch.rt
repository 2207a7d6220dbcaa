// Numbers, written at the front of a scratch.
ghost use Rattle.std.specs.Prelude.{◌+◌, ◌≤◌, ◌++◌, length};
ghost use Rattle.format.specs.Texts.{Formatted};

use itoa::{Buffer, Integer};
use size::refusal::Refusal;

// Writes `mark` and then the number.
pub(crate) fn write_marked<I: Integer>(
    mark: &[u8],
    number: I,
    out: &mut [u8],
) -> Result<usize, Refusal>
    requires { length mark.now + I.MAX_STR_LEN ≤ 32 }
    ensures { Formatted (mark.now ++ I.text number) out.old result out.new }
{
    if out.len() < 32 {
        return Err(Refusal::Short);
    }
    let mut buffer = Buffer::new();
    let digits = buffer.format(number).as_bytes();
    let end = mark.len() + digits.len();
    out[..mark.len()].copy_from_slice(mark);
    // A digit alone is written by itself, since a copy of one byte takes longer.
    if let [digit] = digits {
        out[mark.len()] = *digit;
        return Ok(end);
    }
    out[mark.len()..end].copy_from_slice(digits);
    Ok(end)
}
