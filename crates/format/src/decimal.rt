ghost use Rattle.std.specs.Fmt.{signed_decimal};

use crate::formatter::ValueFormatter;
use crate::scratch::write_marked;
use size::refusal::Refusal;

/// Writes a whole number in decimal.
#[derive(Clone, Copy)]
pub struct Decimal;

impl ValueFormatter<i32> for Decimal {
    ghost text = { λ _ z. signed_decimal z };

    fn format(&self, value: i32, out: &mut [u8]) -> Result<usize, Refusal> {
        write_marked(b"", value, out)
    }
}
