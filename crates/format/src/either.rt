ghost use Rattle.format.specs.Texts.{any_text};

use crate::decimal::Decimal;
use crate::formatter::ValueFormatter;
use crate::station::StationLabel;
use axes::kinds::AnyValue;
use size::refusal::Refusal;

/// Writes a value of either kind as its own formatter does.
#[derive(Clone, Copy)]
pub struct AnyLabel;

impl ValueFormatter<AnyValue> for AnyLabel {
    ghost text = { λ _ v. any_text v };

    fn format(&self, value: AnyValue, out: &mut [u8]) -> Result<usize, Refusal> {
        match value {
            AnyValue::Whole(v) => Decimal.format(v, out),
            AnyValue::Station(s) => StationLabel.format(s, out),
        }
    }
}
