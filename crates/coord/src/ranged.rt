ghost use Rattle.std.specs.Prelude.{◌≡◌, length};
ghost use Rattle.std.specs.List.{slice_get};
ghost use Rattle.coord.specs.Axis.{Axis, Lawful, bounded, shown};

use crate::hint::KeyPointHint;
use size::refusal::Refusal;

/// An axis, with its own kind of value.
pub trait Ranged: Copy {
    type ValueType: Copy;

    // what the axis means; every method answers by it
    ghost meaning: { Self → Axis Self.ValueType };

    /// The place of a value between two limits; a limit beyond 30,000 either way is refused with 1.
    // Limits are a pair, as in plotters: any two numbers may be given, and a call refuses them.
    fn map(&self, value: Self::ValueType, limits: (i32, i32)) -> Result<i32, Refusal>
        ensures { result ≡ bounded limits ((meaning self.now).place value) };

    /// How many key values there are.
    fn key_count<H: KeyPointHint>(&self, hint: H) -> usize
        ensures { result ≡ length ((meaning self.now).keys (H.KeyPointHint.asked hint)) };

    /// The k-th of them, and none past the last.
    fn key_value<H: KeyPointHint>(&self, hint: H, k: usize) -> Option<Self::ValueType>
        ensures { result ≡ slice_get ((meaning self.now).keys (H.KeyPointHint.asked hint)) k };

    /// The lowest and the highest place that is shown; limits are refused as in `map`.
    fn axis_pixel_range(&self, limits: (i32, i32)) -> Result<(i32, i32), Refusal>
        ensures { result ≡ bounded limits (shown (meaning self.now)) };

    ghost lawful: { (x : Self) → Lawful (meaning x) };
}
