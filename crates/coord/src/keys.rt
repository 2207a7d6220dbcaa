ghost use Rattle.std.specs.Prelude.{◌≡◌, ℤ, Some, Ok};
ghost use Rattle.coord.specs.Axis.{Between, bounded, key_place_of};

use crate::hint::KeyPointHint;
use crate::limits::allowed;
use crate::ranged::Ranged;
use size::refusal::Refusal;

/// The column or row of the k-th key value, in a plot whose first and last are the limits; it lies in that plot.
pub fn key_place<X: Ranged, H: KeyPointHint>(
    axis: &X,
    hint: H,
    k: usize,
    limits: (i32, i32),
) -> Result<Option<i32>, Refusal>
    ensures is { result ≡ bounded limits (key_place_of (X.Ranged.meaning axis.now) (H.KeyPointHint.asked hint) k) }
    ensures inside { (p : ℤ) → result ≡ Ok (Some p) → Between limits.0 limits.1 p }
{
    if !allowed(limits) {
        return Err(Refusal::Range);
    }
    axis.key_value(hint, k)
        .map(|v| axis.map(v, limits))
        .transpose()
}
