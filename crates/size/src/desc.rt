ghost use Rattle.std.specs.Prelude.{◌≡◌, ℕ, ℤ, pos, Some, Result};
ghost use Rattle.std.specs.Float.{float_round, binary64};
ghost use Rattle.size.specs.declared.refusal.Refusal.{Refusal};
ghost use Rattle.size.specs.Sizes.{dropped, nearest, limited, share, Within};
ghost use Rattle.std.proofs.Common.{rules};

use crate::refusal::Refusal;
use std::num::saturating_f64_to_i32;

/// What has a width and a height in pixels.
pub trait HasDimension {
    // the width, then the height
    ghost sides: { Self → ℕ × ℕ };

    fn dim(&self) -> (u32, u32)
        ensures { result ≡ sides self.now };
}

impl HasDimension for (u32, u32) {
    ghost sides = { λ d. d };

    fn dim(&self) -> (u32, u32) {
        *self
    }
}

/// A size, which comes to a number of pixels in a parent or is refused.
pub trait SizeDesc: Copy {
    // the whole answer in a parent of these sides
    ghost pixels: { Self → ℕ × ℕ → Result ℤ Refusal };

    fn in_pixels<T: HasDimension>(&self, parent: &T) -> Result<i32, Refusal>
        ensures { result ≡ pixels self.now (T.HasDimension.sides parent.now) };

    // a size that is not refused lies within 30,000 either way
    ghost within: { (s : Self) (d : ℕ × ℕ) → Within (pixels s d) };
}

// `n`, unless it lies beyond 30,000 either way.
pub(crate) fn limit(n: i32) -> Result<i32, Refusal>
    ensures { result ≡ limited (Some n) }
{
    if (-30000..=30000).contains(&n) {
        Ok(n)
    } else {
        Err(Refusal::Range)
    }
}

// `x` without its fraction. What is not a number passes neither test.
fn drop_fraction(x: f64) -> Result<i32, Refusal>
    ensures { result ≡ limited (dropped x) }
{
    if -30001.0 < x && x < 30001.0 {
        Ok(saturating_f64_to_i32(x))
    } else {
        Err(Refusal::Range)
    }
}

// The nearest whole number, halves away from zero. Apart, so that a wrong way to round is refused here.
fn round(x: f64) -> f64
    ensures { result ≡ float_round binary64 x }
{
    x.round()
}

// `x` to the nearest whole number, unless that lies beyond 30,000 either way. Its limit is half more than `drop_fraction`'s and it rounds: one
// function for both would take both as parameters.
fn round_off(x: f64) -> Result<i32, Refusal>
    ensures { result ≡ limited (nearest x) }
{
    if -30000.5 < x && x < 30000.5 {
        Ok(saturating_f64_to_i32(round(x)))
    } else {
        Err(Refusal::Range)
    }
}

// The share `p` of a side.
pub(crate) fn take_share(p: f64, side: u32) -> Result<i32, Refusal>
    ensures { result ≡ share p side }
{
    round_off(p * f64::from(side))
}

impl SizeDesc for i32 {
    ghost pixels = { λ n _. limited (Some n) };

    ghost within = { Prim.search rules };

    fn in_pixels<T: HasDimension>(&self, _parent: &T) -> Result<i32, Refusal> {
        limit(*self)
    }
}

impl SizeDesc for u32 {
    ghost pixels = { λ n _. limited (Some (pos n)) };

    ghost within = { Prim.search rules };

    fn in_pixels<T: HasDimension>(&self, _parent: &T) -> Result<i32, Refusal> {
        // not by `limit`, since an i32 does not hold every u32
        if *self <= 30000 {
            Ok(*self as i32)
        } else {
            Err(Refusal::Range)
        }
    }
}

impl SizeDesc for f64 {
    ghost pixels = { λ x _. limited (dropped x) };

    ghost within = { Prim.search rules };

    fn in_pixels<T: HasDimension>(&self, _parent: &T) -> Result<i32, Refusal> {
        drop_fraction(*self)
    }
}
