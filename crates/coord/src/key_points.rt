ghost use Rattle.std.specs.Prelude.{◌≡◌, ◌≤◌, length};
ghost use Rattle.std.specs.Iterator.{YieldsFirst, item_count};
ghost use Rattle.coord.specs.Axis.{left_of};

use crate::hint::KeyPointHint;
use crate::ranged::Ranged;

/// The key values that a hint asks of an axis, one by one.
#[derive(Drop)]
pub struct KeyPoints<X: Ranged, H: KeyPointHint> {
    axis: X,
    hint: H,
    at: usize,
    // Their number, which keeps `at + 1` in range.
    count: usize,
    ghost within: { at ≤ count },
    ghost all: { count ≡ length ((X.Ranged.meaning axis).keys (H.KeyPointHint.asked hint)) },
}

/// All of them, from the first to the last.
pub fn key_points<X: Ranged, H: KeyPointHint>(axis: X, hint: H) -> KeyPoints<X, H>
    ensures values { left_of (X.Ranged.meaning result.axis) (H.KeyPointHint.asked result.hint) result.at ≡ (X.Ranged.meaning axis).keys (H.KeyPointHint.asked hint) }
{
    KeyPoints {
        axis,
        hint,
        at: 0,
        count: axis.key_count(hint),
    }
}

impl<X: Ranged, H: KeyPointHint> Iterator for KeyPoints<X, H> {
    type Item = X::ValueType;

    ghost next_gives = { YieldsFirst (λ k. left_of (X.Ranged.meaning k.axis) (H.KeyPointHint.asked k.hint) k.at) };

    ghost remaining = { item_count (λ k. left_of (X.Ranged.meaning k.axis) (H.KeyPointHint.asked k.hint) k.at) };

    #[tactic(auto, using(crate::proofs::KeyPoints::first_left, crate::proofs::KeyPoints::fewer_left))]
    fn next(&mut self) -> Option<X::ValueType> {
        if self.at == self.count {
            return None;
        }
        let value = self.axis.key_value(self.hint, self.at);
        self.at += 1;
        value
    }
}

/// How many are left.
impl<X: Ranged, H: KeyPointHint> ExactSizeIterator for KeyPoints<X, H> {
    fn len(&self) -> usize {
        self.count - self.at
    }
}
