ghost use Rattle.std.specs.Prelude.{◌≡◌};
ghost use Rattle.std.specs.Int.{int_min, int_max};
ghost use Rattle.coord.specs.Axis.{bounded, shown};
ghost use Rattle.coord.specs.Layers.{part_axis};
ghost use Rattle.coord.specs.Lawful.{part_lawful};

use crate::hint::KeyPointHint;
use crate::ranged::Ranged;
use size::refusal::Refusal;

// Two places, the lower first.
fn ordered(p: i32, q: i32) -> (i32, i32)
    ensures { result ≡ (int_min p q, int_max p q) }
{
    (p.min(q), p.max(q))
}

// What is shown of an axis between two of its values.
pub(crate) fn part_range<A: Ranged>(
    axis: &A,
    from: A::ValueType,
    to: A::ValueType,
    limits: (i32, i32),
) -> Result<(i32, i32), Refusal>
    ensures { result ≡ bounded limits (shown (part_axis from to (A.Ranged.meaning axis.now))) }
{
    let p = axis.map(from, limits)?;
    let q = axis.map(to, limits)?;
    Ok(ordered(p, q))
}

/// A part of an axis, between two of its values.
#[derive(Clone, Copy)]
pub struct ShownPart<A, V> {
    pub axis: A,
    pub from: V,
    pub to: V,
}

impl<V: Copy, A: Ranged<ValueType = V>> Ranged for ShownPart<A, V> {
    type ValueType = V;

    ghost meaning = { λ p. part_axis p.from p.to (A.Ranged.meaning p.axis) };

    ghost lawful = { λ x. part_lawful x.from x.to (A.Ranged.meaning x.axis) (A.Ranged.lawful x.axis) };

    fn map(&self, value: V, limits: (i32, i32)) -> Result<i32, Refusal> {
        self.axis.map(value, limits)
    }

    fn key_count<H: KeyPointHint>(&self, hint: H) -> usize {
        self.axis.key_count(hint)
    }

    fn key_value<H: KeyPointHint>(&self, hint: H, k: usize) -> Option<V> {
        self.axis.key_value(hint, k)
    }

    fn axis_pixel_range(&self, limits: (i32, i32)) -> Result<(i32, i32), Refusal> {
        part_range(&self.axis, self.from, self.to, limits)
    }
}
