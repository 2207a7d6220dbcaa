ghost use Rattle.std.specs.Prelude.{◌≡◌, false, not, if◌then◌else◌, Some, None};
ghost use Rattle.coord.specs.Axis.{Same};
ghost use Rattle.coord.specs.Layers.{turned_axis, part_axis};
ghost use Rattle.coord.specs.Piles.{turn, shows, LaidOn, layered_axis};
ghost use Rattle.coord.specs.Reduced.{reduced_lawful};

use crate::hint::KeyPointHint;
use crate::limits::swapped;
use crate::part::part_range;
use crate::ranged::Ranged;
use size::refusal::Refusal;

/// An axis under any pile of turns and parts, for callers that learn the layers one by one.
#[derive(Clone, Copy)]
pub struct Layered<A, V> {
    axis: A,
    turned: bool,
    part: Option<(V, V)>,
}

impl<V: Copy, A: Ranged<ValueType = V>> Layered<A, V> {
    /// The axis with no layer.
    pub fn new(axis: A) -> Self
        ensures is { result ≡ record { axis = axis; turned = false; part = None } }
        ensures same { Same (layered_axis A.Ranged.meaning result) (A.Ranged.meaning axis) }
    {
        Layered {
            axis,
            turned: false,
            part: None,
        }
    }

    /// The same with a turn on top.
    pub fn turned(self) -> Self
        ensures is { result ≡ record { axis = self.axis; turned = not self.turned; part = self.part } }
        ensures same { Same (layered_axis A.Ranged.meaning result) (turned_axis (layered_axis A.Ranged.meaning self)) }
        ensures pile { LaidOn turn (layered_axis A.Ranged.meaning self) (layered_axis A.Ranged.meaning result) }
    {
        Layered {
            turned: !self.turned,
            ..self
        }
    }

    /// The same with a part on top, between two values.
    pub fn part(self, from: V, to: V) -> Self
        ensures is { result ≡ record { axis = self.axis; turned = self.turned; part = Some (from, to) } }
        ensures same { Same (layered_axis A.Ranged.meaning result) (part_axis from to (layered_axis A.Ranged.meaning self)) }
        ensures pile { LaidOn (shows from to) (layered_axis A.Ranged.meaning self) (layered_axis A.Ranged.meaning result) }
    {
        Layered {
            part: Some((from, to)),
            ..self
        }
    }
}

impl<A, V> Layered<A, V> {
    // The limits for the axis under the layers.
    fn below(&self, limits: (i32, i32)) -> (i32, i32)
        ensures { result ≡ (if self.now.turned then (limits.1, limits.0) else limits) }
    {
        if self.turned { swapped(limits) } else { limits }
    }
}

impl<V: Copy, A: Ranged<ValueType = V>> Ranged for Layered<A, V> {
    type ValueType = V;

    ghost meaning = { layered_axis A.Ranged.meaning };

    ghost lawful = { λ x. reduced_lawful x.turned x.part (A.Ranged.meaning x.axis) (A.Ranged.lawful x.axis) };

    #[tactic(auto, using(crate::proofs::Below::below_place))]
    fn map(&self, value: V, limits: (i32, i32)) -> Result<i32, Refusal> {
        self.axis.map(value, self.below(limits))
    }

    fn key_count<H: KeyPointHint>(&self, hint: H) -> usize {
        self.axis.key_count(hint)
    }

    fn key_value<H: KeyPointHint>(&self, hint: H, k: usize) -> Option<V> {
        self.axis.key_value(hint, k)
    }

    #[tactic(auto, using(crate::proofs::Below::below_shown))]
    fn axis_pixel_range(&self, limits: (i32, i32)) -> Result<(i32, i32), Refusal> {
        let limits = self.below(limits);
        match self.part {
            Some((from, to)) => part_range(&self.axis, from, to, limits),
            None => self.axis.axis_pixel_range(limits),
        }
    }
}
