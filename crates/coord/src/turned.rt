ghost use Rattle.coord.specs.Axis.{Same};
ghost use Rattle.coord.specs.Layers.{turned_axis};
ghost use Rattle.coord.specs.Lawful.{turned_lawful};

use crate::hint::KeyPointHint;
use crate::limits::swapped;
use crate::ranged::Ranged;
use size::refusal::Refusal;

/// An axis that runs the other way.
#[derive(Clone, Copy)]
pub struct Turned<A> {
    pub axis: A,
}

impl<A: Ranged> Ranged for Turned<A> {
    type ValueType = A::ValueType;

    ghost meaning = { λ t. turned_axis (A.Ranged.meaning t.axis) };

    ghost lawful = { λ x. turned_lawful (A.Ranged.meaning x.axis) (A.Ranged.lawful x.axis) };

    fn map(&self, value: A::ValueType, limits: (i32, i32)) -> Result<i32, Refusal> {
        self.axis.map(value, swapped(limits))
    }

    // Each layer hands its key values on itself: one impl for all layers would take a trait with their places, ranges and laws anew.
    fn key_count<H: KeyPointHint>(&self, hint: H) -> usize {
        self.axis.key_count(hint)
    }

    fn key_value<H: KeyPointHint>(&self, hint: H, k: usize) -> Option<A::ValueType> {
        self.axis.key_value(hint, k)
    }

    fn axis_pixel_range(&self, limits: (i32, i32)) -> Result<(i32, i32), Refusal> {
        self.axis.axis_pixel_range(swapped(limits))
    }
}

/// Carries the law of two turns: they give the axis's places, key values and shown range back.
pub fn turns_cancel<A: Ranged>(axis: &A)
    ensures { Same (turned_axis (turned_axis (A.Ranged.meaning axis.now))) (A.Ranged.meaning axis.now) }
{}
