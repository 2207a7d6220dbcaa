ghost use Rattle.std.specs.Prelude.{◌≡◌, ◌<◌, ◌≤◌, [], Ok, Err, MatchOption};
ghost use Rattle.axes.specs.Whole.{Ends, ends_of, whole_place_of, whole_axis, whole_keys, multiples};
ghost use Rattle.axes.specs.Lawful.{whole_lawful};

use crate::multiples::{Multiples, STEPS};
use crate::pixels::Limits;
use crate::rows::Row;
use coord::hint::KeyPointHint;
use coord::ranged::Ranged;
use size::refusal::Refusal;

/// The whole numbers from lo to hi.
#[derive(Clone, Copy)]
pub struct WholeAxis {
    pub(crate) lo: i32,
    pub(crate) hi: i32,
    ghost ends: { Ends lo hi },
}

impl WholeAxis {
    /// The axis from lo to hi; refused with 8 where they are out of order or beyond 2,000,000 either way.
    pub fn new(lo: i32, hi: i32) -> Result<Self, Refusal>
        ensures { elim result [ Ok x ↦ Ok (x.lo, x.hi) | Err e ↦ Err e ] ≡ ends_of lo hi }
    {
        if lo <= hi && -2_000_000 <= lo && hi <= 2_000_000 {
            Ok(WholeAxis { lo, hi })
        } else {
            Err(Refusal::Scale)
        }
    }

    // The place of a value.
    fn place(self, value: i32, limits: Limits) -> i32
        ensures { result ≡ whole_place_of self.lo self.hi value limits.a limits.b }
    {
        if self.lo == self.hi {
            return limits.a;
        }
        let held = value.clamp(self.lo, self.hi);
        limits.moved(
            held as i64 - self.lo as i64,
            self.hi as i64 - self.lo as i64,
        )
    }

    // Its multiples of a step. What is asked are their own facts, owed where they are made.
    fn multiples(self, step: u32) -> Multiples
        requires { (0 < step) × (step ≤ 5000000) }
        ensures axis { result.axis ≡ self }
        ensures step { result.step ≡ step }
    {
        Multiples { axis: self, step }
    }

    // The multiples of the first step that gives at most `most` of them.
    // `StationAxis` has a chain of its own: one function for both would take the steps and the maker of rows, with what these owe.
    fn keys(self, most: usize) -> Option<Multiples>
        ensures { MatchOption result (whole_keys self.lo self.hi most ≡ []) (λ m. whole_keys self.lo self.hi most ≡ multiples m.step m.axis.lo m.axis.hi) }
    {
        STEPS
            .iter()
            .copied()
            .map(|step| self.multiples(step))
            .find(|row| row.at_most(most))
    }
}

impl Ranged for WholeAxis {
    type ValueType = i32;

    ghost meaning = { λ x. whole_axis x.lo x.hi };

    ghost lawful = { λ x. whole_lawful x.lo x.hi x.ends.0 };

    fn map(&self, value: i32, limits: (i32, i32)) -> Result<i32, Refusal> {
        Limits::new(limits).map(|limits| self.place(value, limits))
    }

    fn key_count<H: KeyPointHint>(&self, hint: H) -> usize {
        let most = hint.max_num_points();
        self.keys(most).map_or(0, Row::count)
    }

    fn key_value<H: KeyPointHint>(&self, hint: H, k: usize) -> Option<i32> {
        self.keys(hint.max_num_points())?.nth(k)
    }

    fn axis_pixel_range(&self, limits: (i32, i32)) -> Result<(i32, i32), Refusal> {
        Limits::new(limits).map(Limits::all)
    }
}
