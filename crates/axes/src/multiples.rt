// The multiples of a step among the whole numbers of an axis.
ghost use Rattle.std.specs.Prelude.{◌≡◌, ◌*◌, ◌<◌, ◌≤◌, pos, negsuc, ◌+ℤ◌, ◌≤ℤ◌, unsigned_abs};
ghost use Rattle.axes.specs.Runs.{Spans, nth_of};
ghost use Rattle.axes.specs.Shares.{up_of};
ghost use Rattle.axes.specs.Whole.{multiples};

use crate::rows::Row;
use crate::whole::WholeAxis;

// The steps that key values may have.
pub(crate) const STEPS: [u32; 21] = [
    1, 2, 5, 10, 20, 50, 100, 200, 500, 1_000, 2_000, 5_000, 10_000, 20_000, 50_000, 100_000,
    200_000, 500_000, 1_000_000, 2_000_000, 5_000_000,
];

// The multiples of a step on an axis.
#[derive(Clone, Copy)]
pub(crate) struct Multiples {
    pub(crate) axis: WholeAxis,
    pub(crate) step: u32,
    ghost positive: { 0 < step },
    ghost near: { step ≤ 5000000 },
}

impl Multiples {
    // How many come before `z`, counted from 2,000,000 steps below zero.
    fn before(self, z: i32) -> u64
        requires { (negsuc 1999999 ≤ℤ z) × (z ≤ℤ pos 2000001) }
        ensures { result ≡ up_of self.step (unsigned_abs (z +ℤ pos (2000000 * self.step))) }
    {
        let moved = (z as i64 + 2_000_000 * self.step as i64) as u64;
        moved.div_ceil(self.step as u64)
    }

    // The one before which `q` of them come, counted likewise.
    fn at(self, q: u64) -> i32
        requires { (self.axis.lo ≤ℤ nth_of self.step 2000000 q) × (nth_of self.step 2000000 q ≤ℤ self.axis.hi) }
        ensures { result ≡ nth_of self.step 2000000 q }
    {
        let moved = q * self.step as u64;
        (moved as i64 - 2_000_000 * self.step as i64) as i32
    }

    // The first of them and the one past the last, each by how many come before it.
    fn run(self) -> (u64, u64)
        ensures { Spans self.axis.lo self.axis.hi self.step result.0 result.1 }
    {
        (self.before(self.axis.lo), self.before(self.axis.hi + 1))
    }
}

impl Row for Multiples {
    type Value = i32;

    ghost values = { λ m. multiples m.step m.axis.lo m.axis.hi };

    #[tactic(auto, using(crate::proofs::Runs::run_length))]
    fn count(self) -> usize {
        let (first, end) = self.run();
        (end - first) as usize
    }

    #[tactic(auto, using(crate::proofs::Runs::run_nth, crate::proofs::Runs::run_past))]
    fn nth(self, k: usize) -> Option<i32> {
        let (first, end) = self.run();
        if k as u64 >= end - first {
            return None;
        }
        Some(self.at(first + k as u64))
    }
}
