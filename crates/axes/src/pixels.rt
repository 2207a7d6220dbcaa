// Places between two limits.
ghost use Rattle.std.specs.Prelude.{◌≡◌, pos, negsuc, ◌*ℤ◌, ◌≤ℤ◌, ◌<ℤ◌, IsTrue, IsFalse, int_div, MatchResult};
ghost use Rattle.std.specs.Int.{int_min, int_max};
ghost use Rattle.coord.specs.Axis.{Within, taken};
ghost use Rattle.axes.specs.Shares.{moved_by};

use coord::limits::allowed;
use size::refusal::Refusal;

// Two limits that an axis takes.
#[derive(Clone, Copy)]
pub(crate) struct Limits {
    pub(crate) a: i32,
    b: i32,
    ghost a_near: { Within a },
    ghost b_near: { Within b },
}

// The part ÷ whole of a run, cut toward zero.
#[tactic(auto, using(crate::specs::Moves::product_fits, crate::proofs::Stored::share_stored, crate::proofs::Stored::share_low, crate::proofs::Stored::share_high))]
fn share(run: i64, part: i64, whole: i64) -> i64
    requires run { (negsuc 59999 ≤ℤ run) × (run ≤ℤ pos 60000) }
    requires part { (pos 0 ≤ℤ part) × (part ≤ℤ whole) }
    requires whole { (pos 0 <ℤ whole) × (whole ≤ℤ pos 4000000) }
    ensures value { result ≡ int_div (run *ℤ part) whole }
    ensures near { (negsuc 59999 ≤ℤ result) × (result ≤ℤ pos 60000) }
{
    run * part / whole
}

impl Limits {
    // The two as limits.
    pub(crate) fn new(limits: (i32, i32)) -> Result<Limits, Refusal>
        ensures { MatchResult result (λ l. IsTrue (taken limits) × (l.a ≡ limits.0) × (l.b ≡ limits.1)) (λ e. IsFalse (taken limits) × (e ≡ Refusal.Range)) }
    {
        if !allowed(limits) {
            return Err(Refusal::Range);
        }
        let (a, b) = limits;
        Ok(Limits { a, b })
    }

    // All from one to the other.
    // As `ordered` of `coord`, which is private there: a public one for this one line would be no plainer.
    pub(crate) fn all(self) -> (i32, i32)
        ensures { result ≡ (int_min self.a self.b, int_max self.a self.b) }
    {
        (self.a.min(self.b), self.a.max(self.b))
    }

    // The place that is part ÷ whole of the way from the first to the second.
    pub(crate) fn moved(self, part: i64, whole: i64) -> i32
        requires part { (pos 0 ≤ℤ part) × (part ≤ℤ whole) }
        requires whole { (pos 0 <ℤ whole) × (whole ≤ℤ pos 4000000) }
        ensures { result ≡ moved_by self.a self.b part whole }
    {
        let away = share(self.b as i64 - self.a as i64, part, whole);
        (self.a as i64 + away) as i32
    }
}
