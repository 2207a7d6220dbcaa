ghost use Rattle.std.specs.Prelude.{◌≡◌, ◌<◌, ◌≤◌, [], Ok, Err, MatchOption};
ghost use Rattle.axes.specs.Stations.{Few, count_of, station_place_of, station_keys, centres, station_axis};
ghost use Rattle.axes.specs.Lawful.{station_lawful};

use crate::pixels::Limits;
use crate::rows::Row;
use crate::station::Station;
use coord::hint::KeyPointHint;
use coord::ranged::Ranged;
use size::refusal::Refusal;

/// An axis of n stations.
#[derive(Clone, Copy)]
pub struct StationAxis {
    n: u32,
    ghost few: { Few n },
}

impl StationAxis {
    /// The axis of n stations; refused with 8 where there are none or more than 200.
    pub fn new(n: u32) -> Result<Self, Refusal>
        ensures { elim result [ Ok x ↦ Ok x.n | Err e ↦ Err e ] ≡ count_of n }
    {
        if (1..=200).contains(&n) {
            Ok(StationAxis { n })
        } else {
            Err(Refusal::Scale)
        }
    }

    // The place of a value.
    fn place(self, value: Station, limits: Limits) -> i32
        ensures { result ≡ station_place_of self.n value limits.a limits.b }
    {
        let n = self.n;
        match value {
            Station::Edge(i) => limits.moved(i.min(n) as i64, n as i64),
            Station::Centre(i) => limits.moved((2 * i.min(n - 1) + 1) as i64, (2 * n) as i64),
        }
    }

    // The centres at every step-th station. What is asked are their own facts, owed where they are made.
    fn centres(self, step: u32) -> Centres
        requires { (0 < step) × (step ≤ 200) }
        ensures axis { result.axis ≡ self }
        ensures step { result.step ≡ step }
    {
        Centres { axis: self, step }
    }

    // The centres at the least step that gives at most `most` of them.
    // The range is not `1..=n`: there the goals stay open, for std's lemma is on `a..b`.
    fn keys(self, most: usize) -> Option<Centres>
        ensures { MatchOption result (station_keys self.n most ≡ []) (λ c. station_keys self.n most ≡ centres c.axis.n c.step) }
    {
        (1..self.n + 1)
            .map(|step| self.centres(step))
            .find(|row| row.at_most(most))
    }
}

// The centres at every step-th station of an axis.
#[derive(Clone, Copy)]
struct Centres {
    axis: StationAxis,
    step: u32,
    ghost positive: { 0 < step },
    ghost near: { step ≤ 200 },
}

impl Row for Centres {
    type Value = Station;

    ghost values = { λ c. centres c.axis.n c.step };

    #[tactic(auto, using(crate::proofs::Runs::up_is, crate::specs::Centres::centres_count))]
    fn count(self) -> usize {
        self.axis.n.div_ceil(self.step) as usize
    }

    #[tactic(auto, using(crate::specs::Centres::centres_within, crate::specs::Centres::centres_nth, crate::specs::Centres::centres_past))]
    fn nth(self, k: usize) -> Option<Station> {
        (k < self.count()).then(|| Station::Centre(k as u32 * self.step))
    }
}

// As `WholeAxis`'s: a struct over either kind, to have one impl, would be no plainer.
impl Ranged for StationAxis {
    type ValueType = Station;

    ghost meaning = { λ x. station_axis x.n };

    ghost lawful = { λ x. station_lawful x.n x.few.0 };

    fn map(&self, value: Station, limits: (i32, i32)) -> Result<i32, Refusal> {
        Limits::new(limits).map(|limits| self.place(value, limits))
    }

    fn key_count<H: KeyPointHint>(&self, hint: H) -> usize {
        let most = hint.max_num_points();
        self.keys(most).map_or(0, Row::count)
    }

    fn key_value<H: KeyPointHint>(&self, hint: H, k: usize) -> Option<Station> {
        self.keys(hint.max_num_points())?.nth(k)
    }

    fn axis_pixel_range(&self, limits: (i32, i32)) -> Result<(i32, i32), Refusal> {
        Limits::new(limits).map(Limits::all)
    }
}
