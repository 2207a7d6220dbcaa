ghost use Rattle.std.specs.Prelude.{◌≡◌};
ghost use Rattle.axes.specs.Kinds.{number_in, station_in, any_axis};
ghost use Rattle.axes.specs.EitherLawful.{any_lawful};

use crate::station::Station;
use crate::stations::StationAxis;
use crate::whole::WholeAxis;
use coord::hint::KeyPointHint;
use coord::ranged::Ranged;
use size::refusal::Refusal;

/// A value of either kind.
#[derive(Clone, Copy, PartialEq, Eq, Debug)]
pub enum AnyValue {
    Whole(i32),
    Station(Station),
}

/// An axis of either kind, for callers that learn the kind as they run.
/// A value of the other kind counts as the first value of the axis.
#[derive(Clone, Copy)]
pub enum AnyAxis {
    Whole(WholeAxis),
    Stations(StationAxis),
}

impl AnyValue {
    // The value as a number.
    // A station counts as the first of the axis: none begins below this. No `From`, since the value is lost.
    fn number(self) -> i32
        ensures { result ≡ number_in self }
    {
        match self {
            AnyValue::Whole(v) => v,
            AnyValue::Station(_) => i32::MIN,
        }
    }

    // The value as a station.
    // A whole number counts as the first of the axis: each begins at this edge. No `From`, since the value is lost.
    fn station(self) -> Station
        ensures { result ≡ station_in self }
    {
        match self {
            AnyValue::Whole(_) => Station::Edge(0),
            AnyValue::Station(s) => s,
        }
    }
}

impl Ranged for AnyAxis {
    type ValueType = AnyValue;

    ghost meaning = { any_axis };

    ghost lawful = { λ x. any_lawful x };

    fn map(&self, value: AnyValue, limits: (i32, i32)) -> Result<i32, Refusal> {
        match self {
            AnyAxis::Whole(x) => x.map(value.number(), limits),
            AnyAxis::Stations(x) => x.map(value.station(), limits),
        }
    }

    fn key_count<H: KeyPointHint>(&self, hint: H) -> usize {
        match self {
            AnyAxis::Whole(x) => x.key_count(hint),
            AnyAxis::Stations(x) => x.key_count(hint),
        }
    }

    fn key_value<H: KeyPointHint>(&self, hint: H, k: usize) -> Option<AnyValue> {
        match self {
            AnyAxis::Whole(x) => x.key_value(hint, k).map(AnyValue::Whole),
            AnyAxis::Stations(x) => x.key_value(hint, k).map(AnyValue::Station),
        }
    }

    fn axis_pixel_range(&self, limits: (i32, i32)) -> Result<(i32, i32), Refusal> {
        match self {
            AnyAxis::Whole(x) => x.axis_pixel_range(limits),
            AnyAxis::Stations(x) => x.axis_pixel_range(limits),
        }
    }
}
