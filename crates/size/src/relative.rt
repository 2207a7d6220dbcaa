ghost use Rattle.std.specs.Prelude.{◌≡◌, pos, Some, None, Float};
ghost use Rattle.std.specs.Float.{binary64};
ghost use Rattle.std.specs.Float.Ieee.{of_int};
ghost use Rattle.size.specs.Relatives.{lowered, raised, relative, with_bounds};
ghost use Rattle.size.specs.Sizes.{hundredth};
ghost use Rattle.std.proofs.Common.{rules};

use crate::desc::{HasDimension, SizeDesc, limit, take_share};
use crate::refusal::Refusal;

/// A share of a parent's height, of its width, or of the smaller of the two.
#[derive(Clone, Copy, Debug)]
pub enum RelativeSize {
    Height(f64),
    Width(f64),
    Smaller(f64),
}

// `min` and `max` stand here and below: plotters' names on both types, each of one line.
impl RelativeSize {
    /// The same share, at least `min_sz` pixels.
    pub fn min(self, min_sz: i32) -> RelativeSizeWithBound
        ensures { result ≡ record { size = self; min = Some min_sz; max = None } }
    {
        RelativeSizeWithBound::from(self).min(min_sz)
    }

    /// The same share, at most `max_sz` pixels.
    pub fn max(self, max_sz: i32) -> RelativeSizeWithBound
        ensures { result ≡ record { size = self; min = None; max = Some max_sz } }
    {
        RelativeSizeWithBound::from(self).max(max_sz)
    }
}

impl SizeDesc for RelativeSize {
    ghost pixels = { relative };

    ghost within = { Prim.search rules };

    fn in_pixels<T: HasDimension>(&self, parent: &T) -> Result<i32, Refusal> {
        let (w, h) = parent.dim();
        match self {
            RelativeSize::Width(p) => take_share(*p, w),
            RelativeSize::Height(p) => take_share(*p, h),
            RelativeSize::Smaller(p) => take_share(*p, w.min(h)),
        }
    }
}

/// A share with bounds in pixels: raised to the lower, then cut to the upper.
#[derive(Clone, Copy, Debug)]
pub struct RelativeSizeWithBound {
    size: RelativeSize,
    min: Option<i32>,
    max: Option<i32>,
}

/// The share with no bound.
impl From<RelativeSize> for RelativeSizeWithBound {
    ghost from_gives = { λ s r. r ≡ record { size = s; min = None; max = None } };

    fn from(size: RelativeSize) -> RelativeSizeWithBound {
        RelativeSizeWithBound {
            size,
            min: None,
            max: None,
        }
    }
}

impl RelativeSizeWithBound {
    /// The same with this lower bound, in place of any that it had.
    pub fn min(self, min_sz: i32) -> RelativeSizeWithBound
        ensures { result ≡ record { size = self.size; min = Some min_sz; max = self.max } }
    {
        RelativeSizeWithBound {
            min: Some(min_sz),
            ..self
        }
    }

    /// The same with this upper bound, in place of any that it had.
    pub fn max(self, max_sz: i32) -> RelativeSizeWithBound
        ensures { result ≡ record { size = self.size; min = self.min; max = Some max_sz } }
    {
        RelativeSizeWithBound {
            max: Some(max_sz),
            ..self
        }
    }

    // `size`, raised to the lower bound, then cut to the upper.
    fn hold(self, size: i32) -> i32
        ensures { result ≡ lowered self.max (raised self.min size) }
    {
        let raised = self.min.map_or(size, |low| low.max(size));
        self.max.map_or(raised, |high| high.min(raised))
    }
}

impl SizeDesc for RelativeSizeWithBound {
    ghost pixels = { with_bounds };

    ghost within = { Prim.search rules };

    fn in_pixels<T: HasDimension>(&self, parent: &T) -> Result<i32, Refusal> {
        let size = self.size.in_pixels(parent)?;
        limit(self.hold(size))
    }
}

// A hundredth: so many percent as a share. Said once for the impls below.
fn as_share(percent: f64) -> f64
    ensures { result ≡ hundredth percent }
{
    percent / 100.0
}

/// Numbers that can be read as percent of a side.
pub trait AsRelative: Copy {
    // the number as an f64
    ghost number: { Self → Float };

    /// A hundredth of the number. Each percent below is one line over it, by plotters' names.
    fn share(self) -> f64
        ensures { result ≡ hundredth (number self) };

    /// So many percent of the parent's width.
    fn percent_width(self) -> RelativeSize
        ensures { result ≡ RelativeSize.Width (hundredth (number self)) }
    {
        RelativeSize::Width(self.share())
    }

    /// So many percent of the parent's height.
    fn percent_height(self) -> RelativeSize
        ensures { result ≡ RelativeSize.Height (hundredth (number self)) }
    {
        RelativeSize::Height(self.share())
    }

    /// So many percent of the parent's smaller side.
    fn percent(self) -> RelativeSize
        ensures { result ≡ RelativeSize.Smaller (hundredth (number self)) }
    {
        RelativeSize::Smaller(self.share())
    }
}

// An impl for each, since one for all that convert into f64 would promise by a relation, as conversions do, and not by equation.
impl AsRelative for f64 {
    ghost number = { λ x. x };

    fn share(self) -> f64 {
        as_share(self)
    }
}

impl AsRelative for u32 {
    ghost number = { λ n. of_int binary64 (pos n) };

    fn share(self) -> f64 {
        as_share(f64::from(self))
    }
}

impl AsRelative for i32 {
    ghost number = { λ n. of_int binary64 n };

    fn share(self) -> f64 {
        as_share(f64::from(self))
    }
}
