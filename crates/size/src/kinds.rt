ghost use Rattle.size.specs.Kinds.{size_of};
ghost use Rattle.std.proofs.Common.{rules};

use crate::desc::{HasDimension, SizeDesc};
use crate::refusal::Refusal;
use crate::relative::{RelativeSize, RelativeSizeWithBound};

/// A size of any kind, for callers that hold sizes of mixed kinds.
#[derive(Clone, Copy, Debug)]
pub enum Size {
    Pixels(i32),
    Unsigned(u32),
    Real(f64),
    Relative(RelativeSize),
    Bounded(RelativeSizeWithBound),
}

impl SizeDesc for Size {
    ghost pixels = { size_of };

    ghost within = { Prim.search rules };

    fn in_pixels<T: HasDimension>(&self, parent: &T) -> Result<i32, Refusal> {
        match self {
            Size::Pixels(n) => n.in_pixels(parent),
            Size::Unsigned(n) => n.in_pixels(parent),
            Size::Real(x) => x.in_pixels(parent),
            Size::Relative(s) => s.in_pixels(parent),
            Size::Bounded(s) => s.in_pixels(parent),
        }
    }
}
