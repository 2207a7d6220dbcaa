ghost use Rattle.std.specs.Prelude.{◌≡◌};
ghost use Rattle.area.specs.Areas.{corners, viewed};
ghost use Rattle.area.specs.Corners.{area_of, sides_of, holds};

use crate::Area;
use crate::side::Side;
use size::desc::HasDimension;
use size::refusal::Refusal;
use std::fmt;
use std::ops::Range;

impl Area {
    /// The area with these corners; refused with 2 where no area may be so.
    pub fn new(x0: i32, y0: i32, x1: i32, y1: i32) -> Result<Area, Refusal>
        ensures { viewed result ≡ area_of (record { left = x0; top = y0; right = x1; bottom = y1 }) }
    {
        Ok(Area {
            across: Side::new(x0, x1)?,
            down: Side::new(y0, y1)?,
        })
    }

    /// Width and height.
    pub fn dim_in_pixel(&self) -> (u32, u32)
        ensures { result ≡ sides_of (corners self.now) }
    {
        (self.across.length(), self.down.length())
    }

    /// The upper left corner, from which places in the area count.
    pub fn get_base_pixel(&self) -> (i32, i32)
        ensures { result ≡ ((corners self.now).left, (corners self.now).top) }
    {
        (self.across.from, self.down.from)
    }

    /// The columns and the rows.
    pub fn get_pixel_range(&self) -> (Range<i32>, Range<i32>)
        ensures columns { result.0 ≡ record { start = (corners self.now).left; end = (corners self.now).right } }
        ensures rows { result.1 ≡ record { start = (corners self.now).top; end = (corners self.now).bottom } }
    {
        (self.across.into(), self.down.into())
    }

    /// Whether the pixel in column `x` and row `y` is one of the area's.
    pub fn contains(&self, x: i32, y: i32) -> bool
        ensures { result ≡ holds (corners self.now) x y }
    {
        self.across.contains(x) && self.down.contains(y)
    }
}

impl HasDimension for Area {
    ghost sides = { λ a. sides_of (corners a) };

    fn dim(&self) -> (u32, u32) {
        self.dim_in_pixel()
    }
}

/// Both corners, as `(5, 5) to (195, 95)`.
impl fmt::Display for Area {
    fn fmt<W: fmt::Write>(&self, f: &mut fmt::Formatter<W>) -> fmt::Result {
        let (x0, y0) = self.get_base_pixel();
        let (x1, y1) = (self.across.to, self.down.to);
        write!(f, "({x0}, {y0}) to ({x1}, {y1})")
    }
}
