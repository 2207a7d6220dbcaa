ghost use Rattle.std.specs.Prelude.{◌≡◌};
ghost use Rattle.area.specs.Areas.{corners, viewed, viewed_pair};
ghost use Rattle.area.specs.Corners.{sides_of};
ghost use Rattle.area.specs.Insets.{margined, shrunk, cut_down, cut_across};

use crate::Area;
use crate::offset::Offset;
use size::desc::SizeDesc;
use size::refusal::Refusal;

impl Area {
    // What a size comes to in this area.
    pub(crate) fn pixels<S: SizeDesc>(&self, size: S) -> Result<Offset, Refusal>
        ensures { result ≡ S.SizeDesc.pixels size (sides_of (corners self.now)) }
    {
        let pixels = size.in_pixels(self)?;
        Ok(Offset { pixels })
    }

    /// What is left once each side has lost its margin; a margin below 0 adds to the area.
    pub fn margin<ST: SizeDesc, SB: SizeDesc, SL: SizeDesc, SR: SizeDesc>(
        &self,
        top: ST,
        bottom: SB,
        left: SL,
        right: SR,
    ) -> Result<Area, Refusal>
        ensures { viewed result ≡ margined (corners self.now) (ST.SizeDesc.pixels top) (SB.SizeDesc.pixels bottom) (SL.SizeDesc.pixels left) (SR.SizeDesc.pixels right) }
    {
        let (top, bottom) = (self.pixels(top)?, self.pixels(bottom)?);
        let (left, right) = (self.pixels(left)?, self.pixels(right)?);
        Ok(Area {
            across: self.across.inset(left, right)?,
            down: self.down.inset(top, bottom)?,
        })
    }

    /// The part that begins at `left_upper`, counted from the upper left corner, and has the dimension `dimension`.
    pub fn shrink<SL: SizeDesc, SU: SizeDesc, SW: SizeDesc, SH: SizeDesc>(
        &self,
        left_upper: (SL, SU),
        dimension: (SW, SH),
    ) -> Result<Area, Refusal>
        ensures { viewed result ≡ shrunk (corners self.now) (SL.SizeDesc.pixels left_upper.0) (SU.SizeDesc.pixels left_upper.1) (SW.SizeDesc.pixels dimension.0) (SH.SizeDesc.pixels dimension.1) }
    {
        let (left, upper) = (self.pixels(left_upper.0)?, self.pixels(left_upper.1)?);
        let (width, height) = (self.pixels(dimension.0)?, self.pixels(dimension.1)?);
        Ok(Area {
            across: self.across.shrink(left, width)?,
            down: self.down.shrink(upper, height)?,
        })
    }

    /// The part above the row `y`, counted from the area's first row, and the part from there on.
    pub fn split_vertically<S: SizeDesc>(&self, y: S) -> Result<(Area, Area), Refusal>
        ensures { viewed_pair result ≡ cut_down (corners self.now) (S.SizeDesc.pixels y) }
    {
        let (upper, lower) = self.down.split(self.pixels(y)?)?;
        Ok((
            Area {
                down: upper,
                ..*self
            },
            Area {
                down: lower,
                ..*self
            },
        ))
    }

    /// The part left of the column `x`, counted from the area's first column, and the part from there on.
    pub fn split_horizontally<S: SizeDesc>(&self, x: S) -> Result<(Area, Area), Refusal>
        ensures { viewed_pair result ≡ cut_across (corners self.now) (S.SizeDesc.pixels x) }
    {
        let (left, right) = self.across.split(self.pixels(x)?)?;
        Ok((
            Area {
                across: left,
                ..*self
            },
            Area {
                across: right,
                ..*self
            },
        ))
    }
}
