ghost use Rattle.std.specs.Prelude.{◌≡◌};
ghost use Rattle.backend.specs.Anchors.{GivesTurn, turn_of};

use size::refusal::Refusal;

/// How a text is turned, in quarter turns.
#[derive(Clone, Copy, PartialEq, Eq, Debug)]
pub enum FontTransform {
    None,
    Rotate90,
    Rotate180,
    Rotate270,
}

/// How many quarter turns.
impl From<FontTransform> for u8 {
    ghost from_gives = { λ t n. n ≡ turn_of t };

    fn from(turn: FontTransform) -> u8 {
        match turn {
            FontTransform::None => 0,
            FontTransform::Rotate90 => 1,
            FontTransform::Rotate180 => 2,
            FontTransform::Rotate270 => 3,
        }
    }
}

/// So many quarter turns; refused with 1 beyond 3.
impl TryFrom<u8> for FontTransform {
    type Error = Refusal;

    ghost try_from_gives = { GivesTurn };

    fn try_from(number: u8) -> Result<FontTransform, Refusal> {
        match number {
            0 => Ok(FontTransform::None),
            1 => Ok(FontTransform::Rotate90),
            2 => Ok(FontTransform::Rotate180),
            3 => Ok(FontTransform::Rotate270),
            _ => Err(Refusal::Range),
        }
    }
}
