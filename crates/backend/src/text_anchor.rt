ghost use Rattle.std.specs.Prelude.{◌≡◌};
ghost use Rattle.backend.specs.Anchors.{GivesPos, across_of, anchor_of, down_of};

use size::refusal::Refusal;

/// Which column of a text stands at its place.
#[derive(Clone, Copy, PartialEq, Eq, Debug)]
pub enum HPos {
    Left,
    Center,
    Right,
}

/// Which row of a text stands at its place.
#[derive(Clone, Copy, PartialEq, Eq, Debug)]
pub enum VPos {
    Top,
    Center,
    Bottom,
}

/// The point of a text that stands at its place.
#[derive(Clone, Copy, PartialEq, Eq, Debug)]
pub struct Pos {
    pub h_pos: HPos,
    pub v_pos: VPos,
}

/// Left 0, centre 1, right 2.
impl From<HPos> for u8 {
    ghost from_gives = { λ h n. n ≡ across_of h };

    fn from(h_pos: HPos) -> u8 {
        match h_pos {
            HPos::Left => 0,
            HPos::Center => 1,
            HPos::Right => 2,
        }
    }
}

/// Top 0, centre 1, bottom 2.
impl From<VPos> for u8 {
    ghost from_gives = { λ v n. n ≡ down_of v };

    fn from(v_pos: VPos) -> u8 {
        match v_pos {
            VPos::Top => 0,
            VPos::Center => 1,
            VPos::Bottom => 2,
        }
    }
}

impl Pos {
    /// The anchor at these two positions.
    pub fn new(h_pos: HPos, v_pos: VPos) -> Pos
        ensures { result ≡ record { h_pos = h_pos; v_pos = v_pos } }
    {
        Pos { h_pos, v_pos }
    }
}

/// The number that stands for the anchor in every file: three times the column and the row.
impl From<Pos> for u8 {
    ghost from_gives = { λ p n. n ≡ anchor_of p };

    fn from(pos: Pos) -> u8 {
        3 * u8::from(pos.h_pos) + u8::from(pos.v_pos)
    }
}

/// The anchor with this number; refused with 1 beyond 8.
impl TryFrom<u8> for Pos {
    type Error = Refusal;

    ghost try_from_gives = { GivesPos };

    fn try_from(number: u8) -> Result<Pos, Refusal> {
        if number > 8 {
            return Err(Refusal::Range);
        }
        // No `TryFrom` for the parts: past the test neither is out of range, and those would refuse.
        let h_pos = match number / 3 {
            0 => HPos::Left,
            1 => HPos::Center,
            _ => HPos::Right,
        };
        let v_pos = match number % 3 {
            0 => VPos::Top,
            1 => VPos::Center,
            _ => VPos::Bottom,
        };
        Ok(Pos::new(h_pos, v_pos))
    }
}
