ghost use Rattle.std.specs.Prelude.{◌≡◌};
ghost use Rattle.devices.specs.Refusals.{put_number};

/// Why a device of this library refused a mark: one list for all of them, each case with its number.
#[derive(Clone, Copy, PartialEq, Eq, Debug)]
pub enum PutRefusal {
    /// 1: no room for the mark: a list has no record left; a stream is not begun, or has too few bytes left.
    NoRoom,
    /// 2: a list has a record left, but too few bytes for the text.
    NoTextRoom,
    /// 3: the text is over 64 bytes long.
    LongText,
}

/// The number that a device answers for the refusal.
impl From<PutRefusal> for u8 {
    ghost from_gives = { λ e n. n ≡ put_number e };

    fn from(refusal: PutRefusal) -> u8 {
        match refusal {
            PutRefusal::NoRoom => 1,
            PutRefusal::NoTextRoom => 2,
            PutRefusal::LongText => 3,
        }
    }
}
