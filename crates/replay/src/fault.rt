ghost use Rattle.std.specs.Prelude.{◌≡◌};
ghost use Rattle.replay.specs.declared.fault.Fault.TheVariants.{Unread as NotRead, Refused as Denied, Memory};

use size::refusal::Refusal;
use std::alloc::{AllocError, AllocFailed};
use std::fmt;

/// A line that asks nothing: an unknown or a missing word, no number where one is due, or words left over.
#[derive(Clone, Copy, Debug)]
pub struct Unread;

/// Why a line has no answer.
#[derive(Clone, Copy, Debug)]
pub enum Fault {
    Unread,
    Refused(Refusal),
    Memory,
}

impl fmt::Display for Unread {
    fn fmt<W: fmt::Write>(&self, f: &mut fmt::Formatter<W>) -> fmt::Result {
        f.write_str("unread")
    }
}

impl fmt::Display for Fault {
    fn fmt<W: fmt::Write>(&self, f: &mut fmt::Formatter<W>) -> fmt::Result {
        match self {
            Fault::Unread => Unread.fmt(f),
            Fault::Refused(refusal) => write!(f, "{refusal}"),
            Fault::Memory => f.write_str("out of memory"),
        }
    }
}

impl From<Unread> for Fault {
    ghost from_gives = { λ _ r. r ≡ NotRead };

    fn from(_e: Unread) -> Fault {
        Fault::Unread
    }
}

impl From<Refusal> for Fault {
    ghost from_gives = { λ e r. r ≡ Denied e };

    fn from(e: Refusal) -> Fault {
        Fault::Refused(e)
    }
}

// The library has two errors for want of memory, and `?` converts each.
impl From<AllocError> for Fault {
    ghost from_gives = { λ _ r. r ≡ Memory };

    fn from(_e: AllocError) -> Fault {
        Fault::Memory
    }
}

impl<T: Drop> From<AllocFailed<T>> for Fault {
    ghost from_gives = { λ _ r. r ≡ Memory };

    fn from(_e: AllocFailed<T>) -> Fault {
        Fault::Memory
    }
}
