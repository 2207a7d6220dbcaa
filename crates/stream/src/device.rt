ghost use Rattle.std.specs.Prelude.{◌≡◌, ◌≤◌, true, length, take};
ghost use Rattle.stream.specs.Openings.{letters_ok, marks_in, opened};

/// A device that writes its marks as a stream into a lent slice of bytes.
#[derive(Drop)]
pub struct StreamDevice<'a> {
    // How far it is written stands beside it: the memory is lent, and nothing here has a heap.
    out: &'a mut [u8],
    used: usize,
    letters: Option<u32>,
    ghost short: { used ≤ length out.now },
    ghost narrow: { letters_ok letters ≡ true },
    ghost whole: { take used out.now ≡ opened letters (marks_in (take used out.now)) },
}

mod hear;
mod write;
