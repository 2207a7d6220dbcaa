ghost use Rattle.std.specs.Prelude.{◌≡◌, ◌<◌, ◌∷◌, ◌++◌, length, drop, if◌then◌else◌, Some, None, MatchOption, option_copied};
ghost use Rattle.codec.specs.Format.{be32};
ghost use Rattle.codec.specs.Exact.{Begins, NoMarkIn};
ghost use Rattle.codec.specs.Reading.{first, headed};
ghost use Rattle.codec.specs.Seen.{head_of, mark_in, seen};

use crate::encode::HEADER;
use backend::font::FontTransform;
use backend::mark::{Line, Mark, Text};
use backend::shape::{Lettering, Stroke};
use backend::text_anchor::Pos;

/// What follows the header of a stream; none where the bytes begin with no header.
pub fn read_header(input: &[u8]) -> Option<&[u8]>
    ensures { option_copied result ≡ (if headed input.now then Some (drop 5 input.now) else None) }
{
    input.strip_prefix(&HEADER)
}

// A number in four bytes, the highest first, and what follows it.
#[tactic(auto, using(crate::proofs::Parses::fours))]
fn read_i32(input: &[u8]) -> Option<(i32, &[u8])>
    ensures { MatchOption result (length input.now < 4) (λ p. input.now ≡ be32 p.0 ++ p.1.now) }
{
    let (bytes, rest) = input.split_first_chunk()?;
    Some((i32::from_be_bytes(*bytes), rest))
}

// A line past the byte of its kind.
fn read_line(input: &[u8]) -> Option<(Mark<'_>, &[u8])>
    ensures { Begins (1 ∷ input.now) (seen result) }
{
    let (x0, rest) = read_i32(input)?;
    let (y0, rest) = read_i32(rest)?;
    let (x1, rest) = read_i32(rest)?;
    let (y1, rest) = read_i32(rest)?;
    let (&ink, rest) = rest.split_first()?;
    let line = Line::new(Stroke {
        x0,
        y0,
        x1,
        y1,
        ink,
    })
    .ok()?;
    Some((Mark::line(line), rest))
}

// A text's numbers past the byte of its kind: the text but for its bytes, how many these are, and what follows.
#[tactic(auto, using(crate::proofs::Parses::fives))]
fn read_lettering(input: &[u8]) -> Option<(Lettering, u8, &[u8])>
    ensures { MatchOption result (NoMarkIn (2 ∷ input.now)) (λ p. 2 ∷ input.now ≡ head_of p.0 p.1 ++ p.2.now) }
{
    let (x, rest) = read_i32(input)?;
    let (y, rest) = read_i32(rest)?;
    let (&[anchor, turn, font, ink, n], rest) = rest.split_first_chunk::<5>()?;
    let anchor = Pos::try_from(anchor).ok()?;
    let turn = FontTransform::try_from(turn).ok()?;
    let lettering = Lettering {
        x,
        y,
        anchor,
        turn,
        font,
        ink,
    };
    Some((lettering, n, rest))
}

// A text past the byte of its kind; its bytes are that part of the input.
fn read_text(input: &[u8]) -> Option<(Mark<'_>, &[u8])>
    ensures { Begins (2 ∷ input.now) (seen result) }
{
    let (lettering, n, rest) = read_lettering(input)?;
    if n > 64 {
        return None;
    }
    let (bytes, rest) = rest.split_at_checked(usize::from(n))?;
    let text = Text::new(lettering).ok()?;
    Some((Mark::text(text, bytes), rest))
}

/// The mark that bytes begin with, its text a part of them, and what follows it; none where no mark in range starts there.
#[tactic(auto, using(crate::proofs::Exactly::firsts))]
pub fn read_mark(input: &[u8]) -> Option<(Mark<'_>, &[u8])>
    ensures begins { Begins input.now (seen result) }
    ensures first { mark_in (seen result) ≡ first input.now }
{
    let (kind, rest) = input.split_first()?;
    match *kind {
        1 => read_line(rest),
        2 => read_text(rest),
        3 => Some((Mark::end(), rest)),
        _ => None,
    }
}
