ghost use Rattle.std.specs.Prelude.{◌≡◌};
ghost use Rattle.backend.specs.Marks.{line_of};
ghost use Rattle.codec.specs.Format.{encode};
ghost use Rattle.codec.specs.Seen.{head_of};

use backend::shape::{Lettering, Stroke};

/// What a stream begins with: the letters LSH, and version 1 in two bytes.
pub const HEADER: [u8; 5] = [b'L', b'S', b'H', 0, 1];

// The kinds are the format's own bytes 1, 2 and 3, each written once and read once. Numbers go in byte by byte: arrays join only on a
// heap, and writing into parts of one counts their ends by hand.

/// The bytes of a line.
pub fn line_bytes(s: &Stroke) -> [u8; 18]
    ensures { result ≡ encode (line_of s.now) }
{
    let [a0, a1, a2, a3] = s.x0.to_be_bytes();
    let [b0, b1, b2, b3] = s.y0.to_be_bytes();
    let [c0, c1, c2, c3] = s.x1.to_be_bytes();
    let [d0, d1, d2, d3] = s.y1.to_be_bytes();
    [
        1, a0, a1, a2, a3, b0, b1, b2, b3, c0, c1, c2, c3, d0, d1, d2, d3, s.ink,
    ]
}

/// The bytes of a text before its own, which are `length` in number.
pub fn text_head(l: &Lettering, length: u8) -> [u8; 14]
    ensures { result ≡ head_of l.now length }
{
    let [a0, a1, a2, a3] = l.x.to_be_bytes();
    let [b0, b1, b2, b3] = l.y.to_be_bytes();
    let (anchor, turn) = (u8::from(l.anchor), u8::from(l.turn));
    [
        2, a0, a1, a2, a3, b0, b1, b2, b3, anchor, turn, l.font, l.ink, length,
    ]
}
