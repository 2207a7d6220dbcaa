ghost use Rattle.backend.specs.Shapes.{LetteringOk, ShapeOk, StrokeOk};

use crate::shape::{Lettering, Shape, Stroke};

// `Line` and `Text` stay two structs: one over a trait of what is in range has more lines than both.

/// A line with its ink in range.
#[derive(Clone, Copy, PartialEq, Eq, Debug)]
pub struct Line {
    stroke: Stroke,
    ghost ok: { StrokeOk stroke },
}

/// A text but for its bytes, with its font and its ink in range.
#[derive(Clone, Copy, PartialEq, Eq, Debug)]
pub struct Text {
    lettering: Lettering,
    ghost ok: { LetteringOk lettering },
}

/// A line, a text, which borrows its bytes, or an end. No mark has ink over 100 or a font over 200.
#[derive(Clone, Copy, PartialEq, Eq, Debug)]
pub struct Mark<'a> {
    shape: Shape<'a>,
    ghost ok: { ShapeOk shape },
}

mod make;
