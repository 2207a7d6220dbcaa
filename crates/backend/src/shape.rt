use crate::font::FontTransform;
use crate::text_anchor::Pos;

/// A line's two ends and its ink, in percent of black.
#[derive(Clone, Copy, PartialEq, Eq, Debug)]
pub struct Stroke {
    pub x0: i32,
    pub y0: i32,
    pub x1: i32,
    pub y1: i32,
    pub ink: u8,
}

/// A text but for its bytes: its place, what of it stands there, how it is turned, its font's size and its ink.
#[derive(Clone, Copy, PartialEq, Eq, Debug)]
pub struct Lettering {
    pub x: i32,
    pub y: i32,
    pub anchor: Pos,
    pub turn: FontTransform,
    pub font: u8,
    pub ink: u8,
}

/// What a mark is made of, its numbers not yet known to be in range.
#[derive(Clone, Copy, PartialEq, Eq, Debug)]
pub enum Shape<'a> {
    Line(Stroke),
    Text(Lettering, &'a [u8]),
    End,
}
