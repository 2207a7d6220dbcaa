ghost use Rattle.std.specs.Prelude.{◌≡◌};
ghost use Rattle.backend.specs.Marks.{end, line_answer, line_of, made_line, made_text, mark_of, text_answer, text_of};

use crate::mark::{Line, Mark, Text};
use crate::shape::{Lettering, Shape, Stroke};
use size::refusal::Refusal;

impl Line {
    /// A line; refused with 1 where its ink is over 100.
    pub fn new(stroke: Stroke) -> Result<Line, Refusal>
        ensures { made_line result ≡ line_answer stroke }
    {
        if stroke.ink > 100 {
            return Err(Refusal::Range);
        }
        Ok(Line { stroke })
    }
}

impl Text {
    /// A text but for its bytes; refused with 1 where its font is over 200 or its ink over 100.
    pub fn new(lettering: Lettering) -> Result<Text, Refusal>
        ensures { made_text result ≡ text_answer lettering }
    {
        if lettering.font > 200 || lettering.ink > 100 {
            return Err(Refusal::Range);
        }
        Ok(Text { lettering })
    }
}

impl<'a> Mark<'a> {
    /// The line as a mark.
    pub fn line(line: Line) -> Mark<'a>
        ensures { mark_of result ≡ line_of line.stroke }
    {
        Mark {
            shape: Shape::Line(line.stroke),
        }
    }

    /// The text as a mark, with these bytes.
    pub fn text(text: Text, bytes: &'a [u8]) -> Mark<'a>
        ensures { mark_of result ≡ text_of text.lettering bytes.now }
    {
        Mark {
            shape: Shape::Text(text.lettering, bytes),
        }
    }

    /// The mark that ends a sheet.
    pub fn end() -> Mark<'a>
        ensures { mark_of result ≡ end }
    {
        Mark { shape: Shape::End }
    }

    /// What the mark is made of.
    pub fn shape(&self) -> Shape<'a>
        ensures { result ≡ self.now.shape }
    {
        self.shape
    }
}
