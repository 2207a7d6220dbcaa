ghost use Rattle.std.specs.Prelude.{◌<◌, ◌≤◌, OnOk};
ghost use Rattle.replay.specs.Lines.{Takes, left};

use crate::fault::{Fault, Unread};
use crate::words::Words;
use area::Area;
use size::kinds::Size;
use size::refusal::Refusal;
use std::alloc::Global;
use std::fmt::Write;

/// A way to cut areas out of an area.
#[derive(Drop)]
enum Split {
    Shrink {
        left_upper: (Size, Size),
        dimension: (Size, Size),
    },
    Margin {
        top: Size,
        bottom: Size,
        left: Size,
        right: Size,
    },
    Vertically(Size),
    Horizontally(Size),
    Evenly {
        rows: usize,
        cols: usize,
    },
    ByBreakpoints {
        xs: Vec<Size>,
        ys: Vec<Size>,
    },
}

/// `SPLIT X0 Y0 X1 Y1` and what the split takes: the number of areas, then the corners of each.
pub(crate) fn answer(heap: Global, words: &mut Words<'_>) -> Result<String, Fault> {
    let name = words.next()?;
    let (x0, y0) = words.pair()?;
    let (x1, y1) = words.pair()?;
    let split = Split::read(heap, name, words)?;
    words.done()?;
    let whole = Area::new(x0, y0, x1, y1)?;
    let parts = split.parts(heap, &whole)?;
    listed(heap, &parts)
}

// Two sizes in a row. Not by `Words::pair`: a trait for what a word can be read as would be longer than both.
fn pair(words: &mut Words<'_>) -> Result<(Size, Size), Unread>
    ensures { Takes result words.old words.new }
{
    Ok((words.size()?, words.size()?))
}

// The sizes up to the word `y` or the end of the line.
fn sizes(heap: Global, words: &mut Words<'_>) -> Result<Vec<Size>, Fault>
    ensures { OnOk result (left words.new ≤ left words.old) }
{
    let mut all = Vec::new(heap);
    while words.peek().is_some_and(|word| word != "y") {
        all.push(words.size()?)?;
    }
    Ok(all)
}

impl Split {
    // What follows the root's corners, by the name of the split.
    fn read(heap: Global, name: &str, words: &mut Words<'_>) -> Result<Split, Fault> {
        match name {
            "shrink" => Ok(Split::Shrink {
                left_upper: pair(words)?,
                dimension: pair(words)?,
            }),
            "margin" => {
                let (top, bottom) = pair(words)?;
                let (left, right) = pair(words)?;
                Ok(Split::Margin {
                    top,
                    bottom,
                    left,
                    right,
                })
            }
            "split_vertically" => Ok(Split::Vertically(words.size()?)),
            "split_horizontally" => Ok(Split::Horizontally(words.size()?)),
            "split_evenly" => Ok(Split::Evenly {
                rows: words.number::<usize>()?,
                cols: words.number::<usize>()?,
            }),
            "split_by_breakpoints" => Split::read_breakpoints(heap, words),
            _ => Err(Fault::Unread),
        }
    }

    // `x SIZE.. y SIZE..`
    fn read_breakpoints(heap: Global, words: &mut Words<'_>) -> Result<Split, Fault> {
        words.expect("x")?;
        let xs = sizes(heap, words)?;
        words.expect("y")?;
        let ys = sizes(heap, words)?;
        Ok(Split::ByBreakpoints { xs, ys })
    }

    // The areas that the split gives, or its refusal.
    fn parts(&self, heap: Global, whole: &Area) -> Result<Vec<Area>, Fault> {
        match self {
            Split::Shrink {
                left_upper,
                dimension,
            } => Ok(vec![in heap; whole.shrink(*left_upper, *dimension)?]?),
            Split::Margin {
                top,
                bottom,
                left,
                right,
            } => Ok(vec![in heap; whole.margin(*top, *bottom, *left, *right)?]?),
            Split::Vertically(y) => {
                let (upper, lower) = whole.split_vertically(*y)?;
                Ok(vec![in heap; upper, lower]?)
            }
            Split::Horizontally(x) => {
                let (left, right) = whole.split_horizontally(*x)?;
                Ok(vec![in heap; left, right]?)
            }
            Split::Evenly { rows, cols } => {
                // at most 1,000 rows and columns
                let most = (*rows).min(1000) * (*cols).min(1000);
                cut(
                    heap,
                    whole,
                    most,
                    |out| whole.split_evenly((*rows, *cols), out),
                )
            }
            Split::ByBreakpoints { xs, ys } => {
                // at most 1,000 breakpoints each way, so 1,001 rows and columns
                let most = (xs.len().min(1000) + 1) * (ys.len().min(1000) + 1);
                cut(
                    heap,
                    whole,
                    most,
                    |out| whole.split_by_breakpoints(xs, ys, out),
                )
            }
        }
    }
}

// The areas that a split writes. Room is lent for `most`, all that it can write, so it never refuses the room as too short.
fn cut<F: FnOnce(&mut [Area]) -> Result<usize, Refusal>>(
    heap: Global,
    whole: &Area,
    most: usize,
    split: F,
) -> Result<Vec<Area>, Fault>
    requires { F.IsAlwaysCallable split }
{
    let mut parts = vec![in heap; *whole; most]?;
    let count = split(parts.as_mut_slice())?;
    parts.truncate(count);
    Ok(parts)
}

// How many areas there are, and the corners of each.
fn listed(heap: Global, parts: &[Area]) -> Result<String, Fault> {
    let count = parts.len();
    let mut text = format!(in heap; "{count}")?;
    for part in parts {
        let (xs, ys) = part.get_pixel_range();
        write!(text, " {},{},{},{}", xs.start, ys.start, xs.end, ys.end)?;
    }
    Ok(text)
}
