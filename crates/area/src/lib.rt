// Rectangles of pixels: made within the limits, cut by margins, and split.
#![tactic(auto)]

mod breaks;
mod cells;
mod even;
mod inset;
mod make;
mod offset;
pub mod samples;
mod side;

use side::Side;

/// The pixels in some columns and rows: those with x0 ≤ x < x1 and y0 ≤ y < y1. No area has its corners out of order or beyond 30,000 either way.
#[derive(Clone, Copy, PartialEq, Eq, Debug)]
pub struct Area {
    across: Side,
    down: Side,
}
