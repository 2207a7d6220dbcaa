use area::Area;
use size::desc::SizeDesc;
use size::kinds::Size;
use size::refusal::Refusal;
use size::relative::RelativeSize;

/// The sizes that a sheet is laid out by, in pixels.
pub struct Order {
    pub width: i32,
    pub height: i32,
    pub margin: i32,
    pub left: i32,
    pub bottom: u32,
}

/// A sheet's rectangle cut into nine cells, row by row: cell 4 is the plot, 3 and 5 lie beside it, 1 and 7 above and
/// below.
#[derive(Drop)]
pub struct Layout {
    pub root: Area,
    pub cells: [Area; 9],
    pub tick: i32,
}

impl Layout {
    /// The sheet of 200 by 100 pixels with margins of 5, 30 for the labels at the left and 20 for those at the bottom.
    pub(crate) fn of_sample() -> Result<Layout, Refusal> {
        Layout::of(&Order {
            width: 200,
            height: 100,
            margin: 5,
            left: 30,
            bottom: 20,
        })
    }

    fn of(order: &Order) -> Result<Layout, Refusal> {
        let root = Area::new(0, 0, order.width, order.height)?;
        let inner = root.margin(order.margin, order.margin, order.margin, order.margin)?;
        let (width, height) = inner.dim_in_pixel();
        let xs = [Size::Pixels(order.left), Size::Unsigned(width)];
        let ys = [
            Size::Unsigned(0),
            Size::Unsigned(height.saturating_sub(order.bottom)),
        ];
        let mut cells = [root; 9];
        inner.split_by_breakpoints(&xs, &ys, &mut cells)?;
        let tick = RelativeSize::Smaller(0.05).max(5).in_pixels(&cells[4])?;
        Ok(Layout { root, cells, tick })
    }
}
