use area::Area;
use axes::stations::StationAxis;
use axes::whole::WholeAxis;
use backend::device::Device;
use backend::feed::feed;
use backend::mark::{Line, Mark};
use backend::shape::Stroke;
use coord::keys::key_place;
use coord::points::BoldPoints;
use coord::ranged::Ranged;
use devices::list::ListDevice;
use devices::record::Record;
use format::formatter::ValueFormatter;
use size::refusal::Refusal;
use std::alloc::{AllocError, Global};
use std::ops::Range;

/// The most labels that an axis gets.
pub(crate) const LABELS: BoldPoints = BoldPoints(11);

/// The axes of a sheet: stations from left to right, girths in millimetres from bottom to top.
#[derive(Clone, Copy)]
pub(crate) struct Ruling {
    pub(crate) stations: StationAxis,
    pub(crate) girths: WholeAxis,
}

impl Ruling {
    /// Eight stations, and girths from 180 to 260.
    pub(crate) fn of_sample() -> Result<Ruling, Refusal> {
        Ok(Ruling {
            stations: StationAxis::new(8)?,
            girths: WholeAxis::new(180, 260)?,
        })
    }

    /// Puts the frame of the plot and a line for each station, and answers how many marks that were.
    pub(crate) fn put<D: Device>(&self, device: &mut D, plot: &Area) -> Result<u32, Refusal> {
        let (columns, rows) = plot.get_pixel_range();
        let (top, bottom) = ends(&rows);
        let mut lines = Lines { device, put: 0 };
        lines.put_frame(plot)?;
        // By number, as `key_place` is asked, which promises a place in the plot.
        for k in 0..self.stations.key_count(LABELS) {
            if let Some(x) = key_place(&self.stations, LABELS, k, ends(&columns))? {
                lines.put_line((x, bottom), (x, top), 20)?;
            }
        }
        Ok(lines.put)
    }

    /// The same on a list device with room for so many marks: how many it holds then, and the answer.
    pub(crate) fn put_on_list(
        &self,
        heap: Global,
        plot: &Area,
        room: usize,
    ) -> Result<(usize, Result<u32, Refusal>), AllocError> {
        let mut records = vec![in heap; Record::End; room]?;
        let mut list = ListDevice::new(&mut records, &mut []);
        let answer = self.put(&mut list, plot);
        Ok((list.len(), answer))
    }
}

/// The first and the last of some pixels.
pub(crate) fn ends(pixels: &Range<i32>) -> (i32, i32) {
    (pixels.start, pixels.end.saturating_sub(1))
}

// A device, and how many lines have been put on it.
#[derive(Drop)]
struct Lines<'a, D> {
    device: &'a mut D,
    put: u32,
}

impl<'a, D: Device> Lines<'a, D> {
    // Puts the four lines around the plot, clockwise from its upper left corner.
    fn put_frame(&mut self, plot: &Area) -> Result<(), Refusal> {
        let (columns, rows) = plot.get_pixel_range();
        let ((x0, x1), (y0, y1)) = (ends(&columns), ends(&rows));
        let mut from = (x0, y0);
        for to in [(x1, y0), (x1, y1), (x0, y1), (x0, y0)] {
            self.put_line(from, to, 100)?;
            from = to;
        }
        Ok(())
    }

    // Puts one line more.
    fn put_line(&mut self, from: (i32, i32), to: (i32, i32), ink: u8) -> Result<(), Refusal> {
        let line = Line::new(Stroke {
            x0: from.0,
            y0: from.1,
            x1: to.0,
            y1: to.1,
            ink,
        })?;
        // `feed` takes a u32 and answers a usize, so its count is not handed on.
        feed(self.device, self.put, Mark::line(line))?;
        self.put = self.put.saturating_add(1);
        Ok(())
    }
}

/// The label of a value.
pub(crate) fn label<V: Copy, F: ValueFormatter<V>>(
    heap: Global,
    formatter: &F,
    value: V,
) -> anyhow::Result<String> {
    let mut scratch = [0; 32];
    let length = formatter.format(value, &mut scratch)?;
    // Each byte as a character: to read them as UTF-8 would add a failure that cannot be. `replay` has these lines too: a function for both
    // would be no shorter.
    let text = scratch.iter().take(length).map(|byte| char::from(*byte));
    Ok(text.collect(heap)?)
}
