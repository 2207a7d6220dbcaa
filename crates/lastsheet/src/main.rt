// Lays out one measurement sheet, rules it, and states what it did.
#![tactic(auto)]

#[cfg(test)]
mod compare;
mod layout;
mod ruling;

use crate::layout::Layout;
use crate::ruling::{LABELS, Ruling, ends, label};
use area::Area;
use coord::key_points::key_points;
use coord::ranged::Ranged;
use format::decimal::Decimal;
use format::formatter::ValueFormatter;
use format::station::StationLabel;
use size::refusal::Refusal;

fn main(rt: HostRuntime) -> anyhow::Result<()> {
    run(&rt)
}

fn run(rt: &HostRuntime) -> anyhow::Result<()> {
    match sample() {
        Ok((layout, ruling)) => {
            state_layout(rt, &layout)?;
            state_ruling(rt, &ruling, &layout.cells[4])
        }
        Err(refusal) => {
            println!(rt; "{refusal}")?;
            Ok(())
        }
    }
}

fn sample() -> Result<(Layout, Ruling), Refusal> {
    Ok((Layout::of_sample()?, Ruling::of_sample()?))
}

fn state_layout(rt: &HostRuntime, layout: &Layout) -> anyhow::Result<()> {
    let root = layout.root;
    let plot = layout.cells[4];
    let tick = layout.tick;
    println!(rt; "sheet {root}")?;
    println!(rt; "plot {plot}")?;
    for (k, cell) in layout.cells.iter().enumerate() {
        println!(rt; "cell {k} {cell}")?;
    }
    println!(rt; "tick {tick}")?;
    Ok(())
}

fn state_ruling(rt: &HostRuntime, ruling: &Ruling, plot: &Area) -> anyhow::Result<()> {
    let (columns, rows) = plot.get_pixel_range();
    let (top, bottom) = ends(&rows);
    state_keys(
        rt,
        "column",
        &ruling.stations,
        &StationLabel,
        ends(&columns),
    )?;
    state_keys(rt, "row", &ruling.girths, &Decimal, (bottom, top))?;
    state_list(rt, ruling, plot, 40)?;
    state_list(rt, ruling, plot, 6)
}

// Each key value of an axis, with its column or row.
fn state_keys<V: Copy, A: Ranged<ValueType = V>, F: ValueFormatter<V>>(
    rt: &HostRuntime,
    name: &str,
    axis: &A,
    formatter: &F,
    limits: (i32, i32),
) -> anyhow::Result<()> {
    for value in key_points(*axis, LABELS) {
        let label = label(rt.alloc(), formatter, value)?;
        let place = axis.map(value, limits)?;
        println!(rt; "{name} {place} for {label}")?;
    }
    Ok(())
}

// What a list device with so much room takes of the frame and the station lines.
fn state_list(rt: &HostRuntime, ruling: &Ruling, plot: &Area, room: usize) -> anyhow::Result<()> {
    let (held, answer) = ruling.put_on_list(rt.alloc(), plot, room)?;
    match answer {
        Ok(count) => println!(rt; "list with room for {room} holds {held}, put {count}")?,
        Err(Refusal::Device { number, count }) => {
            println!(rt;
                "list with room for {room} holds {held}, refused with {number} after {count}"
            )?
        }
        Err(refusal) => println!(rt; "{refusal}")?,
    }
    Ok(())
}
