ghost use Rattle.replay.specs.Lines.{Takes};

use crate::fault::{Fault, Unread};
use crate::words::Words;
use axes::kinds::{AnyAxis, AnyValue};
use axes::station::Station;
use axes::stations::StationAxis;
use axes::whole::WholeAxis;
use coord::key_points::key_points;
use coord::layered::Layered;
use coord::points::BoldPoints;
use coord::ranged::Ranged;
use format::either::AnyLabel;
use format::formatter::ValueFormatter;
use size::refusal::Refusal;
use std::alloc::Global;
use std::fmt::Write;

/// The kind of value that an axis has.
#[derive(Clone, Copy, PartialEq, Eq)]
enum Kind {
    Whole,
    Station,
}

/// An axis under its layers, or the refusal of the axis itself.
type Made = Result<Layered<AnyAxis, AnyValue>, Refusal>;

/// A question and an axis: `place A B VALUE AXIS`, `shown A B AXIS` or `keys MOST AXIS`.
pub(crate) fn answer(heap: Global, words: &mut Words<'_>) -> Result<String, Fault> {
    match words.next()? {
        "place" => place(heap, words),
        "shown" => shown(heap, words),
        "keys" => keys(heap, words),
        _ => Err(Fault::Unread),
    }
}

fn place(heap: Global, words: &mut Words<'_>) -> Result<String, Fault> {
    let limits = words.pair()?;
    let kind = match words.peek() {
        Some("e") | Some("c") => Kind::Station,
        _ => Kind::Whole,
    };
    let value = value(words, kind)?;
    let (found, axis) = axis(words)?;
    words.done()?;
    if found != kind {
        return Err(Fault::Unread);
    }
    let place = axis?.map(value, limits)?;
    Ok(format!(in heap; "{place}")?)
}

fn shown(heap: Global, words: &mut Words<'_>) -> Result<String, Fault> {
    let limits = words.pair()?;
    let (_, axis) = axis(words)?;
    words.done()?;
    let (low, high) = axis?.axis_pixel_range(limits)?;
    Ok(format!(in heap; "{low} {high}")?)
}

// The number of key values, then the label of each.
fn keys(heap: Global, words: &mut Words<'_>) -> Result<String, Fault> {
    let hint = BoldPoints(words.number::<usize>()?);
    let (_, axis) = axis(words)?;
    words.done()?;
    let points = key_points(axis?, hint);
    let count = points.len();
    let mut text = format!(in heap; "{count}")?;
    for value in points {
        push_label(&mut text, value)?;
    }
    Ok(text)
}

// A space and the label of a value.
fn push_label(text: &mut String, value: AnyValue) -> Result<(), Fault> {
    let mut scratch = [0; 32];
    let length = AnyLabel.format(value, &mut scratch)?;
    text.push(' ')?;
    // Each byte as a character: to read them as UTF-8 would add a failure that cannot be.
    text.extend(scratch.iter().take(length).map(|byte| char::from(*byte)))?;
    Ok(())
}

// A value: a number, or `e` or `c` and the number of a station.
fn value(words: &mut Words<'_>, kind: Kind) -> Result<AnyValue, Unread>
    ensures { Takes result words.old words.new }
{
    if kind == Kind::Whole {
        return Ok(AnyValue::Whole(words.number::<i32>()?));
    }
    match words.next()? {
        "e" => Ok(AnyValue::Station(Station::Edge(words.number::<u32>()?))),
        "c" => Ok(AnyValue::Station(Station::Centre(words.number::<u32>()?))),
        _ => Err(Unread),
    }
}

// `whole LO HI` or `stations N`, and any layers. The kind stands beside the axis, since one that is refused has none, and its layers are
// still read by it.
fn axis(words: &mut Words<'_>) -> Result<(Kind, Made), Unread> {
    match words.next()? {
        "whole" => {
            let (lo, hi) = words.pair()?;
            let below = WholeAxis::new(lo, hi).map(|axis| Layered::new(AnyAxis::Whole(axis)));
            Ok((Kind::Whole, layers(words, Kind::Whole, below)?))
        }
        "stations" => {
            let n = words.number::<u32>()?;
            let below = StationAxis::new(n).map(|axis| Layered::new(AnyAxis::Stations(axis)));
            Ok((Kind::Station, layers(words, Kind::Station, below)?))
        }
        _ => Err(Unread),
    }
}

// Any of `turned` and `part VALUE VALUE`, to the end of the line.
fn layers(words: &mut Words<'_>, kind: Kind, below: Made) -> Result<Made, Unread> {
    let mut made = below;
    while words.peek().is_some() {
        made = layer(words, kind, made)?;
    }
    Ok(made)
}

// One layer more.
fn layer(words: &mut Words<'_>, kind: Kind, below: Made) -> Result<Made, Unread>
    ensures { Takes result words.old words.new }
{
    match words.next()? {
        "turned" => Ok(below.map(|axis| axis.turned())),
        "part" => {
            let from = value(words, kind)?;
            let to = value(words, kind)?;
            Ok(below.map(|axis| axis.part(from, to)))
        }
        _ => Err(Unread),
    }
}
