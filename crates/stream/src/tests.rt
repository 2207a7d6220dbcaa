use crate::device::StreamDevice;
use crate::play::{count, play};
use backend::device::Device;
use backend::font::FontTransform;
use backend::mark::{Line, Mark, Text};
use backend::shape::{Lettering, Stroke};
use backend::text_anchor::{HPos, Pos, VPos};
use devices::list::ListDevice;
use devices::record::Record;
use size::refusal::Refusal;
use std::test::Fail;

// A line from (0, 74) to (194, 74), a caption `S0` and the end, as docs/rules/stream.md has them.
const WORKED: [u8; 40] = [
    0x4c, 0x53, 0x48, 0x00, 0x01, 0x01, 0x00, 0x00, 0x00, 0x00, 0x00, 0x00, 0x00, 0x4a, 0x00, 0x00,
    0x00, 0xc2, 0x00, 0x00, 0x00, 0x4a, 0x64, 0x02, 0x00, 0x00, 0x00, 0x2c, 0xff, 0xff, 0xff, 0xfe,
    0x03, 0x00, 0x0c, 0x64, 0x02, 0x53, 0x30, 0x03,
];

#[test]
fn writes_the_worked_example(rt: HostRuntime) -> Result<(), Fail> {
    let mut out = [0; 40];
    let mut d = StreamDevice::new(&mut out);
    assert_eq!(rt; d.put(Mark::end()), Err(1));
    assert_eq!(rt; d.begin(101), Err(Refusal::Scale));
    d.begin(6)?;
    let line = Line::new(Stroke {
        x0: 0,
        y0: 74,
        x1: 194,
        y1: 74,
        ink: 100,
    })?;
    let head = Text::new(Lettering {
        x: 44,
        y: -2,
        anchor: Pos::new(HPos::Center, VPos::Top),
        turn: FontTransform::None,
        font: 12,
        ink: 100,
    })?;
    assert_eq!(rt; d.put(Mark::line(line)), Ok(()));
    assert_eq!(rt; d.put(Mark::text(head, &[65; 65])), Err(3));
    assert_eq!(rt; d.put(Mark::text(head, b"S0")), Ok(()));
    assert_eq!(rt; d.put(Mark::end()), Ok(()));
    assert_eq!(rt; d.put(Mark::end()), Err(1));
    assert_eq!(rt; d.measure(b"S0", 12), Some((12, 12)));
    assert!(rt; d.bytes() == &WORKED[..]);
    Ok(())
}

#[test]
fn reads_it_onto_a_list(rt: HostRuntime) {
    let mut records = [Record::End; 2];
    let mut text = [0; 2];
    let mut list = ListDevice::new(&mut records, &mut text);
    assert_eq!(rt; count(&WORKED), Ok(3));
    assert_eq!(rt; count(&WORKED[..39]), Ok(2));
    assert_eq!(rt; count(&WORKED[..38]), Err(Refusal::NoMark { place: 23 }));
    let refused = Refusal::Device {
        number: 1,
        count: 2,
    };
    assert_eq!(rt; play(&WORKED, &mut list), Err(refused));
    assert_eq!(rt; list.len(), 2);
}
