ghost use Rattle.std.specs.Prelude.{◌≡◌};
ghost use Rattle.devices.specs.Countdowns.{countdown};

use crate::list::ListDevice;
use crate::record::Record;
use backend::device::Device;
use backend::feed::feed;
use backend::font::FontTransform;
use backend::mark::{Line, Mark, Text};
use backend::shape::{Lettering, Shape, Stroke};
use backend::text_anchor::{HPos, Pos, VPos};
use size::refusal::Refusal;
use std::test::Fail;

// Lets so many marks through to the device below, and refuses the rest with 9.
#[derive(Drop)]
struct Countdown<'a, D> {
    device: &'a mut D,
    left: u8,
}

impl<'a, D: Device> Device for Countdown<'a, D> {
    ghost model = { λ r. countdown r.left (D.Device.model r.device.now) };

    fn put(&mut self, m: Mark) -> Result<(), u8> {
        if self.left == 0 {
            return Err(9);
        }
        self.device.put(m)?;
        self.left -= 1;
        Ok(())
    }

    fn measure(&self, text: &[u8], font: u8) -> Option<(u32, u32)> {
        self.device.measure(text, font)
    }
}

fn text_head() -> Result<Text, Refusal> {
    let anchor = Pos::new(HPos::Center, VPos::Top);
    Text::new(Lettering {
        x: -5,
        y: 7,
        anchor,
        turn: FontTransform::None,
        font: 12,
        ink: 100,
    })
}

fn stroke(ink: u8) -> Result<Line, Refusal> {
    Line::new(Stroke {
        x0: 0,
        y0: 1,
        x1: 2,
        y1: 3,
        ink,
    })
}

#[test]
fn keeps_and_reads(rt: HostRuntime) -> Result<(), Fail> {
    let mut records = [Record::End; 2];
    let mut bytes = [0; 3];
    let mut d = ListDevice::new(&mut records, &mut bytes);
    let head = text_head()?;
    assert_eq!(rt; d.put(Mark::text(head, b"left")), Err(2));
    assert_eq!(rt; d.put(Mark::text(head, &[65; 65])), Err(3));
    assert_eq!(rt; d.put(Mark::text(head, b"ab")), Ok(()));
    assert_eq!(rt; d.put(Mark::line(stroke(10)?)), Ok(()));
    assert_eq!(rt; d.put(Mark::text(head, b"left")), Err(1));
    assert_eq!(rt; d.len(), 2);
    assert_eq!(rt; d.room(), (0, 1));
    assert_eq!(rt; d.measure(b"abc", 11), Some((16, 11)));
    assert_eq!(rt; d.measure(b"a\nc", 11), None);
    let Some(Shape::Text(l, text)) = d.get(0) else {
        return Err(Fail::new("no text"));
    };
    assert_eq!(rt; l.x, -5);
    assert_eq!(rt; text.len(), 2);
    assert_eq!(rt; text.get(1), Some(&b'b'));
    assert_eq!(rt; d.get(2), None);
    Ok(())
}

#[test]
fn refuses_by_a_rule_of_its_own(rt: HostRuntime) -> Result<(), Fail> {
    let mut records = [Record::End; 4];
    let mut bytes = [0; 3];
    let mut list = ListDevice::new(&mut records, &mut bytes);
    let mut d = Countdown {
        device: &mut list,
        left: 1,
    };
    let put = feed(&mut d, 0, Mark::line(stroke(100)?))?;
    assert_eq!(rt; put, 1);
    assert_eq!(rt;
        feed(&mut d, 1, Mark::end()),
        Err(Refusal::Device {
            number: 9,
            count: 1,
        })
    );
    assert_eq!(rt; list.len(), 1);
    Ok(())
}

#[test]
fn makes_no_mark_out_of_range(rt: HostRuntime) -> Result<(), Fail> {
    assert_eq!(rt; stroke(101).map_err(u8::from), Err(1));
    assert_eq!(rt; u8::from(Pos::try_from(5)?), 5);
    assert_eq!(rt; Pos::try_from(9), Err(Refusal::Range));
    Ok(())
}
