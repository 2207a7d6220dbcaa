// What is written of the values of an axis.
#![tactic(auto)]

pub mod decimal;
pub mod either;
pub mod formatter;
mod scratch;
pub mod station;

#[cfg(test)]
mod tests {
    use crate::decimal::Decimal;
    use crate::formatter::ValueFormatter;
    use axes::kinds::{AnyAxis, AnyValue};
    use axes::station::Station;
    use axes::stations::StationAxis;
    use coord::layered::Layered;
    use coord::points::BoldPoints;
    use coord::ranged::Ranged;
    use std::test::Fail;

    // four stations, turned, then the part from the first edge of station 1 to the centre of station 3
    #[test]
    fn layers_of_an_order(rt: HostRuntime) -> Result<(), Fail> {
        let axis = StationAxis::new(4)?;
        let from = AnyValue::Station(Station::Edge(1));
        let to = AnyValue::Station(Station::Centre(3));
        let axis = Layered::new(AnyAxis::Stations(axis))
            .turned()
            .part(from, to);
        assert!(rt; axis.axis_pixel_range((0, 8)) == Ok((1, 6)));
        assert_eq!(rt; axis.key_count(BoldPoints(2)), 2);
        Ok(())
    }

    #[test]
    fn minus_one(rt: HostRuntime) {
        let mut scratch = [0; 32];
        assert!(rt; Decimal.format(-1, &mut scratch) == Ok(2));
        assert!(rt; scratch[0] == b'-' && scratch[1] == b'1');
    }
}
