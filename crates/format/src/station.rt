ghost use Rattle.format.specs.Texts.{station_text};

use crate::formatter::ValueFormatter;
use crate::scratch::write_marked;
use axes::station::Station;
use size::refusal::Refusal;

/// Writes S and the number of the station.
#[derive(Clone, Copy)]
pub struct StationLabel;

impl ValueFormatter<Station> for StationLabel {
    ghost text = { λ _ v. station_text v };

    fn format(&self, value: Station, out: &mut [u8]) -> Result<usize, Refusal> {
        let (Station::Edge(number) | Station::Centre(number)) = value;
        write_marked(b"S", number, out)
    }
}
