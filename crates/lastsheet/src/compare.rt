// The sheet's marks on a list and as a stream, which must read back as the list's.
use crate::layout::Layout;
use crate::ruling::Ruling;
use area::Area;
use devices::list::ListDevice;
use devices::record::Record;
use size::refusal::Refusal;
use std::test::Fail;
use stream::device::StreamDevice;
use stream::reader::StreamReader;

// Whether two lists hold the same marks. By number, as a list is read.
fn same(a: &ListDevice, b: &ListDevice) -> bool {
    a.len() == b.len() && (0..a.len()).all(|k| a.get(k) == b.get(k))
}

// Whether a stream has the marks of a list, in their order and no others. By number too.
fn reads_as(bytes: &[u8], list: &ListDevice) -> Result<bool, Refusal> {
    let mut reader = StreamReader::new(bytes)?;
    for k in 0..list.len() {
        if reader.next_mark()?.map(|mark| mark.shape()) != list.get(k) {
            return Ok(false);
        }
    }
    Ok(reader.next_mark()?.is_none())
}

// Puts the sheet on a list and on a stream with letters so wide, and reads the stream back, mark by mark and onto another list: whether
// its marks are the first's both times, and how many bytes the stream has, which counts either way.
fn put_on_both(ruling: &Ruling, plot: &Area, letter: u32) -> Result<(bool, usize), Refusal> {
    let mut records = [Record::End; 40];
    let mut list = ListDevice::new(&mut records, &mut []);
    ruling.put(&mut list, plot)?;
    let mut bytes = [0; 1000];
    let mut stream = StreamDevice::new(&mut bytes);
    stream.begin(letter)?;
    ruling.put(&mut stream, plot)?;
    let mut read_records = [Record::End; 40];
    let mut read = ListDevice::new(&mut read_records, &mut []);
    stream.play_on(&mut read)?;
    let written = stream.bytes();
    Ok((
        reads_as(written, &list)? && same(&list, &read),
        written.len(),
    ))
}

#[test]
fn the_stream_reads_back_as_the_list(rt: HostRuntime) -> Result<(), Fail> {
    let plot = Layout::of_sample()?.cells[4];
    let ruling = Ruling::of_sample()?;
    assert_eq!(rt; put_on_both(&ruling, &plot, 6), Ok((true, 221)));
    assert_eq!(rt; put_on_both(&ruling, &plot, 101), Err(Refusal::Scale));
    Ok(())
}
