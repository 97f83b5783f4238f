// A model, judged by the library under document 01's list L, as a line with the row's name.
use std::io;

// Eight cells, for four names, are enough for every row that does not say how many it has.
pub(crate) fn row(rt: &impl Print, name: &[u8], model: &[u8]) -> io::Result<()> {
    row_with(rt, name, model, &mut [0; 8])
}

pub(crate) fn row_with(
    rt: &impl Print,
    name: &[u8],
    model: &[u8],
    cells: &mut [u32],
) -> io::Result<()> {
    let list = b"\x00\x00\x00\x0B\x01\x00\x08\x00\x00\x00\x07\x00\x00\x00\x15";
    let answer = gate::check(model, list, cells);
    let mut text = [0u8; 96];
    let n = report::line(answer, &mut text);
    rt.write_all(name)?;
    rt.write_all(b": ")?;
    rt.write_all(&text[..n])
}
