//! Lines of the trace, each written as it is made.
use lines::Line;
use std::io::Write;

// Writes out a line, or tells that it cannot. Where that cannot be told either, nothing is left to do.
fn flush<W: Write, E: Write>(writer: &mut W, errors: &mut E, line: &[u8]) {
    if writer.write_all(line).is_err() {
        let _ = errors.write_all(b"executive: cannot write\n");
    }
}

pub fn header<W: Write, E: Write>(writer: &mut W, errors: &mut E) {
    let mut out = [0u8; lines::ROOM];
    let to = lines::write_header(&mut out, 0);
    flush(writer, errors, &out[..to]);
}

pub fn line<W: Write, E: Write>(
    writer: &mut W,
    errors: &mut E,
    event: u64,
    line: Line,
    anchor: u64,
) {
    let mut out = [0u8; lines::ROOM];
    let to = lines::write_line(&mut out, 0, event, line, anchor);
    flush(writer, errors, &out[..to]);
}
