// The frames that are handed out, on standard output.
use framing::{Format, Found};
use std::io;
use std::io::Write;
use test_print::{write, write_ends, write_value};

// A frame's length and its bytes; of more than 32 bytes the first 8 and the last 4.
fn frame(to: &mut impl Write, bytes: &[u8]) -> io::Result<()> {
    write_value(to, b"frame ", bytes.len())?;
    write(to, b" ")?;
    write_ends(to, bytes)?;
    write(to, b"\n")
}

// The frame that s begins with, and what follows it.
fn split_frame(format: Format, s: &[u8]) -> Option<(&[u8], &[u8])> {
    match framing::front(format, s) {
        Found::Frame(n) => s.split_at_checked(n),
        Found::Start | Found::Neither(_) => None,
    }
}

// The frames that stand back to back in bytes, a line for each. A reader answers how many there are, and not where each ends.
pub(crate) fn frames(to: &mut impl Write, format: Format, bytes: &[u8]) -> io::Result<()> {
    let mut rest = bytes;
    // There are at most as many frames as bytes.
    for _ in 0..bytes.len() {
        if rest.is_empty() {
            break;
        }
        let Some((first, others)) = split_frame(format, rest) else {
            return write(to, b"no frame\n");
        };
        frame(to, first)?;
        rest = others;
    }
    Ok(())
}
