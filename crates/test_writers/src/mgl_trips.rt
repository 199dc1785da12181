// MGL frames, written and read back.
use super::bytes;
use super::bytes::MARK;
use framing::Format;
use mgl::Header;
use std::io;
use std::io::Write;
use test_print::{answers, write, write_ends, write_hex};

// The body of a primary flight message, whose clock, in bytes 24 to 29, shows 17 June 2023 13:49:43.
const BODY: [u8; 32] = *b"\x10\x11\x12\x13\x14\x15\x16\x17\x18\x19\x1A\x1B\
    \x1C\x1D\x1E\x1F\x20\x21\x22\x23\x24\x25\x26\x27\x0D\x31\x2B\x11\x06\x17\x2E\x2F";

// Its header.
pub(crate) fn primary() -> Header {
    Header {
        message_type: 1,
        rate: 5,
        count: 4,
        version: 1,
    }
}

fn message(to: &mut impl Write) -> io::Result<()> {
    write(to, b"MGL, the primary flight message\n")?;
    let mut out = [MARK; 48];
    let writing = frame_writer::write_mgl(primary(), &BODY, &mut out);
    bytes::shown(to, writing, &out)?;
    let frame = bytes::made(writing, &out);
    answers::header(to, mgl::read_header(frame))?;
    write(to, b"body ")?;
    write_hex(to, content::body(Format::Mgl, frame))?;
    write(to, b"\n")?;
    answers::clock(to, b"clock ", mgl::clock::read_clock(frame))
}

fn longest(to: &mut impl Write) -> io::Result<()> {
    write(to, b"MGL, the longest frame\n")?;
    let mut body = [0; 264];
    bytes::count(&mut body, 0);
    let mut out = [MARK; 276];
    let writing = frame_writer::write_mgl(primary(), &body, &mut out);
    bytes::answer(to, writing)?;
    write(to, b"\nframe ")?;
    let frame = bytes::made(writing, &out);
    write_ends(to, frame)?;
    write(to, b"\n")?;
    answers::header(to, mgl::read_header(frame))?;
    write(to, b"body ")?;
    write_ends(to, content::body(Format::Mgl, frame))?;
    write(to, b"\n")
}

pub(crate) fn trips(to: &mut impl Write) -> io::Result<()> {
    message(to)?;
    longest(to)
}
