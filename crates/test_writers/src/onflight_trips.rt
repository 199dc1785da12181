// An OnFlight frame, written and read back.
use super::bytes;
use super::bytes::MARK;
use framing::Format;
use std::io;
use std::io::Write;
use test_print::{write, write_hex};

pub(crate) fn trips(to: &mut impl Write) -> io::Result<()> {
    write(to, b"OnFlight, a payload that counts up from 64\n")?;
    let mut payload = [0; 152];
    bytes::count(&mut payload, 64);
    let mut out = [MARK; 162];
    let writing = frame_writer::write_onflight(&payload, &mut out);
    bytes::shown(to, writing, &out)?;
    write(to, b"payload ")?;
    write_hex(
        to,
        content::body(Format::Onflight, bytes::made(writing, &out)),
    )?;
    write(to, b"\n")
}
