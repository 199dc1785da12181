// Sentences and settings, written and read back.
use super::bytes;
use super::bytes::MARK;
use framing::Format;
use nmea_plars::Setting;
use std::io;
use std::io::Write;
use test_print::{answers, write, write_value};

// A sentence as text, without its CR and LF.
pub(crate) fn text(to: &mut impl Write, frame: &[u8]) -> io::Result<()> {
    write(to, b"text ")?;
    if 2 <= frame.len() {
        let e = frame.len() - 2;
        write(to, &frame[0..e])?;
    }
    write(to, b"\n")
}

fn sentence(to: &mut impl Write, body: &[u8]) -> io::Result<()> {
    write(to, b"NMEA, ")?;
    write(to, body)?;
    write(to, b"\n")?;
    let mut out = [MARK; 24];
    let writing = frame_writer::write_nmea(body, &mut out);
    bytes::shown(to, writing, &out)?;
    let frame = bytes::made(writing, &out);
    text(to, frame)?;
    write(to, b"body ")?;
    write(to, content::body(Format::Nmea, frame))?;
    write(to, b"\n")
}

fn setting(to: &mut impl Write, label: &[u8], given: Setting) -> io::Result<()> {
    write(to, label)?;
    let mut out = [MARK; 28];
    let writing = nmea_plars_writer::write_setting(given, &mut out);
    bytes::shown(to, writing, &out)?;
    let frame = bytes::made(writing, &out);
    text(to, frame)?;
    match nmea_plars::read_setting(frame) {
        Ok(x) => {
            write(to, b"source ")?;
            write(to, &[x.source])?;
            write_value(to, b" parameter ", x.parameter)?;
            write_value(to, b" value ", x.value)?;
        }
        Err(r) => answers::refused(to, b"setting ", r)?,
    }
    write(to, b"\n")
}

// A setting of a parameter, by its number.
// Kept: numbers, here and in limits.rt: `write_setting` is given those that it refuses too.
pub(crate) fn of(source: u8, parameter: u8, value: u32) -> Setting {
    Setting {
        source,
        parameter,
        value,
    }
}

pub(crate) fn trips(to: &mut impl Write) -> io::Result<()> {
    sentence(to, b"PLARB,12.33")?;
    setting(to, b"PLARS, MC 1.3 from L\n", of(b'L', 0, 13))?;
    setting(to, b"PLARS, BAL 0.752 from H\n", of(b'H', 1, 752))?;
    setting(to, b"PLARS, BUGS 5 from L\n", of(b'L', 2, 5))?;
    setting(to, b"PLARS, QNH 1013.2 from H\n", of(b'H', 3, 10132))?;
    Ok(())
}
