// The least and the largest value of each PLARS parameter, and the values next to them.
use super::bytes::MARK;
use super::{bytes, nmea_trips};
use std::io;
use std::io::Write;
use test_print::{write, write_value};

fn value(to: &mut impl Write, label: &[u8], parameter: u8, steps: u32) -> io::Result<()> {
    let mut out = [MARK; 28];
    let setting = nmea_trips::of(b'H', parameter, steps);
    let writing = nmea_plars_writer::write_setting(setting, &mut out);
    write_value(to, label, steps)?;
    write(to, b": ")?;
    bytes::answer(to, writing)?;
    write(to, b", ")?;
    nmea_trips::text(to, bytes::made(writing, &out))
}

pub(crate) fn all(to: &mut impl Write) -> io::Result<()> {
    write(to, b"PLARS, the limits in steps\n")?;
    value(to, b"MC ", 0, 0)?;
    value(to, b"MC ", 0, 99)?;
    value(to, b"MC ", 0, 100)?;
    value(to, b"BAL ", 1, 0)?;
    value(to, b"BAL ", 1, 1000)?;
    value(to, b"BAL ", 1, 1001)?;
    value(to, b"BUGS ", 2, 0)?;
    value(to, b"BUGS ", 2, 50)?;
    value(to, b"BUGS ", 2, 51)?;
    value(to, b"QNH ", 3, 4999)?;
    value(to, b"QNH ", 3, 5000)?;
    value(to, b"QNH ", 3, 12000)?;
    value(to, b"QNH ", 3, 12001)?;
    Ok(())
}
