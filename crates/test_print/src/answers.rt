// What field functions answer: a refusal, a clock, a header.
use super::{write, write_value};
use answer::Refusal;
use calendar::{Clock, Field};
use mgl::Header;
use std::io;
use std::io::Write;

pub fn refused<W: Write>(to: &mut W, label: &[u8], refusal: Refusal) -> io::Result<()> {
    write_value(to, label, refusal)
}

fn name(field: Field) -> &'static str {
    match field {
        Field::Month => "month",
        Field::Day => "day",
        Field::Hour => "hour",
        Field::Minute => "minute",
        Field::Second => "second",
        Field::Year => "year",
    }
}

fn shown<W: Write>(to: &mut W, label: &[u8], clock: Clock) -> io::Result<()> {
    write(to, label)?;
    match clock {
        Clock::Unset => write(to, b"unset"),
        Clock::Good(seconds) => write_value(to, b"", seconds),
        Clock::Wrong(field) => write_value(to, b"wrong ", name(field)),
    }
}

pub fn clock<W: Write>(to: &mut W, label: &[u8], answer: Result<Clock, Refusal>) -> io::Result<()> {
    match answer {
        Ok(clock) => shown(to, label, clock)?,
        Err(refusal) => refused(to, label, refusal)?,
    }
    write(to, b"\n")
}

pub fn header<W: Write>(to: &mut W, answer: Result<Header, Refusal>) -> io::Result<()> {
    match answer {
        Ok(header) => {
            write_value(to, b"header type ", header.message_type)?;
            write_value(to, b" rate ", header.rate)?;
            write_value(to, b" count ", header.count)?;
            write_value(to, b" version ", header.version)?;
        }
        Err(refusal) => refused(to, b"header ", refusal)?,
    }
    write(to, b"\n")
}
