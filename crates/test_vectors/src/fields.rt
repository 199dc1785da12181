// A sentence field by field, and what the field functions of RMC and PLARS say of it.
use calendar::Clock;
use framing::Format;
use nmea_rmc::rmc::Status;
use std::io;
use std::io::Write;
use test_print::answers::refused;
use test_print::{write, write_value};

fn clock(to: &mut impl Write, line: &[u8]) -> io::Result<()> {
    match nmea_rmc::rmc::read_clock(line) {
        Ok(Clock::Unset) => write(to, b"  clock unset"),
        Ok(Clock::Good(seconds)) => write_value(to, b"  clock ", seconds),
        Ok(Clock::Wrong(_)) => write(to, b"  clock wrong"),
        Err(refusal) => refused(to, b"  clock ", refusal),
    }
}

fn position(to: &mut impl Write, line: &[u8]) -> io::Result<()> {
    match nmea_rmc::rmc::read_position(line) {
        Ok(position) => {
            write_value(to, b", position ", position.latitude)?;
            write_value(to, b" ", position.longitude)
        }
        Err(refusal) => refused(to, b", position ", refusal),
    }
}

fn status(to: &mut impl Write, line: &[u8]) -> io::Result<()> {
    match nmea_rmc::rmc::read_status(line) {
        Ok(Status::Valid) => write(to, b", status A"),
        Ok(Status::Warning) => write(to, b", status V"),
        Err(refusal) => refused(to, b", status ", refusal),
    }
}

fn setting(to: &mut impl Write, line: &[u8]) -> io::Result<()> {
    match nmea_plars::read_setting(line) {
        Ok(setting) => {
            write(to, b", setting ")?;
            write(to, &[setting.source])?;
            write_value(to, b" ", setting.parameter)?;
            write_value(to, b" ", setting.value)
        }
        Err(refusal) => refused(to, b", setting ", refusal),
    }
}

// A line that is no frame has the empty body, and so one empty field.
pub(crate) fn write_fields(to: &mut impl Write, line: &[u8]) -> io::Result<()> {
    let body = content::body(Format::Nmea, line);
    for i in 0..nmea_sentence::field_count(body) {
        write_value(to, b"  ", i)?;
        write(to, b" '")?;
        write(to, nmea_sentence::field(body, i))?;
        write(to, b"'\n")?;
    }
    clock(to, line)?;
    position(to, line)?;
    status(to, line)?;
    setting(to, line)?;
    write(to, b"\n")
}
