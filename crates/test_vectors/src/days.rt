// The first and the last day of each month of some years, counted from 1970-01-01.
use calendar::{Clock, DateTime};
use std::io;
use std::io::Write;
use test_print::{write, write_units, write_value};

// Takes the year as the first one, so that its number is 0.
fn day(to: &mut impl Write, year: u16, month: u8, day: u8) -> io::Result<()> {
    let t = DateTime {
        year: 0,
        month,
        day,
        hour: 0,
        minute: 0,
        second: 0,
    };
    match calendar::clock_of(t, year, 0) {
        Clock::Good(seconds) => write_units(to, b"", seconds, 86_400),
        Clock::Wrong(_) => write(to, b"wrong"),
        Clock::Unset => write(to, b"unset"),
    }
}

fn months(to: &mut impl Write, year: u16) -> io::Result<()> {
    for month in 1..=12 {
        let length = calendar::month_days(year as u32, month);
        write_value(to, b"days ", year)?;
        write_value(to, b"-", month)?;
        write_value(to, b" has ", length)?;
        write(to, b", first ")?;
        day(to, year, month, 1)?;
        write(to, b", last ")?;
        day(to, year, month, length)?;
        write(to, b"\n")?;
    }
    Ok(())
}

pub(crate) fn years(to: &mut impl Write) -> io::Result<()> {
    for year in [1900, 1970, 1999, 2000, 2023, 2024, 2100, 2225] {
        months(to, year)?;
    }
    Ok(())
}
