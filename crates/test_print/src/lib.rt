// What the programs write: text, labels with a number, bytes in hexadecimal, the answers of field functions.
#![tactic(auto)]

pub mod answers;

use std::fmt::Display;
use std::io;
use std::io::Write;

pub fn write<W: Write>(to: &mut W, bytes: &[u8]) -> io::Result<()> {
    to.write_all(bytes)
}

// The sign, and then the size in whole units; without a unit, the label alone.
pub fn write_units<W: Write>(to: &mut W, label: &[u8], n: i64, unit: u64) -> io::Result<()> {
    write(to, label)?;
    if unit == 0 {
        return Ok(());
    }
    if n < 0 {
        write(to, b"-")?;
    }
    write!(to, "{}", n.unsigned_abs() / unit)
}

// A label, and behind it a value as it displays itself.
pub fn write_value<W: Write, N: Display + Drop>(to: &mut W, label: &[u8], n: N) -> io::Result<()> {
    write(to, label)?;
    write!(to, "{n}")
}

pub fn write_hex<W: Write>(to: &mut W, bytes: &[u8]) -> io::Result<()> {
    for byte in bytes {
        write!(to, "{byte:02X}")?;
    }
    Ok(())
}

// The first 8 bytes and the last 4; all of them, where they are 32 or fewer.
pub fn write_ends<W: Write>(to: &mut W, bytes: &[u8]) -> io::Result<()> {
    let n = bytes.len();
    if n <= 32 {
        return write_hex(to, bytes);
    }
    write_hex(to, &bytes[..8])?;
    write(to, b"..")?;
    write_hex(to, &bytes[n - 4..])
}
