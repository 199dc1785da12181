// Gyro numbers, written and read back.
use std::io;
use std::io::Write;
use test_print::{answers, write, write_value};

fn trip(to: &mut impl Write, rate: i32) -> io::Result<()> {
    write_value(to, b"rate ", rate)?;
    match mgl_gyro::write(rate) {
        Ok(v) => {
            write_value(to, b" number ", v)?;
            write_value(to, b" rate ", mgl_gyro::hundredths(v))?;
        }
        Err(r) => answers::refused(to, b" ", r)?,
    }
    write(to, b"\n")
}

pub(crate) fn trips(to: &mut impl Write) -> io::Result<()> {
    write(to, b"MGL, gyro numbers\n")?;
    trip(to, 8945)?;
    trip(to, 34530)?;
    trip(to, -192680)?;
    trip(to, 192680)?;
    trip(to, 15001)?;
    Ok(())
}
