// What the writers refuse, and that the output is then as it was lent.
use super::bytes::MARK;
use super::{bytes, mgl_trips, nmea_trips};
use answer::Refusal;
use nmea_plars::Setting;
use std::io;
use std::io::Write;
use test_print::{write, write_ends};

fn refusal(
    to: &mut impl Write,
    label: &[u8],
    writing: Result<usize, Refusal>,
    out: &[u8],
) -> io::Result<()> {
    write(to, label)?;
    bytes::answer(to, writing)?;
    write(to, b", room [")?;
    write_ends(to, out)?;
    write(to, b"]\n")
}

fn mgl(to: &mut impl Write, label: &[u8], body: &[u8], out: &mut [u8]) -> io::Result<()> {
    let writing = frame_writer::write_mgl(mgl_trips::primary(), body, out);
    refusal(to, label, writing, out)
}

fn onflight(to: &mut impl Write, label: &[u8], payload: &[u8], out: &mut [u8]) -> io::Result<()> {
    let writing = frame_writer::write_onflight(payload, out);
    refusal(to, label, writing, out)
}

fn nmea(to: &mut impl Write, label: &[u8], body: &[u8], out: &mut [u8]) -> io::Result<()> {
    let writing = frame_writer::write_nmea(body, out);
    refusal(to, label, writing, out)
}

fn plars(to: &mut impl Write, label: &[u8], setting: Setting, out: &mut [u8]) -> io::Result<()> {
    let writing = nmea_plars_writer::write_setting(setting, out);
    refusal(to, label, writing, out)
}

fn of_mgl(to: &mut impl Write) -> io::Result<()> {
    write(to, b"MGL, refused\n")?;
    // Kept: an array: the bodies are parts of it, of lengths that are written out.
    let mut body = [0; 268];
    bytes::count(&mut body, 0);
    let mut out = [MARK; 280];
    mgl(to, b"a body of 8: ", &body[0..8], &mut out)?;
    mgl(to, b"a body of 14: ", &body[0..14], &mut out)?;
    mgl(to, b"a body of 268: ", &body, &mut out)?;
    mgl(
        to,
        b"a body of 32, and room for 43: ",
        &body[0..32],
        &mut out[0..43],
    )?;
    mgl(
        to,
        b"a body of 8, and no room: ",
        &body[0..8],
        &mut out[0..0],
    )?;
    Ok(())
}

fn of_onflight(to: &mut impl Write) -> io::Result<()> {
    write(to, b"OnFlight, refused\n")?;
    let mut payload = [0; 153];
    bytes::count(&mut payload, 0);
    let mut out = [MARK; 160];
    onflight(to, b"a payload of 151: ", &payload[0..151], &mut out)?;
    onflight(to, b"a payload of 153: ", &payload, &mut out)?;
    onflight(
        to,
        b"a payload of 152, and room for 157: ",
        &payload[0..152],
        &mut out[0..157],
    )?;
    onflight(
        to,
        b"a payload of 151, and no room: ",
        &payload[0..151],
        &mut out[0..0],
    )?;
    Ok(())
}

fn of_nmea(to: &mut impl Write) -> io::Result<()> {
    write(to, b"NMEA, refused\n")?;
    let long = [b'A'; 77];
    let mut out = [MARK; 83];
    nmea(to, b"a body with a $: ", b"PLARB$12", &mut out)?;
    nmea(to, b"a body with a *: ", b"PLARB*12", &mut out)?;
    nmea(to, b"an empty body: ", b"", &mut out)?;
    nmea(to, b"a body of 77: ", &long, &mut out)?;
    nmea(
        to,
        b"a body of 76, and room for 81: ",
        &long[0..76],
        &mut out[0..81],
    )?;
    nmea(to, b"an empty body, and no room: ", b"", &mut out[0..0])?;
    Ok(())
}

fn of_plars(to: &mut impl Write) -> io::Result<()> {
    write(to, b"PLARS, refused\n")?;
    let mut out = [MARK; 28];
    plars(to, b"parameter 4: ", nmea_trips::of(b'L', 4, 0), &mut out)?;
    plars(to, b"source X: ", nmea_trips::of(b'X', 0, 13), &mut out)?;
    plars(to, b"BAL 1.001: ", nmea_trips::of(b'L', 1, 1001), &mut out)?;
    plars(to, b"QNH 499.9: ", nmea_trips::of(b'L', 3, 4999), &mut out)?;
    plars(
        to,
        b"MC 1.3, and room for 19: ",
        nmea_trips::of(b'L', 0, 13),
        &mut out[0..19],
    )?;
    plars(
        to,
        b"BAL 1.001, and no room: ",
        nmea_trips::of(b'L', 1, 1001),
        &mut out[0..0],
    )?;
    Ok(())
}

pub(crate) fn all(to: &mut impl Write) -> io::Result<()> {
    of_mgl(to)?;
    of_onflight(to)?;
    of_nmea(to)?;
    of_plars(to)
}
