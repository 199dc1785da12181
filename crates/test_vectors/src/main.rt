// Published checksum vectors, and the example sentences of the LARUS protocol: what is published beside what is computed, and
// the sentences field by field. Then the days of some years.
#![tactic(auto)]

mod days;
mod fields;

use framing::{Format, Found};
use numbers::hex_digit;
use std::io;
use std::io::Write;
use test_print::{write, write_hex, write_value};

fn write_verdict(to: &mut impl Write, same: bool) -> io::Result<()> {
    if same {
        write(to, b": same")
    } else {
        write(to, b": different")
    }
}

fn crc(to: &mut impl Write, text: &[u8], published: u32) -> io::Result<()> {
    let computed = checksum::crc32(text);
    let sliced = checksum_slicing::crc32(text);
    write(to, b"crc32 '")?;
    write(to, text)?;
    write(to, b"' published ")?;
    write!(to, "{published:08X}")?;
    write(to, b", computed ")?;
    write!(to, "{computed:08X}")?;
    write_verdict(to, published == computed)?;
    write(to, b", by slicing ")?;
    write!(to, "{sliced:08X}")?;
    write_verdict(to, published == sliced)?;
    write(to, b"\n")
}

// The published number has the weighted sum in its high byte.
fn fletcher(to: &mut impl Write, text: &[u8], published: u32) -> io::Result<()> {
    let sums = checksum::fletcher16(text);
    let computed = u32::from(sums.weighted) * 256 + u32::from(sums.plain);
    write(to, b"fletcher16 '")?;
    write(to, text)?;
    write(to, b"' published ")?;
    write!(to, "{published:04X}")?;
    write(to, b", computed ")?;
    write!(to, "{computed:04X}")?;
    write_verdict(to, published == computed)?;
    write(to, b"\n")
}

// A whole line as published, with its CR and LF; its two digits are the published value.
fn sentence(to: &mut impl Write, line: &[u8]) -> io::Result<()> {
    let n = line.len();
    if n < 7 {
        return write(to, b"too short\n");
    }
    let e = n - 5;
    let x = checksum::xor8(&line[1..e]);
    let high = hex_digit(x / 16) == line[e + 1];
    let low = hex_digit(x) == line[e + 2];
    write(to, b"nmea ")?;
    write(to, &line[0..n - 2])?;
    write(to, b" published ")?;
    write(to, &line[e + 1..n - 2])?;
    write(to, b", computed ")?;
    write_hex(to, &[x])?;
    write_verdict(to, high && low)?;
    match framing::front(Format::Nmea, line) {
        Found::Frame(m) => {
            write_value(to, b", a frame of ", m)?;
            write(to, b"\n")?;
        }
        Found::Start => write(to, b", a start\n")?,
        Found::Neither(_) => write(to, b", no frame\n")?,
    }
    fields::write_fields(to, line)
}

// A line with the checksum that the rule gives in place of the published one.
fn corrected(to: &mut impl Write, line: &[u8]) -> io::Result<()> {
    write(to, b"nmea, by the rule:\n")?;
    fields::write_fields(to, line)
}

// The check value of CRC-32, and vectors of the Go standard library (hash/crc32, the list `golden`, column `ieee`).
fn crc_vectors(to: &mut impl Write) -> io::Result<()> {
    crc(to, b"123456789", 0xCBF4_3926)?;
    crc(to, b"", 0x0000_0000)?;
    crc(to, b"a", 0xE8B7_BE43)?;
    crc(to, b"abc", 0x3524_41C2)?;
    crc(to, b"abcdefghij", 0x3981_703A)?;
    crc(to, b"size:  a.out:  bad magic", 0xAB3A_BE14)?;
    crc(to, b"C is as portable as Stonehedge!!", 0x7D0A_377F)?;
    crc(
        to,
        b"Discard medicine more than two years old.",
        0x6B9C_DFE7,
    )?;
    crc(
        to,
        b"For every action there is an equal and opposite government program.",
        0x3395_5150,
    )?;
    Ok(())
}

// The test vectors of Wikipedia's article on Fletcher's checksum, and document 01's marked case (f). The OnFlight paper's own program,
// compiled as printed, gives the same five.
fn fletcher_vectors(to: &mut impl Write) -> io::Result<()> {
    fletcher(to, b"", 0x0000)?;
    fletcher(to, b"abcde", 0xC8F0)?;
    fletcher(to, b"abcdef", 0x2057)?;
    fletcher(to, b"abcdefgh", 0x0627)?;
    fletcher(to, b"BF", 0xCA88)?;
    Ok(())
}

// The examples of the LARUS protocol, version 0.1.3, in its order.
fn sentences(to: &mut impl Write) -> io::Result<()> {
    sentence(
        to,
        b"$GPRMC,134943.69,A,4829.57602,N,1026.79034,E,057.0,081.9,170623,,,A*67\r\n",
    )?;
    sentence(
        to,
        b"$GPGGA,134943.69,4829.57602,N,1026.79034,E,1,24,1.0,2702.7,M,47.3,M,,*61\r\n",
    )?;
    sentence(to, b"$PLARW,288,29,I,A*69\r\n")?;
    sentence(to, b"$PLARW,288,29,A,A*61\r\n")?;
    sentence(to, b"$PLARA,27.5,4.0,69.2*45\r\n")?;
    sentence(to, b"$PLARD,922.54,M*10\r\n")?;
    sentence(to, b"$PLARB,12.33*4C\r\n")?;
    sentence(to, b"$PLARV,1.46,2.98,2608,90*5C\r\n")?;
    Ok(())
}

// Its settings; the two BAL lines are printed with other checksums than its rule gives.
fn settings(to: &mut impl Write) -> io::Result<()> {
    sentence(to, b"$PLARS,L,MC,1.3*1E\r\n")?;
    sentence(to, b"$PLARS,L,BAL,0.752*6B\r\n")?;
    sentence(to, b"$PLARS,L,BUGS,15*3B\r\n")?;
    sentence(to, b"$PLARS,L,QNH,1013.2*74\r\n")?;
    sentence(to, b"$PLARS,H,MC,2.1*1B\r\n")?;
    sentence(to, b"$PLARS,H,BAL,1.000*68\r\n")?;
    sentence(to, b"$PLARS,H,BUGS,0*0B\r\n")?;
    sentence(to, b"$PLARS,H,QNH,1031.4*76\r\n")?;
    corrected(to, b"$PLARS,L,BAL,0.752*5D\r\n")?;
    corrected(to, b"$PLARS,H,BAL,1.000*58\r\n")?;
    Ok(())
}

fn main(rt: HostRuntime) -> io::Result<()> {
    let mut to = rt.stdout();
    crc_vectors(&mut to)?;
    fletcher_vectors(&mut to)?;
    sentences(&mut to)?;
    settings(&mut to)?;
    days::years(&mut to)
}
