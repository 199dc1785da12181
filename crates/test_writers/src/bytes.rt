// The bytes that a writer is given, and those that it makes in its output.
ghost use Rattle.std.specs.Prelude.{◌≤◌, length};

use answer::Refusal;
use std::io;
use std::io::Write;
use test_print::{write, write_hex, write_value};

// What an output buffer has as it is lent.
pub(crate) const MARK: u8 = 0xEE;

// Fills bytes so that they count up from first.
pub(crate) fn count(bytes: &mut [u8], first: u8) {
    let mut next = first;
    for byte in bytes {
        *byte = next;
        next = next.wrapping_add(1);
    }
}

// How many bytes of its output a writer made.
fn length(writing: Result<usize, Refusal>, out: &[u8]) -> usize
    ensures { result ≤ length out.now }
{
    writing.unwrap_or(0).min(out.len())
}

// The bytes that a writer made, from the start of its output.
pub(crate) fn made(writing: Result<usize, Refusal>, out: &[u8]) -> &[u8] {
    let n = length(writing, out);
    &out[..n]
}

// The output behind them.
fn behind(writing: Result<usize, Refusal>, out: &[u8]) -> &[u8] {
    let n = length(writing, out);
    &out[n..]
}

// What a writer answered.
pub(crate) fn answer(to: &mut impl Write, writing: Result<usize, Refusal>) -> io::Result<()> {
    match writing {
        Ok(n) => write_value(to, b"written ", n),
        Err(refusal) => write_value(to, b"", refusal),
    }
}

// What a writer answered, the bytes that it made, and the output behind them.
pub(crate) fn shown(
    to: &mut impl Write,
    writing: Result<usize, Refusal>,
    out: &[u8],
) -> io::Result<()> {
    answer(to, writing)?;
    write(to, b"\nframe ")?;
    write_hex(to, made(writing, out))?;
    write(to, b"\nbehind ")?;
    write_hex(to, behind(writing, out))?;
    write(to, b"\n")
}
