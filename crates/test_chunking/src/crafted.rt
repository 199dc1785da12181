// Readers that are made here, and the refusals that they give: 3 by a full one, and 11 by those that no call hands back.
use super::run;
use super::run::Run;
use answer::Refusal;
use framing::Format;
use reader::Reader;
use std::io;
use std::io::Write;

// The most bytes that a reader counts.
const MOST: u32 = Reader::MOST_BYTES as u32;

// An open reader with one byte pending, and the bytes held all the same.
// Kept: numbers for formats, here and in the other files: readers are asked for by number, and what is printed is the number.
fn waiting(format: u32, byte: u8) -> Reader {
    Reader {
        format,
        closed: false,
        framed: 0,
        skipped: 0,
        pending: 1,
        held: [byte; Reader::HELD],
    }
}

// Calls on a reader that is full: it takes an empty piece and no longer one.
fn full(to: &mut impl Write, run: &mut Run, format: u32) -> io::Result<()> {
    run.reader = Reader {
        framed: MOST,
        pending: 0,
        ..waiting(format, 0)
    };
    run.piece(to, b"$", 1, Err(Refusal::LineTooLong))?;
    run.piece(to, b"$", 0, Err(Refusal::LineTooLong))?;
    run.piece(to, b"", 0, Ok(()))
}

// Calls on a reader that is broken.
fn broken(to: &mut impl Write, run: &mut Run, reader: Reader) -> io::Result<()> {
    run.reader = reader;
    run.piece(to, b"$", run::MAX_OUTPUT, Err(Refusal::BrokenReader))?;
    run.too_long(to, 0, Err(Refusal::BrokenReader))?;
    run.close(to, run::MAX_OUTPUT, Err(Refusal::BrokenReader))
}

// Four broken readers, each one change from a reader that takes a piece; then the full one.
pub(crate) fn refused(to: &mut impl Write, run: &mut Run, format: u32) -> io::Result<()> {
    let Some(layout) = framing::layout_of(Format::from(format)) else {
        return Ok(());
    };
    let whole = waiting(format, layout.first);
    run.reader = whole;
    run.piece(to, b"", 1, Ok(()))?;
    let long = Reader {
        pending: layout.longest,
        ..whole
    };
    broken(to, run, long)?;
    broken(to, run, waiting(format, b'x'))?;
    let closed = Reader {
        closed: true,
        ..whole
    };
    broken(to, run, closed)?;
    let over = Reader {
        framed: MOST,
        ..whole
    };
    broken(to, run, over)?;
    full(to, run, format)
}
