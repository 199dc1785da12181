// A fixed capture of each format, fed in pieces of eight sizes with refused calls in between: what is handed out, and the counts.
#![tactic(auto)]

mod captures;
mod crafted;
mod print;
mod run;

use answer::Refusal;
use captures::Capture;
use run::Run;
use std::io;
use std::io::Write;
use test_print::{write, write_value};

const SIZES: [usize; 8] = [1, 2, 3, 7, 64, 275, 276, 4096];

// The line in pieces, each after a piece that is too long, and a close and a piece for which the output is a byte too small.
fn feed(to: &mut impl Write, run: &mut Run, line: &[u8], size: usize) -> io::Result<()> {
    for piece in line.chunks(size.max(1)) {
        run.too_long(to, 0, Err(Refusal::PieceTooLong))?;
        run.close_without_out(to)?;
        let n = run.out_for(piece.len(), 1);
        run.piece(to, piece, n, Err(Refusal::PieceOutputTooSmall))?;
        let n = run.out_for(piece.len(), 0);
        run.piece(to, piece, n, Ok(()))?;
    }
    Ok(())
}

// The close, after one for which the output is a byte too small; then calls on the closed reader.
fn close(to: &mut impl Write, run: &mut Run) -> io::Result<()> {
    run.close_without_out(to)?;
    let n = run.out_for(0, 0);
    run.close(to, n, Ok(()))?;
    run.piece(to, b"$", 1, Err(Refusal::Closed))?;
    run.too_long(to, 0, Err(Refusal::Closed))?;
    run.close(to, 0, Err(Refusal::Closed))
}

// Prints the numbers of the refusals that were given, and not how often, since refusals 1 and 4 are given with each piece.
fn refusals(to: &mut impl Write, run: &Run) -> io::Result<()> {
    write(to, b"refused")?;
    for (number, count) in run.answers.iter().enumerate().skip(1) {
        if 0 < *count {
            write_value(to, b" ", number)?;
        }
    }
    if 0 < run.wrong {
        write(to, b", and calls that went otherwise than expected")?;
    }
    write(to, b"\n")
}

// Feeds the line in pieces of one size, and answers the hash of all that came of it.
fn one_size(to: &mut impl Write, format: u32, line: &[u8], size: usize) -> io::Result<u64> {
    write_value(to, b"format ", format)?;
    write_value(to, b", pieces of ", size)?;
    write(to, b"\n")?;
    let mut run = Run::unknown(to)?;
    crafted::refused(to, &mut run, format)?;
    run.open(format);
    run.too_long(to, run::MAX_OUTPUT, Err(Refusal::PieceTooLong))?;
    feed(to, &mut run, line, size)?;
    run.report(to, b"pieces")?;
    run.too_long(to, run::MAX_OUTPUT, Err(Refusal::PieceTooLong))?;
    close(to, &mut run)?;
    run.report(to, b"close")?;
    refusals(to, &run)?;
    Ok(run.hash)
}

// All sizes, and whether all came to the same.
fn all_sizes(to: &mut impl Write, format: u32, line: &[u8]) -> io::Result<()> {
    let first = one_size(to, format, line, SIZES[0])?;
    let mut all = true;
    for size in &SIZES[1..] {
        if one_size(to, format, line, *size)? != first {
            all = false;
        }
    }
    write_value(to, b"format ", format)?;
    if all {
        write(to, b": same\n")
    } else {
        write(to, b": different\n")
    }
}

fn main(rt: HostRuntime) -> io::Result<()> {
    let mut to = rt.stdout();
    let mut line = Capture::new();
    captures::mgl(&mut line);
    all_sizes(&mut to, 1, line.bytes())?;
    let mut line = Capture::new();
    captures::onflight(&mut line);
    all_sizes(&mut to, 2, line.bytes())?;
    let mut line = Capture::new();
    captures::nmea(&mut line);
    all_sizes(&mut to, 3, line.bytes())
}
