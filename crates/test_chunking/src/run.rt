// The calls on a reader, each with the answer that is expected, and what has come of them.
ghost use Rattle.std.specs.Prelude.{◌+◌, ◌≤◌};
ghost use Rattle.reader.specs.State.{held_length};
ghost use Rattle.reader.specs.Refusal.{longest_piece};

use super::print;
use answer::Refusal;
use framing::Format;
use reader::Reader;
use std::io;
use std::io::Write;
use test_print::{write, write_value};

// What a call is expected to answer.
pub(crate) type Expected = Result<(), Refusal>;

// A reader after some calls.
#[derive(Clone, Copy)]
pub(crate) struct Run {
    pub(crate) reader: Reader,
    // The frames that the calls answered, and a hash of the bytes handed out and of the counts.
    pub(crate) frames: u64,
    pub(crate) hash: u64,
    // How many calls were answered with each number as expected, and how many went otherwise.
    pub(crate) answers: [u32; 12],
    pub(crate) wrong: u32,
}

// What an output buffer has as it is lent.
const MARK: u8 = 0xEE;

// A piece that is too long by a byte, and an output that is enough for it and all that can be pending.
const TOO_LONG: usize = Reader::LONGEST_PIECE + 1;

pub(crate) const MAX_OUTPUT: usize = Reader::HELD + TOO_LONG;

// A running hash with one number more.
fn hashed(hash: u64, n: u64) -> u64 {
    hash % 0xFFFF_FFFB * 257 + n % 0xFFFF_FFFB
}

fn hashed_all(hash: u64, bytes: &[u8]) -> u64 {
    let mut h = hash;
    for byte in bytes {
        h = hashed(h, u64::from(*byte));
    }
    h
}

// Whether an output is as it was lent.
fn is_marked(out: &[u8]) -> bool {
    out.iter().all(|byte| *byte == MARK)
}

// How many bytes of its output a call handed out: as many as framed grew by.
fn handed_out(before: u32, after: u32, out: usize) -> usize
    ensures { result ≤ out }
{
    match after.checked_sub(before) {
        Some(n) if n as usize <= out => n as usize,
        _ => 0,
    }
}

// The reader that a refused fresh request hands back.
const REFUSED: Reader = Reader {
    format: 0,
    closed: true,
    framed: 0,
    skipped: 0,
    pending: 0,
    held: [0; Reader::HELD],
};

impl Run {
    // A run that starts with a request for format 4, and calls on the reader that this hands back.
    pub(crate) fn unknown(to: &mut impl Write) -> io::Result<Run> {
        let opening = Reader::fresh(4);
        let expected = Err(Refusal::BrokenReader);
        let mut run = Run {
            reader: opening.reader,
            frames: 0,
            hash: 0,
            answers: [0; 12],
            wrong: 0,
        };
        let right = opening.answer == expected && opening.reader == REFUSED;
        run.note(opening.answer, right);
        run.piece(to, b"$", 1, expected)?;
        run.close(to, 0, expected)?;
        Ok(run)
    }

    // The run goes on with a fresh reader of the format.
    pub(crate) fn open(&mut self, format: u32) {
        let opening = Reader::fresh(format);
        self.note(opening.answer, opening.answer.is_ok());
        self.reader = opening.reader;
    }

    // Counts an answer, where it is right.
    fn note(&mut self, answer: Expected, right: bool) {
        let number = match answer {
            Ok(()) => 0,
            Err(refusal) => u32::from(refusal),
        };
        match self.answers.get_mut(number as usize) {
            Some(count) if right => *count = count.wrapping_add(1),
            _ => self.wrong = self.wrong.wrapping_add(1),
        }
    }

    // Notes a call that is over; its frames are printed. What is behind them in the output is as it was lent, and a refusal changes
    // nothing.
    fn after(
        &mut self,
        to: &mut impl Write,
        before: Reader,
        answer: Result<u32, Refusal>,
        out: &[u8],
        expected: Expected,
    ) -> io::Result<()> {
        let n = handed_out(before.framed, self.reader.framed, out.len());
        let right = match answer {
            Ok(_) => expected.is_ok(),
            Err(refusal) => expected == Err(refusal) && before == self.reader,
        };
        print::frames(to, Format::from(self.reader.format), &out[..n])?;
        self.note(answer.map(|_| ()), right && is_marked(&out[n..]));
        self.frames = self.frames.wrapping_add(u64::from(answer.unwrap_or(0)));
        self.hash = hashed_all(self.hash, &out[..n]);
        Ok(())
    }

    // A piece, with an output of n bytes.
    pub(crate) fn piece(
        &mut self,
        to: &mut impl Write,
        bytes: &[u8],
        n: usize,
        expected: Expected,
    ) -> io::Result<()>
        requires { n ≤ held_length + longest_piece + 1 }
    {
        let mut out = [MARK; MAX_OUTPUT];
        let before = self.reader;
        let answer = self.reader.piece(bytes, &mut out[..n]);
        self.after(to, before, answer, &out[..n], expected)
    }

    // A close, with an output of n bytes.
    pub(crate) fn close(
        &mut self,
        to: &mut impl Write,
        n: usize,
        expected: Expected,
    ) -> io::Result<()>
        requires { n ≤ held_length + longest_piece + 1 }
    {
        let mut out = [MARK; MAX_OUTPUT];
        let before = self.reader;
        let answer = self.reader.close(&mut out[..n]);
        self.after(to, before, answer, &out[..n], expected)
    }

    // A piece that is too long by a byte, with an output of n bytes.
    pub(crate) fn too_long(
        &mut self,
        to: &mut impl Write,
        n: usize,
        expected: Expected,
    ) -> io::Result<()>
        requires { n ≤ held_length + longest_piece + 1 }
    {
        self.piece(to, &[0; TOO_LONG], n, expected)
    }

    // The smallest output for a call with n bytes, or so many bytes less.
    pub(crate) fn out_for(&self, n: usize, less: usize) -> usize
        ensures { result ≤ held_length + longest_piece + 1 }
    {
        (self.reader.pending as usize)
            .saturating_add(n)
            .saturating_sub(less)
            .min(MAX_OUTPUT)
    }

    // A close for which the output is a byte too small. With nothing pending no output is, and there is no call.
    pub(crate) fn close_without_out(&mut self, to: &mut impl Write) -> io::Result<()> {
        if self.reader.pending == 0 {
            return Ok(());
        }
        let n = self.out_for(0, 1);
        self.close(to, n, Err(Refusal::PieceOutputTooSmall))
    }

    // Prints the counts, and takes them into the hash.
    pub(crate) fn report(&mut self, to: &mut impl Write, when: &[u8]) -> io::Result<()> {
        let framed = u64::from(self.reader.framed);
        let skipped = u64::from(self.reader.skipped);
        let pending = u64::from(self.reader.pending);
        write(to, when)?;
        write_value(to, b": frames ", self.frames)?;
        write_value(to, b", framed ", framed)?;
        write_value(to, b", skipped ", skipped)?;
        write_value(to, b", pending ", pending)?;
        for n in [self.frames, framed, skipped, pending] {
            self.hash = hashed(self.hash, n);
        }
        write(to, b"\n")
    }
}
