// A reader whose held bytes a caller lends.
ghost use Rattle.std.specs.Prelude.{◌≡◌, false, Ok, ◌++◌, ◌+◌, ◌≤◌, length, take};
ghost use Rattle.framing.specs.Format.{format_of};
ghost use Rattle.framing.specs.Reading.{ongoing, read};
ghost use Rattle.reader.specs.State.{held_length};
ghost use Rattle.reader.specs.Refusal.{most_bytes};
ghost use Rattle.reader.specs.Calls.{a_piece, a_close, taken};
ghost use Rattle.reader.specs.InPlace.{state_of, placed, serve_placed};
ghost use Rattle.reader.specs.Private.{StartWith, Fits, advanced_of, Accepted};

use super::lines::LineCounts;
use super::{Reader, held, lines, refusal};
use answer::Refusal;
use framing::Format;

// All of a reader but its held bytes, which come beside it.
// Kept: `held` is no field, because a caller in C lends it and the words go by value.
#[derive(Clone, Copy, Debug, PartialEq, Eq)]
pub struct Words {
    // Kept: a number and no `Format`, because a refused reader keeps its number, which `decode` and the theorems read.
    pub format: u32,
    pub closed: bool,
    pub framed: u32,
    pub skipped: u32,
    pub pending: u32,
}

// What an accepted call answers: how many frames it handed out, and the words after it.
#[derive(Clone, Copy, Debug, PartialEq, Eq)]
pub struct Advance {
    pub frames: u32,
    pub words: Words,
}

impl From<Reader> for Words {
    ghost from_gives = { λ r n. state_of n r.held ≡ r };

    fn from(r: Reader) -> Words {
        Words {
            format: r.format,
            closed: r.closed,
            framed: r.framed,
            skipped: r.skipped,
            pending: r.pending,
        }
    }
}

impl Words {
    // What an accepted call answers: the counts have grown by those of w, and so many bytes are pending.
    fn advanced(self, closed: bool, w: LineCounts, pending: usize) -> Advance
        requires { Fits self w pending }
        ensures { result ≡ advanced_of self closed w pending }
    {
        let words = Words {
            closed,
            framed: self.framed + w.framed as u32,
            skipped: self.skipped + w.skipped as u32,
            pending: pending as u32,
            ..self
        };
        Advance {
            frames: w.frames as u32,
            words,
        }
    }

    // An accepted piece where nothing is pending: its bytes are the line.
    fn accept(self, held: &mut [u8], line: &[u8], out: &mut [u8]) -> Advance
        requires { (length held.old ≡ held_length) × (length line.now ≤ length out.old) × (self.framed + self.skipped + length line.now ≤ most_bytes) }
        ensures { placed self (Ok result) held.new out.new
            ≡ taken (state_of self held.old) false (read ongoing (format_of self.format) line.now) out.old }
    {
        let w = lines::read_line_after_noise(Format::from(self.format), line, out);
        let used = w.framed + w.skipped;
        held::hold(&line[used..], held);
        self.advanced(false, w, line.len() - used)
    }

    // An accepted piece that fits into the held bytes: it is appended to the pending ones, and all is read in place. `grows` says that all is
    // known to be a proper start.
    fn accept_in_place(self, grows: bool, held: &mut [u8], bytes: &[u8], out: &mut [u8]) -> Advance
        requires { Accepted self held.old bytes.now out.old × (self.pending + length bytes.now ≤ held_length)
            × StartWith (format_of self.format) (take self.pending held.old) bytes.now grows }
        ensures { placed self (Ok result) held.new out.new
            ≡ taken (state_of self held.old) false (read ongoing (format_of self.format) (take self.pending held.old ++ bytes.now)) out.old }
    {
        let pending = self.pending as usize;
        let total = pending + bytes.len();
        buffer::copy(bytes, held, pending);
        let format = Format::from(self.format);
        let w = lines::read_line_unless_start(format, grows, held, total, out);
        let used = w.framed + w.skipped;
        held::hold_rest(held, used, total);
        self.advanced(false, w, total - used)
    }

    // An accepted piece that does not fit into the held bytes: a work area takes the pending bytes and as much of the piece as they can need,
    // and the rest of the piece is read in place.
    // Kept: the first case repeats four lines of `accept`; with a second call of it, its answer is returned through memory: 9 ns a call more.
    fn accept_apart(self, held: &mut [u8], bytes: &[u8], out: &mut [u8]) -> Advance
        requires { Accepted self held.old bytes.now out.old }
        ensures { placed self (Ok result) held.new out.new
            ≡ taken (state_of self held.old) false (read ongoing (format_of self.format) (take self.pending held.old ++ bytes.now)) out.old }
    {
        let format = Format::from(self.format);
        let pending = self.pending as usize;
        let most = refusal::pending_bound(format) as usize;
        let mut work = [0u8; 2 * Reader::HELD];
        if bytes.len() <= most {
            let k = lines::join(&held[..pending], bytes, &mut work);
            let w = lines::read_line(format, &work[..k], out);
            let used = w.framed + w.skipped;
            held::hold(&work[used..k], held);
            return self.advanced(false, w, k - used);
        }
        let k = lines::join(&held[..pending], &bytes[..most], &mut work);
        let w = lines::read_line_joined(format, &work[..k], pending, bytes, out);
        let used = w.framed + w.skipped;
        held::hold(&bytes[used - pending..], held);
        self.advanced(false, w, pending + bytes.len() - used)
    }

    // Reads a piece: its frames are copied back to back to the start of `out`. A refusal changes nothing.
    pub fn piece(self, held: &mut [u8], bytes: &[u8], out: &mut [u8]) -> Result<Advance, Refusal>
        ensures { placed self result held.new out.new ≡ serve_placed self held.old (a_piece bytes.now out.old) }
    {
        if held.len() != Reader::HELD {
            return Err(Refusal::BrokenReader);
        }
        let pending = self.pending as usize;
        let start = refusal::start_of(Format::from(self.format), held, pending, bytes);
        self.judge(start.waits(), bytes.len(), out.len())?;
        if pending == 0 {
            return Ok(self.accept(held, bytes, out));
        }
        if bytes.len() <= Reader::HELD - pending {
            return Ok(self.accept_in_place(start.grows(), held, bytes, out));
        }
        Ok(self.accept_apart(held, bytes, out))
    }

    // Ends the line: what the closing reading adds is copied to `out` in the same way. A refusal changes nothing.
    pub fn close(self, held: &mut [u8], out: &mut [u8]) -> Result<Advance, Refusal>
        ensures { placed self result held.new out.new ≡ serve_placed self held.old (a_close out.old) }
    {
        if held.len() != Reader::HELD {
            return Err(Refusal::BrokenReader);
        }
        let format = Format::from(self.format);
        let pending = self.pending as usize;
        let waits = refusal::waits(format, held, pending);
        self.judge(waits, 0, out.len())?;
        let w = lines::read_closing(format, &held[..pending], out);
        let used = w.framed + w.skipped;
        held::hold_rest(held, used, pending);
        Ok(self.advanced(true, w, pending - used))
    }
}
