// A reader of a line that comes in pieces.
#![tactic(auto)]

mod held;
pub mod in_place;
mod lines;
mod refusal;

ghost use Rattle.std.specs.Prelude.{◌≡◌};
ghost use Rattle.reader.specs.State.{empty, fresh_of, opening_of};
ghost use Rattle.reader.specs.Calls.{a_piece, a_close, returned, outcome_of, serve};
ghost use Rattle.reader.specs.InPlace.{state_of};

use answer::Refusal;
use framing::Format;
use in_place::Words;

// A reader. Its counts are framed, skipped and pending; the first pending bytes of held are those that wait for more.
#[derive(Clone, Copy, Debug, PartialEq, Eq)]
pub struct Reader {
    // Kept: a number and no `Format`, because a refused reader keeps its number (`serve`, specs/Calls.antt).
    pub format: u32,
    pub closed: bool,
    pub framed: u32,
    pub skipped: u32,
    pub pending: u32,
    // Kept: an array with `pending` beside it, because a reader has fixed memory and is laid out so in C (`encode`).
    pub held: [u8; Reader::HELD],
}

// A request for a fresh reader: what it answers, and the reader.
// Kept: no `Result<Reader, Refusal>`, because a refused request hands back a reader too (`fresh_of`, specs/State.antt).
#[derive(Clone, Copy, Debug, PartialEq, Eq)]
pub struct Opening {
    pub answer: Result<(), Refusal>,
    pub reader: Reader,
}

impl Reader {
    // The longest piece.
    pub const LONGEST_PIECE: usize = 4096;

    // The most bytes that a reader counts.
    pub const MOST_BYTES: u64 = 4294967295;

    // The longest frame of each format.
    // Kept: a constant of each format, which document 01 asks for by name (docs/DECISIONS.md).
    pub const MGL_LONGEST: u32 = framing::mgl::LONGEST;

    pub const ONFLIGHT_LONGEST: u32 = framing::onflight::LONGEST;

    pub const NMEA_LONGEST: u32 = framing::nmea::LONGEST;

    // How many bytes of each format can be pending: one less than its longest frame.
    pub const MGL_PENDING: u32 = Reader::MGL_LONGEST - 1;

    pub const ONFLIGHT_PENDING: u32 = Reader::ONFLIGHT_LONGEST - 1;

    pub const NMEA_PENDING: u32 = Reader::NMEA_LONGEST - 1;

    // How many bytes a reader can hold: the largest of these.
    pub const HELD: usize = Reader::MGL_PENDING as usize;

    // A fresh reader of a format.
    // Kept: a number: the reader that it opens has it as its `format`.
    pub fn fresh(format: u32) -> Opening
        ensures { opening_of result ≡ fresh_of format }
    {
        if framing::is_known(Format::from(format)) {
            return Opening {
                answer: Ok(()),
                reader: empty(format, false),
            };
        }
        Opening {
            answer: Err(Refusal::BrokenReader),
            reader: empty(0, true),
        }
    }

    // Reads a piece: its frames are copied back to back to the start of `out`, and counted. A refusal changes nothing.
    pub fn piece(&mut self, bytes: &[u8], out: &mut [u8]) -> Result<u32, Refusal>
        ensures { returned (outcome_of result self.new) out.new ≡ serve self.old (a_piece bytes.now out.old) }
    {
        let a = Words::from(*self).piece(&mut self.held, bytes, out)?;
        self.put(a.words);
        Ok(a.frames)
    }

    // Ends the line: what the closing reading adds is copied to `out` in the same way. A refusal changes nothing.
    pub fn close(&mut self, out: &mut [u8]) -> Result<u32, Refusal>
        ensures { returned (outcome_of result self.new) out.new ≡ serve self.old (a_close out.old) }
    {
        let a = Words::from(*self).close(&mut self.held, out)?;
        self.put(a.words);
        Ok(a.frames)
    }

    // Puts the words of an accepted call beside the bytes that it left held.
    fn put(&mut self, n: Words)
        ensures { self.new ≡ state_of n self.old.held }
    {
        self.format = n.format;
        self.closed = n.closed;
        self.framed = n.framed;
        self.skipped = n.skipped;
        self.pending = n.pending;
    }
}

// A reader with all counts and held bytes 0.
fn empty(format: u32, closed: bool) -> Reader
    ensures { result ≡ empty format closed }
{
    Reader {
        format,
        closed,
        framed: 0,
        skipped: 0,
        pending: 0,
        held: [0; Reader::HELD],
    }
}
