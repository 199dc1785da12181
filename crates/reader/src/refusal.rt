// The refusals of a piece or a close.
ghost use Rattle.std.specs.Prelude.{◌≡◌, ◌+◌, ltb, take};
ghost use Rattle.answer.specs.Answer.{outcome_number};
ghost use Rattle.framing.specs.Format.{pending_bound};
ghost use Rattle.reader.specs.Refusal.{most_bytes};
ghost use Rattle.reader.specs.Private.{TellsStart, StartWith, waits_of, grows_of, broken_by, first_of, refusal_by};

use super::Reader;
use super::in_place::Words;
use answer::Refusal;
use framing::{Format, Growth, frame_run};

// How many bytes can be pending.
pub(crate) fn pending_bound(format: Format) -> u32
    ensures { result ≡ pending_bound format }
{
    match framing::layout_of(format) {
        Some(layout) => layout.longest.saturating_sub(1),
        None => 0,
    }
}

// Whether what is pending is nothing or a proper start of a shape.
pub(crate) fn waits(format: Format, held: &[u8], pending: usize) -> bool
    ensures { TellsStart format held.now pending result }
{
    frame_run::frame_run_within(format, held, pending, 1).waits
}

// What is known of the pending bytes before a piece.
#[derive(Clone, Copy, Debug, PartialEq, Eq)]
pub(crate) enum Start {
    // They are a proper start, and surely one together with the piece.
    Grows,
    // They are nothing or a proper start.
    Waits,
    // They are neither.
    Broken,
}

impl Start {
    pub(crate) fn waits(self) -> bool
        ensures { result ≡ waits_of self }
    {
        !matches!(self, Start::Broken)
    }

    pub(crate) fn grows(self) -> bool
        ensures { result ≡ grows_of self }
    {
        matches!(self, Start::Grows)
    }
}

// The same test as `waits`, with a shortcut: the pending bytes are scanned only where `growth_of` cannot tell.
pub(crate) fn start_of(format: Format, held: &[u8], pending: usize, bytes: &[u8]) -> Start
    ensures { TellsStart format held.now pending (waits_of result)
        × StartWith format (take pending held.now) bytes.now (grows_of result) }
{
    if pending == 0 {
        return Start::Waits;
    }
    match framing::growth_of(format, held, pending, bytes) {
        Growth::Grows => Start::Grows,
        Growth::Waits => Start::Waits,
        Growth::Unsaid => {
            if waits(format, held, pending) {
                Start::Waits
            } else {
                Start::Broken
            }
        }
    }
}

// The first refusal, in the order 11, 2, 1, 3, 4.
fn first_refusal(
    broken: bool,
    closed: bool,
    long: bool,
    over: bool,
    small: bool,
) -> Result<(), Refusal>
    ensures { outcome_number result ≡ first_of broken closed long over small }
{
    if broken {
        return Err(Refusal::BrokenReader);
    }
    if closed {
        return Err(Refusal::Closed);
    }
    if long {
        return Err(Refusal::PieceTooLong);
    }
    if over {
        return Err(Refusal::LineTooLong);
    }
    if small {
        return Err(Refusal::PieceOutputTooSmall);
    }
    Ok(())
}

impl Words {
    // Whether the counts and more bytes are over the most that a reader counts.
    fn is_over(self, more: usize) -> bool
        ensures { result ≡ ltb most_bytes (self.framed + self.skipped + self.pending + more) }
    {
        let sum = u64::from(self.framed) + u64::from(self.skipped) + u64::from(self.pending);
        Reader::MOST_BYTES < sum.saturating_add(more as u64)
    }

    // Whether these are no state of a reader (refusal 11).
    fn is_broken(self, waits: bool) -> bool
        ensures { result ≡ broken_by self waits }
    {
        let format = Format::from(self.format);
        !framing::is_known(format)
            || pending_bound(format) < self.pending
            || !waits
            || self.closed && 0 < self.pending
            || self.is_over(0)
    }

    // The first refusal of a call with so many bytes and an output of `out` bytes, in the order 11, 2, 1, 3, 4. `waits` is the test of
    // the pending bytes; it is not made here, because a slice among the parameters costs up to 7 ns a call. All tests are made before one
    // is chosen: with a branch for each, a piece of one byte took 5 ns more in half of the places that a linker may give the code.
    pub(crate) fn judge(self, waits: bool, bytes: usize, out: usize) -> Result<(), Refusal>
        ensures { outcome_number result ≡ refusal_by self waits bytes out }
    {
        let broken = self.is_broken(waits);
        let long = Reader::LONGEST_PIECE < bytes;
        let over = self.is_over(bytes);
        let small = !buffer::fits(bytes, out, self.pending as usize);
        first_refusal(broken, self.closed, long, over, small)
    }
}
