// A capture read call by call to its end, for its sheet: the reader, and the frames that it handed out.
#![tactic(auto)]

ghost use Rattle.std.specs.Prelude.{◌≡◌};
ghost use Rattle.answer.specs.Answer.{outcome_number};
ghost use Rattle.reader.specs.Calls.{a_piece, a_close, outcome_of};
ghost use Rattle.tally.specs.Step.{fresh_tally, stepped, after_outcome, tally_step, sheet_of};

use answer::Refusal;
use benchfile::sheet::Sheet;
use reader::Reader;

// The first refusal or 0, the frames so far, and the reader.
#[derive(Clone, Copy, Debug, PartialEq, Eq)]
pub struct Tally {
    // Kept: a number: the functions take every number, and after any but 0 the tally stays as it was (`tally_step`).
    pub answer: u32,
    pub frames: u32,
    pub reader: Reader,
}

// The number of what the reader answered.
fn number_of<T: Copy>(answer: Result<T, Refusal>) -> u32
    ensures { result ≡ outcome_number answer }
{
    match answer {
        Ok(_) => 0,
        Err(refusal) => u32::from(refusal),
    }
}

impl Tally {
    // The output that takes every piece of 4,096 bytes: a piece, and what can be pending.
    pub const MAX_OUTPUT: usize = Reader::HELD + Reader::LONGEST_PIECE;

    // A tally of a fresh reader.
    // Kept: a number, for which a sheet is printed whatever it names (`fresh_tally`); `Reader::fresh` takes it too.
    pub fn fresh(format: u32) -> Tally
        ensures { result ≡ fresh_tally format }
    {
        let opening = Reader::fresh(format);
        Tally {
            answer: number_of(opening.answer),
            frames: 0,
            reader: opening.reader,
        }
    }

    // Takes over what a call on the reader answered.
    fn count(&mut self, call: Result<u32, Refusal>)
        ensures { self.new ≡ after_outcome self.old (outcome_of call self.old.reader) }
    {
        self.frames = self.frames.wrapping_add(call.unwrap_or(0));
        self.answer = number_of(call);
    }

    // Reads a piece. After a refusal nothing is read any more.
    pub fn piece(&mut self, bytes: &[u8], out: &mut [u8])
        ensures { stepped self.new out.new ≡ tally_step self.old (a_piece bytes.now out.old) }
    {
        if self.answer != 0 {
            return;
        }
        let call = self.reader.piece(bytes, out);
        self.count(call);
    }

    // Ends the capture. After a refusal nothing is closed.
    pub fn close(&mut self, out: &mut [u8])
        ensures { stepped self.new out.new ≡ tally_step self.old (a_close out.old) }
    {
        if self.answer == 0 {
            let call = self.reader.close(out);
            self.count(call);
        }
    }

    // The five numbers of the capture's sheet.
    pub fn sheet(&self) -> Sheet
        ensures { result ≡ sheet_of self.now }
    {
        let r = &self.reader;
        Sheet {
            format: r.format,
            frames: self.frames,
            framed: r.framed,
            skipped: r.skipped,
            pending: r.pending,
        }
    }
}
