// Document 01's refusals, and the number of each.
#![tactic(auto)]

ghost use Rattle.std.specs.Prelude.{Some, ◌≡◌};
ghost use Rattle.answer.specs.Answer.{refusal_number, refusal_text};

use std::error::Error;
use std::fmt;

// Why a call is refused. The cases are in the order of their numbers, 1 to 11.
#[derive(Clone, Copy, Debug, PartialEq, Eq)]
pub enum Refusal {
    // A piece longer than the longest.
    PieceTooLong,
    // A piece or a close on a closed reader.
    Closed,
    // The bytes of the line, with those of the piece, are more than a reader counts.
    LineTooLong,
    // The output buffer is smaller than the pending bytes and the piece.
    PieceOutputTooSmall,
    // A body or payload that the writer of the format does not take.
    NotWritable,
    // The output buffer is smaller than the frame that is written.
    OutputTooSmall,
    // The bytes are not one whole frame of the format.
    NotOneFrame,
    // A frame, but of another message, version or size.
    OtherMessage,
    // A field outside its form or range, or an item past the last.
    OutOfForm,
    // The table of contents of a bench file is broken.
    BrokenToc,
    // A reader with an unknown format, or whose pending bytes or counts cannot be; or a fresh reader of an unknown format.
    BrokenReader,
}

// Document 01's number of a refusal.
impl From<Refusal> for u32 {
    ghost from_gives = { λ r n. n ≡ refusal_number r };

    fn from(refusal: Refusal) -> u32 {
        match refusal {
            Refusal::PieceTooLong => 1,
            Refusal::Closed => 2,
            Refusal::LineTooLong => 3,
            Refusal::PieceOutputTooSmall => 4,
            Refusal::NotWritable => 5,
            Refusal::OutputTooSmall => 6,
            Refusal::NotOneFrame => 7,
            Refusal::OtherMessage => 8,
            Refusal::OutOfForm => 9,
            Refusal::BrokenToc => 10,
            Refusal::BrokenReader => 11,
        }
    }
}

// The text is `refused`, a space and document 01's number.
impl fmt::Display for Refusal {
    ghost output = { λ r. Some (refusal_text r) };

    fn fmt<W: fmt::Write>(&self, f: &mut fmt::Formatter<W>) -> fmt::Result {
        write!(f, "refused {}", u32::from(*self))
    }
}

impl Error for Refusal {}
