// OnFlight frames: 42 46, version 1, payload length 152, and as many bytes more.
ghost use Rattle.framing.specs.declared.Format.TheVariants.{Onflight};

use super::coded::{Coded, Counted};
use super::{Layout, Reason, Scanned, shape};

// The byte that every frame starts with.
const FIRST: u8 = 0x42;

// The three behind it: a second fixed one, the version, the payload's length.
const SECOND: u8 = 0x46;

const VERSION: u8 = 0x01;

const PAYLOAD: u8 = 0x98;

// The longest frame.
pub const LONGEST: u32 = 158;

// The code of the format.
pub(crate) struct Frames;

impl Coded for Frames {
    ghost format = { Onflight };

    #[tactic(auto, unfolding(crate::specs::Format::layout_of))]
    fn layout() -> Layout {
        Layout {
            first: FIRST,
            shortest: 158,
            longest: LONGEST,
            head: 4,
            tail: 2,
        }
    }

    fn scan(s: &[u8], end: usize) -> Scanned {
        let line = &s[..end];
        let opening = shape::sync(line, FIRST, SECOND);
        let Scanned::Whole(_) = opening else {
            return opening;
        };
        if line.len() < 3 {
            return Scanned::Partial;
        }
        if line[2] != VERSION {
            return Scanned::Broken(Reason::HeaderByte);
        }
        if line.len() < 4 {
            return Scanned::Partial;
        }
        if line[3] != PAYLOAD {
            return Scanned::Broken(Reason::HeaderByte);
        }
        shape::counted(line.len(), LONGEST as usize)
    }

    #[tactic(auto, unfolding(crate::specs::Format::good, crate::specs::Format::shortest))]
    fn checksum_ok(s: &[u8], n: usize) -> bool {
        let frame = &s[..n];
        let e = frame.len() - 2;
        let sums = checksum::fletcher16(&frame[..e]);
        sums.plain == frame[e] && sums.weighted == frame[e + 1]
    }
}

impl Counted for Frames {
    fn need(s: &[u8]) -> Option<usize> {
        if s[0] != FIRST || s[1] != SECOND || s[2] != VERSION || s[3] != PAYLOAD {
            return None;
        }
        Some(LONGEST as usize)
    }
}
