// MGL frames: 05 02, a length, its complement, and as many bytes more as the length says.
ghost use Rattle.std.specs.Prelude.{◌≡◌, ◌≤◌, length};
ghost use Rattle.framing.specs.declared.Format.TheVariants.{Mgl};
ghost use Rattle.framing.specs.Private.{told_length};

use super::coded::{Coded, Counted};
use super::{Layout, Reason, Scanned, shape};
use numbers::LittleEndian;

// The byte that every frame starts with.
const FIRST: u8 = 0x05;

// The byte behind it.
const SECOND: u8 = 0x02;

// The longest frame.
pub const LONGEST: u32 = 276;

// The code of the format.
pub(crate) struct Frames;

impl Coded for Frames {
    ghost format = { Mgl };

    #[tactic(auto, unfolding(crate::specs::Format::layout_of))]
    fn layout() -> Layout {
        Layout {
            first: FIRST,
            shortest: 21,
            longest: LONGEST,
            head: 8,
            tail: 4,
        }
    }

    fn scan(s: &[u8], end: usize) -> Scanned {
        let line = &s[..end];
        let opening = shape::sync(line, FIRST, SECOND);
        let Scanned::Whole(_) = opening else {
            return opening;
        };
        if line.len() < 4 {
            return Scanned::Partial;
        }
        let Some(n) = length_told(line) else {
            return Scanned::Broken(Reason::HeaderByte);
        };
        shape::counted(line.len(), n)
    }

    #[tactic(auto, unfolding(crate::specs::Format::good, crate::specs::Format::shortest))]
    fn checksum_ok(s: &[u8], n: usize) -> bool {
        let frame = &s[..n];
        let e = frame.len() - 4;
        checksum_slicing::crc32(&frame[4..e]) == u32::at(frame, e)
    }
}

impl Counted for Frames {
    fn need(s: &[u8]) -> Option<usize> {
        if s[0] != FIRST || s[1] != SECOND {
            return None;
        }
        length_told(s)
    }
}

// How many bytes a frame has by its length byte, where the complement is right.
fn length_told(s: &[u8]) -> Option<usize>
    requires { 4 ≤ length s.now }
    ensures { result ≡ told_length s.now }
{
    let l = s[2] as usize;
    if l + s[3] as usize != 255 {
        return None;
    }
    if l == 0 {
        return Some(LONGEST as usize);
    }
    Some(l + 20)
}
