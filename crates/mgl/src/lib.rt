// Fields of the MGL feed's frames. A body begins at byte 8 of its frame.
#![tactic(auto)]

pub mod clock;
pub mod fuel;
pub mod gps;

ghost use Rattle.std.specs.Prelude.{◌&&◌, ◌≡◌, eqb, get_or};
ghost use Rattle.content.specs.Shared.{judged};
ghost use Rattle.mgl.specs.Header.{header_answer, header_of, is_message};

use answer::Refusal;
use framing::Format;

// What stands before the body of every frame: the message type, its rate a second, its count within the second, and its version.
#[derive(Clone, Copy, Debug, PartialEq, Eq)]
pub struct Header {
    pub message_type: u8,
    pub rate: u8,
    pub count: u8,
    pub version: u8,
}

#[tactic(auto, using(crate::proofs::SizeLaws::judging), unfolding(crate::specs::Header::header_of))]
pub fn read_header(s: &[u8]) -> Result<Header, Refusal>
    ensures { header_answer result ≡ header_of s.now }
{
    content::judge(Format::Mgl, s)?;
    Ok(Header {
        message_type: s[4],
        rate: s[5],
        count: s[6],
        version: s[7],
    })
}

// Whether a frame has this message type, and version 1.
pub(crate) fn has_type(s: &[u8], wanted: u8) -> bool
    ensures { result ≡ (eqb (get_or s.now 4 0) wanted && eqb (get_or s.now 7 0) 1) }
{
    numbers::byte_at(s, 4, 0) == wanted && numbers::byte_at(s, 7, 0) == 1
}

// Whether a frame has this message type, version 1, and `len` bytes.
#[tactic(auto, unfolding(crate::specs::Header::is_message))]
fn is_message(s: &[u8], wanted: u8, len: usize) -> bool
    ensures { result ≡ is_message wanted len s.now }
{
    has_type(s, wanted) && s.len() == len
}

// What a field function judges of a frame before it reads its own fields.
pub(crate) fn judge_message(s: &[u8], wanted: u8, len: usize) -> Result<(), Refusal>
    ensures { result ≡ judged (is_message wanted len s.now) Refusal.OtherMessage }
{
    if is_message(s, wanted, len) {
        Ok(())
    } else {
        Err(Refusal::OtherMessage)
    }
}
