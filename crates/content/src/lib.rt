// What all field functions share: whether bytes are one whole frame, where its body is, and the values that several formats have.
#![tactic(auto)]

ghost use Rattle.std.specs.Prelude.{◌≡◌};
ghost use Rattle.content.specs.Shared.{judged};
ghost use Rattle.content.specs.Body.{is_frame, place_answer, place_of, body_of, between_of};

use answer::Refusal;
use framing::{Format, frame_run};

// Where the body of a frame is: from `start` up to `end`.
#[derive(Clone, Copy, Debug, PartialEq, Eq)]
pub struct Span {
    pub start: usize,
    pub end: usize,
}

// A latitude and a longitude, in the format's own unit; south and west are below 0.
#[derive(Clone, Copy, Debug, PartialEq, Eq)]
pub struct Position {
    pub latitude: i32,
    pub longitude: i32,
}

// Whether a slice is one whole frame of a format.
pub fn is_frame(format: Format, s: &[u8]) -> bool
    ensures { result ≡ is_frame format s.now }
{
    let found = frame_run::frame_run(format, s, 1);
    if found.frames == 1 {
        return found.bytes == s.len();
    }
    false
}

// What every field function judges first.
pub fn judge(format: Format, s: &[u8]) -> Result<(), Refusal>
    ensures { result ≡ judged (is_frame format s.now) Refusal.NotOneFrame }
{
    if is_frame(format, s) {
        Ok(())
    } else {
        Err(Refusal::NotOneFrame)
    }
}

// Where the body of a frame is: an MGL body, an OnFlight payload, an NMEA body.
#[tactic(auto, using(crate::proofs::JudgeLaws::judging), unfolding(crate::specs::Body::place_of))]
pub fn locate(format: Format, s: &[u8]) -> Result<Span, Refusal>
    ensures { place_answer result ≡ place_of format s.now }
{
    judge(format, s)?;
    let l = framing::layout_of(format).ok_or(Refusal::NotOneFrame)?;
    Ok(Span {
        start: l.head,
        end: s.len() - l.tail,
    })
}

// The bytes between the head and the tail of a format: the body, where the slice is a frame. No frame is judged.
pub fn between(format: Format, s: &[u8]) -> &[u8]
    ensures { result.now ≡ between_of format s.now }
{
    let Some(l) = framing::layout_of(format) else {
        return s;
    };
    s.get(l.head..s.len().saturating_sub(l.tail)).unwrap_or(&[])
}

// The body itself, a part of the slice; none where the slice is not one frame.
pub fn body(format: Format, s: &[u8]) -> &[u8]
    ensures { result.now ≡ body_of format s.now }
{
    if is_frame(format, s) {
        between(format, s)
    } else {
        &[]
    }
}
