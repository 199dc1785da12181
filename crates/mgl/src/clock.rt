// The clock of the primary flight message: type 1, version 1, L = 24, so a frame of 44 bytes.
ghost use Rattle.std.specs.Prelude.{◌≡◌};
ghost use Rattle.content.specs.Shared.{clock_answer};
ghost use Rattle.mgl.specs.Clock.{mgl_clock_of};

use answer::Refusal;
use calendar::{Clock, DateTime};
use framing::Format;

#[tactic(auto, using(content::proofs::JudgeLaws::judging), unfolding(crate::specs::Clock::mgl_clock_of))]
pub fn read_clock(s: &[u8]) -> Result<Clock, Refusal>
    ensures { clock_answer result ≡ mgl_clock_of s.now }
{
    content::judge(Format::Mgl, s)?;
    super::judge_message(s, 1, 44)?;
    let t = DateTime {
        year: numbers::byte_at(s, 8, 29),
        month: numbers::byte_at(s, 8, 28),
        day: numbers::byte_at(s, 8, 27),
        hour: numbers::byte_at(s, 8, 24),
        minute: numbers::byte_at(s, 8, 25),
        second: numbers::byte_at(s, 8, 26),
    };
    Ok(calendar::binary_clock(t, 2000, 99))
}
