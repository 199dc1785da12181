// Time since boot, the time between two frames, and the clock.
ghost use Rattle.std.specs.Prelude.{◌≡◌};
ghost use Rattle.content.specs.Shared.{clock_answer, number_answer};
ghost use Rattle.onflight.specs.Time.{boot_of, elapsed_of, onflight_clock_of};

use answer::Refusal;
use calendar::{Clock, DateTime};
use framing::Format;
use numbers::LittleEndian;

// Milliseconds since boot, which roll over at 2 ^ 32.
#[tactic(auto, using(content::proofs::JudgeLaws::judging), unfolding(crate::specs::Time::boot_of))]
pub fn read_boot_time(s: &[u8]) -> Result<u32, Refusal>
    ensures { number_answer result ≡ boot_of s.now }
{
    content::judge(Format::Onflight, s)?;
    Ok(u32::at(s, 10))
}

// Milliseconds from frame a to frame b.
#[tactic(auto, using(content::proofs::JudgeLaws::judging), unfolding(crate::specs::Time::elapsed_of))]
pub fn read_elapsed(a: &[u8], b: &[u8]) -> Result<u32, Refusal>
    ensures { number_answer result ≡ elapsed_of a.now b.now }
{
    content::judge(Format::Onflight, a)?;
    content::judge(Format::Onflight, b)?;
    Ok(u32::at(b, 10).wrapping_sub(u32::at(a, 10)))
}

// The clock, in six bytes from 41 on; the year counts from 1970.
#[tactic(auto, using(content::proofs::JudgeLaws::judging), unfolding(crate::specs::Time::onflight_clock_of))]
pub fn read_clock(s: &[u8]) -> Result<Clock, Refusal>
    ensures { clock_answer result ≡ onflight_clock_of s.now }
{
    content::judge(Format::Onflight, s)?;
    let t = DateTime {
        year: numbers::byte_at(s, 41, 0),
        month: numbers::byte_at(s, 42, 0),
        day: numbers::byte_at(s, 43, 0),
        hour: numbers::byte_at(s, 44, 0),
        minute: numbers::byte_at(s, 45, 0),
        second: numbers::byte_at(s, 46, 0),
    };
    Ok(calendar::binary_clock(t, 1970, 255))
}
