// The six status bytes, and how many of their named bits are set.
ghost use Rattle.std.specs.Prelude.{◌≡◌, ◌≤◌};
ghost use Rattle.content.specs.Shared.{number_answer};
ghost use Rattle.onflight.specs.Status.{set_bits, status_bytes, status_answer, status_of, set_bits_of};
ghost use Rattle.onflight.specs.Private.{bits_of};

use answer::Refusal;
use framing::Format;

#[tactic(auto, unfolding(crate::specs::Status::status_bytes))]
fn bytes_of(s: &[u8]) -> [u8; 6]
    ensures { result ≡ status_bytes s.now }
{
    [
        numbers::byte_at(s, 4, 0),
        numbers::byte_at(s, 4, 1),
        numbers::byte_at(s, 4, 2),
        numbers::byte_at(s, 4, 3),
        numbers::byte_at(s, 4, 4),
        numbers::byte_at(s, 4, 5),
    ]
}

#[tactic(auto, using(content::proofs::JudgeLaws::judging), unfolding(crate::specs::Status::status_of))]
pub fn read_status(s: &[u8]) -> Result<[u8; 6], Refusal>
    ensures { status_answer result ≡ status_of s.now }
{
    content::judge(Format::Onflight, s)?;
    Ok(bytes_of(s))
}

fn ones_of(b: u8) -> u32
    ensures { (result ≡ bits_of 8 b) × (result ≤ 8) }
{
    b.count_ones()
}

// Five bytes, and of the sixth the two named bits: its remainder by 4.
fn set_bits(status: &[u8; 6]) -> u32
    ensures { result ≡ set_bits status.now }
{
    ones_of(status[0])
        + ones_of(status[1])
        + ones_of(status[2])
        + ones_of(status[3])
        + ones_of(status[4])
        + ones_of(status[5] % 4)
}

// How many of the 42 named status bits are set.
#[tactic(auto, using(content::proofs::JudgeLaws::judging), unfolding(crate::specs::Status::set_bits_of))]
pub fn read_set_bits(s: &[u8]) -> Result<u32, Refusal>
    ensures { number_answer result ≡ set_bits_of s.now }
{
    content::judge(Format::Onflight, s)?;
    Ok(set_bits(&bytes_of(s)))
}
