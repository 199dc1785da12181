// The satellite fix, positions and altitudes.
ghost use Rattle.std.specs.Prelude.{◌≡◌, ◌<◌};
ghost use Rattle.content.specs.Shared.{position_answer};
ghost use Rattle.onflight_sensors.specs.Position.{is_fix, fix_answer, fix_of, position_of, altitude_answer, altitude_of};

use answer::Refusal;
use content::Position;
use framing::Format;
use numbers::LittleEndian;

// The fix (0 none, 2 2D, 3 3D, 4 differential), and the number of satellites used.
#[derive(Clone, Copy, Debug, PartialEq, Eq)]
pub struct Fix {
    pub fix: u8,
    pub satellites: u8,
}

// Whether a fix is one of 0, 2, 3 and 4.
#[tactic(auto, unfolding(crate::specs::Position::is_fix))]
fn is_fix(fix: u8) -> bool
    ensures { result ≡ is_fix fix }
{
    fix != 1 && fix <= 4
}

#[tactic(auto, using(content::proofs::JudgeLaws::judging), unfolding(crate::specs::Position::fix_of))]
pub fn read_fix(s: &[u8]) -> Result<Fix, Refusal>
    ensures { fix_answer result ≡ fix_of s.now }
{
    content::judge(Format::Onflight, s)?;
    let b = numbers::byte_at(s, 40, 0);
    if !is_fix(b % 8) {
        return Err(Refusal::OutOfForm);
    }
    Ok(Fix {
        fix: b % 8,
        satellites: b / 8,
    })
}

// Latitude at `at`, which lies in a frame, and longitude after it, in ten-millionths of a degree.
#[tactic(auto, using(content::proofs::JudgeLaws::judging), unfolding(crate::specs::Position::position_of))]
fn position_at(s: &[u8], at: usize) -> Result<Position, Refusal>
    requires { at < 158 }
    ensures { position_answer result ≡ position_of at s.now }
{
    content::judge(Format::Onflight, s)?;
    Ok(Position {
        latitude: i32::at(s, at),
        longitude: i32::at(s, at + 4),
    })
}

// Kept: two functions, here and below: C and the documents name each, and both are one call of what they share.
pub fn read_gnss_position(s: &[u8]) -> Result<Position, Refusal>
    ensures { position_answer result ≡ position_of 60 s.now }
{
    position_at(s, 60)
}

pub fn read_ins_position(s: &[u8]) -> Result<Position, Refusal>
    ensures { position_answer result ≡ position_of 116 s.now }
{
    position_at(s, 116)
}

// The number at `at` less 10,000: feet above the WGS84 ellipsoid.
#[tactic(auto, using(content::proofs::JudgeLaws::judging), unfolding(crate::specs::Position::altitude_of))]
fn altitude_at(s: &[u8], at: usize) -> Result<i32, Refusal>
    ensures { altitude_answer result ≡ altitude_of at s.now }
{
    content::judge(Format::Onflight, s)?;
    Ok(i32::from(u16::at(s, at)) - 10_000)
}

pub fn read_gnss_altitude(s: &[u8]) -> Result<i32, Refusal>
    ensures { altitude_answer result ≡ altitude_of 56 s.now }
{
    altitude_at(s, 56)
}

pub fn read_ins_altitude(s: &[u8]) -> Result<i32, Refusal>
    ensures { altitude_answer result ≡ altitude_of 114 s.now }
{
    altitude_at(s, 114)
}
