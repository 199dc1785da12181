// The GPS message: type 2, version 1, L = 36, so a frame of 56 bytes.
ghost use Rattle.std.specs.Prelude.{◌≡◌};
ghost use Rattle.mgl.specs.Gps.{has_altitude, gps_answer, gps_at, gps_of};

use answer::Refusal;
use framing::Format;
use numbers::LittleEndian;

// Every field raw, and what the mode says of them.
#[derive(Clone, Copy, Debug, PartialEq, Eq)]
pub struct Gps {
    pub latitude: i32,
    pub longitude: i32,
    pub altitude: i32,
    pub agl: i32,
    pub north: i32,
    pub east: i32,
    pub down: i32,
    pub ground_speed: u16,
    pub track: u16,
    pub variation: i16,
    pub mode: u8,
    pub tracked: u8,
    pub visible: u8,
    pub horizontal_accuracy: u8,
    pub vertical_accuracy: u8,
    pub capability: u8,
    pub raim: u8,
    pub raim_horizontal_error: u8,
    pub raim_vertical_error: u8,
    // Mode 0 marks everything invalid.
    pub valid: bool,
    // The altitude is valid in modes 3 and 5 alone.
    pub altitude_valid: bool,
}

#[tactic(auto, unfolding(crate::specs::Gps::has_altitude))]
fn has_altitude(mode: u8) -> bool
    ensures { result ≡ has_altitude mode }
{
    mode == 3 || mode == 5
}

// The fields of a GPS frame.
#[tactic(auto, unfolding(crate::specs::Gps::gps_at))]
fn fields(s: &[u8]) -> Gps
    ensures { result ≡ gps_at s.now }
{
    let mode = numbers::byte_at(s, 8, 34);
    Gps {
        latitude: i32::at(s, 8),
        longitude: i32::at(s, 12),
        altitude: i32::at(s, 16),
        agl: i32::at(s, 20),
        north: i32::at(s, 24),
        east: i32::at(s, 28),
        down: i32::at(s, 32),
        ground_speed: u16::at(s, 36),
        track: u16::at(s, 38),
        variation: i16::at(s, 40),
        mode,
        tracked: numbers::byte_at(s, 8, 35),
        visible: numbers::byte_at(s, 8, 36),
        horizontal_accuracy: numbers::byte_at(s, 8, 37),
        vertical_accuracy: numbers::byte_at(s, 8, 38),
        capability: numbers::byte_at(s, 8, 39),
        raim: numbers::byte_at(s, 8, 40),
        raim_horizontal_error: numbers::byte_at(s, 8, 41),
        raim_vertical_error: numbers::byte_at(s, 8, 42),
        valid: mode != 0,
        altitude_valid: has_altitude(mode),
    }
}

#[tactic(auto, using(content::proofs::JudgeLaws::judging), unfolding(crate::specs::Gps::gps_of))]
pub fn read_gps(s: &[u8]) -> Result<Gps, Refusal>
    ensures { gps_answer result ≡ gps_of s.now }
{
    content::judge(Format::Mgl, s)?;
    super::judge_message(s, 2, 56)?;
    if 5 < numbers::byte_at(s, 8, 34) {
        return Err(Refusal::OutOfForm);
    }
    Ok(fields(s))
}
