// Voltages, inertial sensors and static pressure, raw or in whole units.
ghost use Rattle.std.specs.Prelude.{◌≡◌, ◌<◌};
ghost use Rattle.content.specs.Shared.{number_answer};
ghost use Rattle.onflight_sensors.specs.Sensor.{voltages_answer, voltages_of, axes_answer, axes_of, pressure_of};

use answer::Refusal;
use framing::Format;
use numbers::LittleEndian;

// Raw: 25 a volt.
#[derive(Clone, Copy, Debug, PartialEq, Eq)]
pub struct Voltages {
    pub input: u8,
    pub filtered: u8,
}

// Raw: 1000 a g for accelerations, 10 a degree a second for gyros.
#[derive(Clone, Copy, Debug, PartialEq, Eq)]
pub struct Axes {
    pub x: i16,
    pub y: i16,
    pub z: i16,
}

#[tactic(auto, using(content::proofs::JudgeLaws::judging), unfolding(crate::specs::Sensor::voltages_of))]
pub fn read_voltages(s: &[u8]) -> Result<Voltages, Refusal>
    ensures { voltages_answer result ≡ voltages_of s.now }
{
    content::judge(Format::Onflight, s)?;
    Ok(Voltages {
        input: numbers::byte_at(s, 14, 0),
        filtered: numbers::byte_at(s, 15, 0),
    })
}

// Three signed numbers from `at` on, which lies in a frame.
#[tactic(auto, using(content::proofs::JudgeLaws::judging), unfolding(crate::specs::Sensor::axes_of))]
fn axes_at(s: &[u8], at: usize) -> Result<Axes, Refusal>
    requires { at < 158 }
    ensures { axes_answer result ≡ axes_of at s.now }
{
    content::judge(Format::Onflight, s)?;
    Ok(Axes {
        x: i16::at(s, at),
        y: i16::at(s, at + 2),
        z: i16::at(s, at + 4),
    })
}

pub fn read_accelerations(s: &[u8]) -> Result<Axes, Refusal>
    ensures { axes_answer result ≡ axes_of 18 s.now }
{
    axes_at(s, 18)
}

pub fn read_gyros(s: &[u8]) -> Result<Axes, Refusal>
    ensures { axes_answer result ≡ axes_of 24 s.now }
{
    axes_at(s, 24)
}

// Static pressure in pascals. (Not the pressures of the air data computer and of the external board.)
#[tactic(auto, using(content::proofs::JudgeLaws::judging), unfolding(crate::specs::Sensor::pressure_of))]
pub fn read_pressure(s: &[u8]) -> Result<u32, Refusal>
    ensures { number_answer result ≡ pressure_of s.now }
{
    content::judge(Format::Onflight, s)?;
    Ok(u32::from(u16::at(s, 38)) * 2)
}
