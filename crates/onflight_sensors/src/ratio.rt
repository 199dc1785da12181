// The two values that are floats: one rounded division of exactly converted whole numbers.
ghost use Rattle.std.specs.Prelude.{◌≡◌};
ghost use Rattle.onflight_sensors.specs.Ratio.{ratio_answer, voltage_of, load_of};

use answer::Refusal;
use framing::Format;
use numbers::LittleEndian;

// Input voltage in volts: raw over 25.
#[tactic(auto, using(content::proofs::JudgeLaws::judging), unfolding(crate::specs::Ratio::voltage_of))]
pub fn read_input_voltage(s: &[u8]) -> Result<f64, Refusal>
    ensures { ratio_answer result ≡ voltage_of s.now }
{
    content::judge(Format::Onflight, s)?;
    Ok(numbers::byte_at(s, 14, 0) as f64 / 25.0)
}

// Load factor in g: raw over 1000.
#[tactic(auto, using(content::proofs::JudgeLaws::judging), unfolding(crate::specs::Ratio::load_of))]
pub fn read_load_factor(s: &[u8]) -> Result<f64, Refusal>
    ensures { ratio_answer result ≡ load_of s.now }
{
    content::judge(Format::Onflight, s)?;
    Ok(i16::at(s, 80) as f64 / 1000.0)
}
