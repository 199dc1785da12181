// Gyro numbers of the MGL feed, in hundredths of a degree a second, and back.
#![tactic(auto)]

ghost use Rattle.std.specs.Prelude.{◌≡◌, ◌≤◌, unwrap_or};
ghost use Rattle.mgl_gyro.specs.Gyro.{scale, hundredths_of, unscale, number_of, gyro_answer};

use answer::Refusal;

// The size of a rate: fine steps up to 14,999, and coarse ones above.
#[tactic(auto, unfolding(crate::specs::Gyro::scale))]
fn scaled(n: u32) -> u32
    requires { n ≤ 65535 }
    ensures { result ≡ scale n }
{
    if n <= 14_999 { n } else { (n - 13_500) * 10 }
}

// The rate that the gyro number v stands for.
pub fn hundredths(v: i16) -> i32
    ensures { result ≡ hundredths_of v }
{
    let n = scaled(v.unsigned_abs() as u32);
    if v < 0 {
        n.wrapping_neg().cast_signed()
    } else {
        n as i32
    }
}

// The size of the gyro number whose rate has the size m, where there is one.
#[tactic(auto, unfolding(crate::specs::Gyro::unscale))]
fn unscaled(m: u32) -> Option<u32>
    ensures { unwrap_or result 65535 ≡ unscale m }
{
    if m <= 14_999 {
        return Some(m);
    }
    if m % 10 == 0 {
        Some(m / 10 + 13_500)
    } else {
        None
    }
}

// The gyro number that stands for a rate.
pub fn write(rate: i32) -> Result<i16, Refusal>
    ensures { gyro_answer result ≡ number_of rate }
{
    let Some(n) = unscaled(rate.unsigned_abs()) else {
        return Err(Refusal::OutOfForm);
    };
    if rate < 0 {
        if n <= 32_768 {
            return Ok((n as u16).wrapping_neg().cast_signed());
        }
        return Err(Refusal::OutOfForm);
    }
    if n <= 32_767 {
        return Ok(n as i16);
    }
    Err(Refusal::OutOfForm)
}
