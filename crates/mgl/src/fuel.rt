// The fuel message, tank by tank: type 11, version 1, a body of 4 + 8k bytes with k from 1 to 32.
ghost use Rattle.std.specs.Prelude.{◌≡◌, ◌+◌, ◌*◌, ◌≤◌, length};
ghost use Rattle.content.specs.Shared.{number_answer};
ghost use Rattle.mgl.specs.Fuel.{is_fuel, tank_count_of, tank_answer, tank_at, tank_of};

use answer::Refusal;
use framing::Format;
use numbers::LittleEndian;

#[derive(Clone, Copy, Debug, PartialEq, Eq)]
pub struct Tank {
    pub level: i32,
    pub kind: u8,
    pub on: u8,
    pub sensors: u16,
}

#[tactic(auto, unfolding(crate::specs::Fuel::is_fuel))]
fn is_fuel(s: &[u8]) -> bool
    ensures { result ≡ is_fuel s.now }
{
    super::has_type(s, 11) && 24 <= s.len() && s.len() <= 272 && (s.len() - 16) % 8 == 0
}

// How many tanks a fuel frame has. The body's first number is signed; k is small, so comparing the bits compares the numbers.
#[tactic(auto, using(crate::proofs::FuelLaws::counting), unfolding(crate::specs::Fuel::tank_count_of, crate::specs::Fuel::tanks))]
pub fn read_count(s: &[u8]) -> Result<u32, Refusal>
    ensures { number_answer result ≡ tank_count_of s.now }
{
    content::judge(Format::Mgl, s)?;
    if !is_fuel(s) {
        return Err(Refusal::OtherMessage);
    }
    let k = (s.len() as u32 - 16) / 8;
    if u32::at(s, 8) != k {
        return Err(Refusal::OutOfForm);
    }
    Ok(k)
}

// Tank i of a frame, from 0, after the head of 8 bytes and the count of 4. Its eight bytes are a slice of constant length, so that the
// compiler drops the tests of `byte_at`.
fn tank_at(s: &[u8], i: u32) -> Tank
    requires { 12 + 8 * i + 8 ≤ length s.now }
    ensures { result ≡ tank_at s.now i }
{
    let at = 12 + 8 * i as usize;
    let tank = &s[at..at + 8];
    Tank {
        level: i32::at(tank, 0),
        kind: numbers::byte_at(tank, 0, 4),
        on: numbers::byte_at(tank, 0, 5),
        sensors: u16::at(tank, 6),
    }
}

// Tank i of a fuel frame, from 0.
pub fn read_tank(s: &[u8], i: usize) -> Result<Tank, Refusal>
    ensures { tank_answer result ≡ tank_of s.now i }
{
    let k = read_count(s)?;
    if k as usize <= i {
        return Err(Refusal::OutOfForm);
    }
    Ok(tank_at(s, i as u32))
}
