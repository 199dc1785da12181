// The angles of RMC, in hundred-thousandths of a minute.
ghost use Rattle.std.specs.Prelude.{◌≡◌, ◌^◌, ◌<◌, ◌≤◌};
ghost use Rattle.nmea_rmc.specs.Angle.{angle_of, hemisphere_of, place, latitude_of, longitude_of};

// An angle without its hemisphere: up to `most` degree digits, two minute digits below 60, a point, five digits.
fn angle_of(s: &[u8], most: usize) -> Option<u64>
    requires { most ≤ 3 }
    ensures { result ≡ angle_of most s.now }
{
    if s.len() < 9 {
        return None;
    }
    let k = s.len() - 8;
    if most < k {
        return None;
    }
    if s[k + 2] != b'.' {
        return None;
    }
    let degrees = nmea_sentence::parse_digits(&s[0..k])?;
    let minutes = nmea_sentence::parse_digits(&s[k..k + 2])?;
    let parts = nmea_sentence::parse_digits(&s[k + 3..])?;
    if 60 <= minutes {
        return None;
    }
    Some(degrees * 6_000_000 + minutes * 100_000 + parts)
}

// Kept: three cases, where Option has two; `hemisphere_of` of specs/Angle.antt names them.
#[derive(Clone, Copy, Debug, PartialEq, Eq)]
pub enum Hemisphere {
    Plus,
    Minus,
    Neither,
}

// One letter.
fn hemisphere_of(s: &[u8], plus: u8, minus: u8) -> Hemisphere
    ensures { result ≡ hemisphere_of plus minus s.now }
{
    if s.len() != 1 {
        return Hemisphere::Neither;
    }
    if s[0] == plus {
        return Hemisphere::Plus;
    }
    if s[0] == minus {
        return Hemisphere::Minus;
    }
    Hemisphere::Neither
}

// Below 0 in the south and the west.
fn placed(most: u64, size: Option<u64>, hemisphere: Hemisphere) -> Option<i32>
    requires { most < 2 ^ 31 }
    ensures { result ≡ place most size hemisphere }
{
    let n = size?;
    if most < n {
        return None;
    }
    match hemisphere {
        Hemisphere::Plus => Some(n as i32),
        Hemisphere::Minus => Some(-(n as i32)),
        Hemisphere::Neither => None,
    }
}

// Kept: two functions, here and below: both are one call of what they share, and a const parameter for three constants says no more.
// The latitude of a latitude field and its hemisphere's field: at most 90 degrees.
#[tactic(auto, unfolding(crate::specs::Angle::latitude_of))]
pub(crate) fn latitude(s: &[u8], hemisphere: &[u8]) -> Option<i32>
    ensures { result ≡ latitude_of s.now hemisphere.now }
{
    placed(
        540_000_000,
        angle_of(s, 2),
        hemisphere_of(hemisphere, b'N', b'S'),
    )
}

// The longitude, at most 180 degrees.
#[tactic(auto, unfolding(crate::specs::Angle::longitude_of))]
pub(crate) fn longitude(s: &[u8], hemisphere: &[u8]) -> Option<i32>
    ensures { result ≡ longitude_of s.now hemisphere.now }
{
    placed(
        1_080_000_000,
        angle_of(s, 3),
        hemisphere_of(hemisphere, b'E', b'W'),
    )
}
