// RMC: clock, position and status, each judging only its own fields.
ghost use Rattle.std.specs.Prelude.{◌≡◌, ◌≤◌, true, T, length, take};
ghost use Rattle.answer.specs.Answer.{outcome_number};
ghost use Rattle.content.specs.Shared.{clock_answer, position_answer};
ghost use Rattle.nmea_sentence.specs.Digits.{all_digits};
ghost use Rattle.nmea_sentence.specs.Fields.{from_field};
ghost use Rattle.nmea_sentence.specs.Judge.{has_tag, refusal_of};
ghost use Rattle.nmea_rmc.specs.Rmc.{rmc_tag, is_time, is_date, two_at, fields_clock, rmc_clock_of, body_position, rmc_position_of, letter, rmc_status_answer, field_status, rmc_status_of};

use answer::Refusal;
use calendar::{Clock, DateTime};
use content::Position;
use framing::Format;

// What the receiver says of its data: A is valid, V is a navigation receiver warning.
#[derive(Clone, Copy, Debug, PartialEq, Eq)]
pub enum Status {
    Valid,
    Warning,
}

// The letter of a status.
impl From<Status> for u8 {
    ghost from_gives = { λ status n. n ≡ letter status };

    fn from(status: Status) -> u8 {
        match status {
            Status::Valid => b'A',
            Status::Warning => b'V',
        }
    }
}

// GPRMC, and twelve fields after it: else a refusal.
fn judge(s: &[u8]) -> Result<(), Refusal>
    ensures { outcome_number result ≡ refusal_of rmc_tag 13 s.now }
{
    nmea_sentence::judge(s, b"GPRMC", 13)
}

// The bytes of a body from field 1 on: those after the five of its tag and the comma.
fn after_tag(body: &[u8]) -> &[u8]
    requires { has_tag rmc_tag body.now ≡ true }
    ensures { result.now ≡ from_field body.now 1 }
{
    nmea_sentence::after_field(body, 5)
}

// Whether all of at most nine bytes are digits.
fn all_digits(s: &[u8]) -> bool
    requires { length s.now ≤ 9 }
    ensures { result ≡ all_digits s.now }
{
    nmea_sentence::parse_digits(s).is_some()
}

// Whether a field is a time: hhmmss.ss.
#[tactic(auto, unfolding(crate::specs::Rmc::is_time))]
fn is_time(s: &[u8]) -> bool
    ensures { result ≡ is_time s.now }
{
    s.len() == 9 && s[6] == b'.' && all_digits(&s[..6]) && all_digits(&s[7..])
}

// Whether a field is a date: ddmmyy.
#[tactic(auto, unfolding(crate::specs::Rmc::is_date))]
fn is_date(s: &[u8]) -> bool
    ensures { result ≡ is_date s.now }
{
    s.len() == 6 && all_digits(s)
}

// The number of the two digits at i, where the first six bytes are digits.
fn two_at(s: &[u8], i: usize) -> u8
    requires { (i ≤ 4) × ((6 ≤ length s.now) × T (all_digits (take 6 s.now))) }
    ensures { result ≡ two_at s.now i }
{
    (s[i] - b'0') * 10 + (s[i + 1] - b'0')
}

// The clock of a time and a date. An empty one decides before the other's form is judged.
fn clock_of(time: &[u8], date: &[u8]) -> Result<Clock, Refusal>
    ensures { clock_answer result ≡ fields_clock time.now date.now }
{
    if time.len() == 0 {
        return Ok(Clock::Unset);
    }
    if date.len() == 0 {
        return Ok(Clock::Unset);
    }
    if !is_time(time) {
        return Err(Refusal::OutOfForm);
    }
    if !is_date(date) {
        return Err(Refusal::OutOfForm);
    }
    let t = DateTime {
        year: two_at(date, 4),
        month: two_at(date, 2),
        day: two_at(date, 0),
        hour: two_at(time, 0),
        minute: two_at(time, 2),
        second: two_at(time, 4),
    };
    Ok(calendar::clock_of(t, 2000, 99))
}

pub fn read_clock(s: &[u8]) -> Result<Clock, Refusal>
    ensures { clock_answer result ≡ rmc_clock_of s.now }
{
    judge(s)?;
    let from = after_tag(content::between(Format::Nmea, s));
    let time = nmea_sentence::field(from, 0);
    let rest = nmea_sentence::after_field(from, time.len());
    clock_of(time, nmea_sentence::field(rest, 7))
}

// The two angles of a body, each with its hemisphere: fields 3 to 6, each found from the one before it.
fn position_of(body: &[u8]) -> Result<Position, Refusal>
    requires { has_tag rmc_tag body.now ≡ true }
    ensures { position_answer result ≡ body_position body.now }
{
    let from3 = nmea_sentence::from_field(after_tag(body), 2);
    let lat = nmea_sentence::field(from3, 0);
    let from4 = nmea_sentence::after_field(from3, lat.len());
    let lat_side = nmea_sentence::field(from4, 0);
    let Some(latitude) = super::angle::latitude(lat, lat_side) else {
        return Err(Refusal::OutOfForm);
    };
    let from5 = nmea_sentence::after_field(from4, lat_side.len());
    let lon = nmea_sentence::field(from5, 0);
    let from6 = nmea_sentence::after_field(from5, lon.len());
    let lon_side = nmea_sentence::field(from6, 0);
    let Some(longitude) = super::angle::longitude(lon, lon_side) else {
        return Err(Refusal::OutOfForm);
    };
    Ok(Position {
        latitude,
        longitude,
    })
}

pub fn read_position(s: &[u8]) -> Result<Position, Refusal>
    ensures { position_answer result ≡ rmc_position_of s.now }
{
    judge(s)?;
    position_of(content::between(Format::Nmea, s))
}

// One letter, A or V. One below V can only be A, and any other only V: the second test decides. So the compiler makes no jump that
// depends on the letter.
fn status_of(s: &[u8]) -> Result<Status, Refusal>
    ensures { rmc_status_answer result ≡ field_status s.now }
{
    if s.len() != 1 {
        return Err(Refusal::OutOfForm);
    }
    let b = s[0];
    let mut status = Status::Warning;
    if b < b'V' {
        status = Status::Valid;
    }
    if b != u8::from(status) {
        return Err(Refusal::OutOfForm);
    }
    Ok(status)
}

pub fn read_status(s: &[u8]) -> Result<Status, Refusal>
    ensures { rmc_status_answer result ≡ rmc_status_of s.now }
{
    judge(s)?;
    let from = after_tag(content::between(Format::Nmea, s));
    let time = nmea_sentence::field(from, 0);
    let rest = nmea_sentence::after_field(from, time.len());
    status_of(nmea_sentence::field(rest, 0))
}
