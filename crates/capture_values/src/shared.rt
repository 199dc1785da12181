// The answers that several formats share.
ghost use Rattle.std.specs.Prelude.{◌≡◌};
ghost use Rattle.calendar.specs.Clocks.{field_number, clock_values};
ghost use Rattle.content.specs.Body.{place_of};
ghost use Rattle.capture_values.specs.Values.{values_of, number_values, signed_values, span_values, clock_list, position_values};

use super::{Listed, Values, filled, refused};
use calendar::{Clock, Field};
use content::Position;
use framing::Format;

impl Listed<1> for u32 {
    ghost list = { number_values };

    fn list(self) -> [i64; 1] {
        [i64::from(self)]
    }
}

impl Listed<1> for i32 {
    ghost list = { signed_values };

    fn list(self) -> [i64; 1] {
        [i64::from(self)]
    }
}

impl Listed<1> for i16 {
    ghost list = { signed_values };

    fn list(self) -> [i64; 1] {
        [i64::from(self)]
    }
}

impl Listed<2> for Position {
    ghost list = { position_values };

    fn list(self) -> [i64; 2] {
        [i64::from(self.latitude), i64::from(self.longitude)]
    }
}

// Kept: no From: it would stand in `calendar`, which has no numbers for its fields, as these are the interface's.
fn field_number(field: Field) -> u8
    ensures { result ≡ field_number field }
{
    match field {
        Field::Month => 2,
        Field::Day => 3,
        Field::Hour => 4,
        Field::Minute => 5,
        Field::Second => 6,
        Field::Year => 7,
    }
}

// Which answer a clock gives, and its seconds.
impl Listed<2> for Clock {
    ghost list = { λ clock. clock_list (clock_values clock) };

    fn list(self) -> [i64; 2] {
        match self {
            Clock::Unset => [0, 0],
            Clock::Good(seconds) => [1, seconds],
            Clock::Wrong(field) => [i64::from(field_number(field)), 0],
        }
    }
}

// Where the body of a frame is.
// Kept: no impl of Listed: a place is two usize, and an i64 holds them only because this place is in a frame, which is short.
pub(crate) fn place_values(format: Format, s: &[u8]) -> Values
    ensures { result ≡ values_of span_values (place_of format s.now) }
{
    match content::locate(format, s) {
        Ok(place) => filled(0, [place.start as i64, place.end as i64]),
        Err(r) => refused(r),
    }
}
