// Field functions 200 to 213, of OnFlight frames.
ghost use Rattle.std.specs.Prelude.{◌≡◌, get_or};
ghost use Rattle.framing.specs.declared.Format.TheVariants.{Onflight};
ghost use Rattle.capture_values.specs.Values.{status_values, pair_values, axes_values};
ghost use Rattle.capture_values.specs.FieldFunctions.{no_function, field_functions};

use super::{Listed, Values, shared, values_in};
use framing::Format;
use onflight_sensors::position::Fix;
use onflight_sensors::sensor::{Axes, Voltages};

// The six status bytes.
impl Listed<6> for [u8; 6] {
    ghost list = { status_values };

    fn list(self) -> [i64; 6] {
        self.map(i64::from)
    }
}

impl Listed<2> for Voltages {
    ghost list = { λ v. pair_values (record { first = v.input; second = v.filtered }) };

    fn list(self) -> [i64; 2] {
        [i64::from(self.input), i64::from(self.filtered)]
    }
}

impl Listed<2> for Fix {
    ghost list = { λ x. pair_values (record { first = x.fix; second = x.satellites }) };

    fn list(self) -> [i64; 2] {
        [i64::from(self.fix), i64::from(self.satellites)]
    }
}

impl Listed<3> for Axes {
    ghost list = { axes_values };

    fn list(self) -> [i64; 3] {
        [i64::from(self.x), i64::from(self.y), i64::from(self.z)]
    }
}

// The answer of the field function at a place of the table.
#[tactic(auto, using(crate::proofs::RowLaws::answering), unfolding(crate::specs::FieldFunctions::field_functions))]
pub(crate) fn read(place: u32, s: &[u8]) -> Values
    ensures { result ≡ get_or (field_functions Onflight 0 s.now) place no_function }
{
    match place {
        0 => shared::place_values(Format::Onflight, s),
        1 => values_in(onflight::status::read_status(s)),
        2 => values_in(onflight::status::read_set_bits(s)),
        3 => values_in(onflight::time::read_boot_time(s)),
        4 => values_in(onflight::time::read_clock(s)),
        5 => values_in(onflight_sensors::sensor::read_voltages(s)),
        6 => values_in(onflight_sensors::sensor::read_accelerations(s)),
        7 => values_in(onflight_sensors::sensor::read_gyros(s)),
        8 => values_in(onflight_sensors::sensor::read_pressure(s)),
        9 => values_in(onflight_sensors::position::read_fix(s)),
        10 => values_in(onflight_sensors::position::read_gnss_position(s)),
        11 => values_in(onflight_sensors::position::read_ins_position(s)),
        12 => values_in(onflight_sensors::position::read_gnss_altitude(s)),
        13 => values_in(onflight_sensors::position::read_ins_altitude(s)),
        _ => super::none(),
    }
}
