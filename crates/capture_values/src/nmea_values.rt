// Field functions 300 to 304, of NMEA sentences.
ghost use Rattle.std.specs.Prelude.{◌≡◌, get_or};
ghost use Rattle.framing.specs.declared.Format.TheVariants.{Nmea};
ghost use Rattle.nmea_rmc.specs.Rmc.{letter};
ghost use Rattle.capture_values.specs.Values.{number_values, setting_values};
ghost use Rattle.capture_values.specs.FieldFunctions.{no_function, field_functions};

use super::{Listed, Values, shared, values_in};
use framing::Format;
use nmea_plars::Setting;
use nmea_rmc::rmc::Status;

impl Listed<1> for Status {
    ghost list = { λ status. number_values (letter status) };

    fn list(self) -> [i64; 1] {
        [i64::from(u8::from(self))]
    }
}

impl Listed<3> for Setting {
    ghost list = { setting_values };

    fn list(self) -> [i64; 3] {
        [
            i64::from(self.source),
            i64::from(self.parameter),
            i64::from(self.value),
        ]
    }
}

// The answer of the field function at a place of the table.
#[tactic(auto, using(crate::proofs::RowLaws::answering), unfolding(crate::specs::FieldFunctions::field_functions))]
pub(crate) fn read(place: u32, s: &[u8]) -> Values
    ensures { result ≡ get_or (field_functions Nmea 0 s.now) place no_function }
{
    match place {
        0 => shared::place_values(Format::Nmea, s),
        1 => values_in(nmea_rmc::rmc::read_clock(s)),
        2 => values_in(nmea_rmc::rmc::read_position(s)),
        3 => values_in(nmea_rmc::rmc::read_status(s)),
        4 => values_in(nmea_plars::read_setting(s)),
        _ => super::none(),
    }
}
