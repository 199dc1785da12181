// Field functions 100 to 105, of MGL frames.
ghost use Rattle.std.specs.Prelude.{◌≡◌, get_or};
ghost use Rattle.framing.specs.declared.Format.TheVariants.{Mgl};
ghost use Rattle.capture_values.specs.Values.{header_values, gps_values, tank_values};
ghost use Rattle.capture_values.specs.FieldFunctions.{no_function, field_functions};

use super::{Listed, Values, shared, values_in};
use framing::Format;
use mgl::Header;
use mgl::fuel::Tank;
use mgl::gps::Gps;

impl Listed<4> for Header {
    ghost list = { header_values };

    fn list(self) -> [i64; 4] {
        [
            i64::from(self.message_type),
            i64::from(self.rate),
            i64::from(self.count),
            i64::from(self.version),
        ]
    }
}

// All the fields of a GPS frame.
impl Listed<21> for Gps {
    ghost list = { gps_values };

    fn list(self) -> [i64; 21] {
        [
            i64::from(self.latitude),
            i64::from(self.longitude),
            i64::from(self.altitude),
            i64::from(self.agl),
            i64::from(self.north),
            i64::from(self.east),
            i64::from(self.down),
            i64::from(self.ground_speed),
            i64::from(self.track),
            i64::from(self.variation),
            i64::from(self.mode),
            i64::from(self.tracked),
            i64::from(self.visible),
            i64::from(self.horizontal_accuracy),
            i64::from(self.vertical_accuracy),
            i64::from(self.capability),
            i64::from(self.raim),
            i64::from(self.raim_horizontal_error),
            i64::from(self.raim_vertical_error),
            // Kept: `as` for the two flags, since there is no From<bool> for i64.
            self.valid as i64,
            self.altitude_valid as i64,
        ]
    }
}

impl Listed<4> for Tank {
    ghost list = { tank_values };

    fn list(self) -> [i64; 4] {
        [
            i64::from(self.level),
            i64::from(self.kind),
            i64::from(self.on),
            i64::from(self.sensors),
        ]
    }
}

// The answer of the field function at a place of the table.
#[tactic(auto, using(crate::proofs::RowLaws::answering), unfolding(crate::specs::FieldFunctions::field_functions))]
pub(crate) fn read(place: u32, item: u32, s: &[u8]) -> Values
    ensures { result ≡ get_or (field_functions Mgl item s.now) place no_function }
{
    match place {
        0 => shared::place_values(Format::Mgl, s),
        1 => values_in(mgl::read_header(s)),
        2 => values_in(mgl::gps::read_gps(s)),
        3 => values_in(mgl::fuel::read_count(s)),
        4 => values_in(mgl::fuel::read_tank(s, item as usize)),
        5 => values_in(mgl::clock::read_clock(s)),
        _ => super::none(),
    }
}
