// Every field function by its number, its answer as a number and up to 21 signed values: for callers in other languages
// (include/capture.h).
#![tactic(auto)]

mod mgl_values;
mod nmea_values;
mod onflight_values;
mod shared;

ghost use Rattle.std.specs.Prelude.{◌≡◌, ◌≤◌, List, [], ◌∷◌, ℤ};
ghost use Rattle.answer.specs.Answer.{refusal_number};
ghost use Rattle.onflight_sensors.specs.Ratio.{ratio_answer};
ghost use Rattle.capture_values.specs.Values.{numbered, listed};
ghost use Rattle.capture_values.specs.FieldFunctions.{no_function, read_values, ratio_value, ratio_of, elapsed_values, gyro_values};

use answer::Refusal;
use framing::Format;

// Document 01's number, and the values in their order, with zeros after them; beside a refusal all are zeros.
// Kept: a number with the values beside it, here and in `Ratio`, because this is how C sees an answer (include/capture.h).
#[repr(C)]
#[derive(Clone, Copy, Debug, PartialEq, Eq)]
pub struct Values {
    pub number: u32,
    pub values: [i64; 21],
}

// The same for one float.
#[repr(C)]
#[derive(Clone, Copy)]
pub struct Ratio {
    pub number: u32,
    pub value: f64,
}

// A number and the values after it, with zeros after them.
#[tactic(auto, using(crate::proofs::RowLaws::filled))]
fn filled<const N: usize>(number: u32, first: [i64; N]) -> Values
    requires { N ≤ 21 }
    ensures { result ≡ numbered number first.entry }
{
    let mut values = [0i64; 21];
    values[..N].copy_from_slice(&first);
    Values { number, values }
}

// Up to six values; those that an answer does not have are 0.
// Kept: six parameters, which `capture` gives by name; an array of six would only put brackets around them.
pub fn row(number: u32, a: i64, b: i64, c: i64, d: i64, e: i64, f: i64) -> Values
    ensures { result ≡ numbered number (a ∷ b ∷ c ∷ d ∷ e ∷ f ∷ []) }
{
    filled(number, [a, b, c, d, e, f])
}

fn refused(r: Refusal) -> Values
    ensures { result ≡ numbered (refusal_number r) [] }
{
    filled(u32::from(r), [])
}

// The answer for a number of no field function.
fn none() -> Values
    ensures { result ≡ no_function }
{
    refused(Refusal::NotOneFrame)
}

// What a field function answers: `N` values in the order of include/capture.h.
trait Listed<const N: usize>: Sized {
    ghost list: { Self → List ℤ };

    fn list(self) -> [i64; N]
        ensures { result ≡ list self };
}

// What a call returned: 0 and its values, or the number of its refusal.
fn values_in<T: Listed<N>, const N: usize>(answer: Result<T, Refusal>) -> Values
    requires { N ≤ 21 }
    ensures { result ≡ listed T.list answer }
{
    let (number, first) = match answer {
        Ok(x) => (0, x.list()),
        Err(r) => (u32::from(r), [0; N]),
    };
    filled(number, first)
}

// The values that field function number `function` answers. The hundreds of the number are the format; the item is the tank's.
#[tactic(auto, unfolding(crate::specs::FieldFunctions::field_functions, crate::specs::FieldFunctions::read_values))]
pub fn read(function: u32, item: u32, s: &[u8]) -> Values
    ensures { result ≡ read_values function item s.now }
{
    let place = function % 100;
    match Format::from(function / 100) {
        Format::Mgl => mgl_values::read(place, item, s),
        Format::Onflight => onflight_values::read(place, s),
        Format::Nmea => nmea_values::read(place, s),
        Format::Unknown => none(),
    }
}

// Kept: beside `values_in`: a Ratio has a float, which is in no list of i64.
fn ratio_of(r: Result<f64, Refusal>) -> Ratio
    ensures { result ≡ ratio_value (ratio_answer r) }
{
    match r {
        Ok(value) => Ratio { number: 0, value },
        Err(r) => Ratio {
            number: u32::from(r),
            value: 0.0,
        },
    }
}

// The value that field function number `function` answers, where it is a float.
pub fn read_ratio(function: u32, s: &[u8]) -> Ratio
    ensures { result ≡ ratio_of function s.now }
{
    match function {
        214 => ratio_of(onflight_sensors::ratio::read_input_voltage(s)),
        215 => ratio_of(onflight_sensors::ratio::read_load_factor(s)),
        _ => ratio_of(Err(Refusal::NotOneFrame)),
    }
}

// Milliseconds from one OnFlight frame to another.
#[tactic(auto, using(crate::proofs::RowLaws::answering), unfolding(crate::specs::FieldFunctions::elapsed_values))]
pub fn elapsed(a: &[u8], b: &[u8]) -> Values
    ensures { result ≡ elapsed_values a.now b.now }
{
    values_in(onflight::time::read_elapsed(a, b))
}

// The gyro number that stands for a rate.
#[tactic(auto, using(crate::proofs::RowLaws::answering), unfolding(crate::specs::FieldFunctions::gyro_values))]
pub fn write_gyro(rate: i32) -> Values
    ensures { result ≡ gyro_values rate }
{
    values_in(mgl_gyro::write(rate))
}
