// PLARS settings written, in one spelling only.
#![tactic(auto)]

ghost use Rattle.std.specs.Prelude.{◌≡◌, ◌^◌, ◌&&◌, ◌++◌, leb, take};
ghost use Rattle.nmea_plars.specs.Plars.{rule_of};
ghost use Rattle.frame_writer.specs.Output.{writing_answer};
ghost use Rattle.nmea_plars_writer.specs.Text.{value_text, setting_body, takes_setting, write_setting};

use answer::Refusal;
use buffer::Text;
use nmea_plars::{Form, Setting};

// The longest body: PLARS,H,QNH,1200.0.
const LONGEST: usize = 18;

// Whether a value is in the range of its parameter.
fn is_in_range(parameter: u8, value: u32) -> bool
    ensures { result ≡ (leb (rule_of parameter).least value && leb value (rule_of parameter).most) }
{
    let form = nmea_plars::form_of(parameter);
    let steps = u64::from(value);
    form.least <= steps && steps <= form.most
}

// Whether a setting is taken.
fn takes(setting: Setting) -> bool
    ensures { result ≡ takes_setting setting }
{
    nmea_plars::is_source(setting.source) && is_in_range(setting.parameter, setting.value)
}

// A parameter's name; a number that is no parameter's has none.
fn name_of(parameter: u8) -> &'static [u8]
    ensures { result.now ≡ (rule_of parameter).name }
{
    match parameter {
        0 => b"MC",
        1 => b"BAL",
        2 => b"BUGS",
        3 => b"QNH",
        _ => b"",
    }
}

// Pushes a value.
fn push_value<const N: usize>(value: u64, form: Form, text: &mut Text<N>)
    requires { form.unit ≡ 10 ^ form.decimals }
    ensures { text.new ≡ take N (text.old ++ value_text form.decimals value) }
{
    decimal::push(value / form.unit, text);
    if 0 < form.decimals {
        text.push(b".");
        decimal::push_last(value, form.decimals, text);
    }
}

// The body of a setting's sentence.
fn body_of(setting: Setting) -> Text<LONGEST>
    ensures { result ≡ take LONGEST (setting_body setting) }
{
    let head = [b'P', b'L', b'A', b'R', b'S', b',', setting.source, b','];
    let form = nmea_plars::form_of(setting.parameter);
    let mut text = Text::new();
    text.push(&head);
    text.push(name_of(setting.parameter));
    text.push(b",");
    push_value(u64::from(setting.value), form, &mut text);
    text
}

// Writes the sentence that states a setting.
pub fn write_setting(setting: Setting, out: &mut [u8]) -> Result<usize, Refusal>
    ensures { writing_answer result out.new ≡ write_setting setting out.old }
{
    if !takes(setting) {
        return Err(Refusal::OutOfForm);
    }
    frame_writer::write_nmea(body_of(setting).as_bytes(), out)
}
