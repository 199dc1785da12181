// PLARS settings, in one spelling only.
#![tactic(auto)]

ghost use Rattle.std.specs.Prelude.{◌≡◌, ◌≤◌, ◌^◌};
ghost use Rattle.nmea_sentence.specs.Digits.{digits_of};
ghost use Rattle.nmea_plars.specs.Plars.{rule_of, form_of, parameter_named, is_whole_part, steps, value_of, is_source, setting_answer, ranged, fields_setting, setting_of};

use answer::Refusal;
use framing::Format;

// A setting: who sent it (L or H), the parameter (0 to 3 for MC, BAL, BUGS, QNH), and its value in steps of the last decimal.
// Kept: source and parameter are numbers, since `write_setting` takes any (refusal 9 for what none is), C's among them.
#[derive(Clone, Copy, Debug, PartialEq, Eq)]
pub struct Setting {
    pub source: u8,
    pub parameter: u8,
    pub value: u32,
}

// The number of the parameter with this name.
#[tactic(auto, using(crate::proofs::PlarsLaws::naming), unfolding(crate::specs::Plars::parameter_of, crate::specs::Plars::parameter_named))]
fn parameter_of(s: &[u8]) -> Option<u8>
    ensures { result ≡ parameter_named s.now }
{
    match s {
        b"MC" => Some(0),
        b"BAL" => Some(1),
        b"BUGS" => Some(2),
        b"QNH" => Some(3),
        _ => None,
    }
}

// How a value is written: its decimals, how many steps of the last one make 1, and its least and its largest value in steps.
#[derive(Clone, Copy, Debug, PartialEq, Eq)]
pub struct Form {
    pub decimals: usize,
    pub unit: u64,
    pub least: u64,
    pub most: u64,
}

// The forms of MC, BAL, BUGS and QNH; any other number takes no value.
// Kept: numbers, and a form for those of no parameter. An enum would be no plainer: a Setting keeps the number (above), so each use would
// turn it into the enum and back, and this function would still need the form that takes no value.
pub fn form_of(parameter: u8) -> Form
    ensures { result ≡ form_of (rule_of parameter) }
{
    match parameter {
        0 => Form {
            decimals: 1,
            unit: 10,
            least: 0,
            most: 99,
        },
        1 => Form {
            decimals: 3,
            unit: 1_000,
            least: 0,
            most: 1_000,
        },
        2 => Form {
            decimals: 0,
            unit: 1,
            least: 0,
            most: 50,
        },
        3 => Form {
            decimals: 1,
            unit: 10,
            least: 5_000,
            most: 12_000,
        },
        _ => Form {
            decimals: 0,
            unit: 1,
            least: 1,
            most: 0,
        },
    }
}

// Whether a whole part is not empty and has no leading zero before another digit.
#[tactic(auto, unfolding(crate::specs::Plars::is_whole_part))]
fn is_whole_part(s: &[u8]) -> bool
    ensures { result ≡ is_whole_part s.now }
{
    1 <= s.len() && (s.len() <= 1 || s[0] != b'0')
}

// A whole part and its decimals, in steps of the last one, of which so many make 1.
fn steps_of(whole: &[u8], fraction: &[u8], unit: u64) -> Option<u64>
    requires { unit ≤ 1000 }
    ensures { result ≡ steps unit (digits_of whole.now) (digits_of fraction.now) }
{
    let w = nmea_sentence::parse_digits(whole)?;
    let f = nmea_sentence::parse_digits(fraction)?;
    Some(w * unit + f)
}

// A value in steps of its last decimal. With one decimal or more, a point stands before them.
fn value_of(s: &[u8], form: Form) -> Option<u64>
    requires { (form.decimals ≤ 3) × (form.unit ≡ 10 ^ form.decimals) }
    ensures { result ≡ value_of form.decimals s.now }
{
    if form.decimals == 0 {
        if !is_whole_part(s) {
            return None;
        }
        return nmea_sentence::parse_digits(s);
    }
    if s.len() < form.decimals + 2 {
        return None;
    }
    let k = s.len() - form.decimals - 1;
    if s[k] != b'.' {
        return None;
    }
    if !is_whole_part(&s[0..k]) {
        return None;
    }
    steps_of(&s[0..k], &s[k + 1..], form.unit)
}

// L or H.
#[tactic(auto, unfolding(crate::specs::Plars::is_source))]
pub fn is_source(b: u8) -> bool
    ensures { result ≡ is_source b }
{
    b == b'L' || b == b'H'
}

// A setting of a parameter: its value has the parameter's form and is in its range.
fn ranged_setting(source: u8, parameter: u8, value: &[u8]) -> Result<Setting, Refusal>
    ensures { setting_answer result ≡ ranged source parameter (value_of (rule_of parameter).decimals value.now) }
{
    let form = form_of(parameter);
    let Some(n) = value_of(value, form) else {
        return Err(Refusal::OutOfForm);
    };
    if n < form.least {
        return Err(Refusal::OutOfForm);
    }
    if form.most < n {
        return Err(Refusal::OutOfForm);
    }
    Ok(Setting {
        source,
        parameter,
        value: n as u32,
    })
}

// The setting of a source, a name and a value.
fn setting_of(source: &[u8], name: &[u8], value: &[u8]) -> Result<Setting, Refusal>
    ensures { setting_answer result ≡ fields_setting source.now name.now value.now }
{
    if source.len() != 1 {
        return Err(Refusal::OutOfForm);
    }
    if !is_source(source[0]) {
        return Err(Refusal::OutOfForm);
    }
    let Some(parameter) = parameter_of(name) else {
        return Err(Refusal::OutOfForm);
    };
    ranged_setting(source[0], parameter, value)
}

// The setting that a PLARS sentence states.
pub fn read_setting(s: &[u8]) -> Result<Setting, Refusal>
    ensures { setting_answer result ≡ setting_of s.now }
{
    nmea_sentence::judge(s, b"PLARS", 4)?;
    let body = content::between(Format::Nmea, s);
    // The tag has five bytes.
    let from = nmea_sentence::after_field(body, 5);
    let source = nmea_sentence::field(from, 0);
    let from2 = nmea_sentence::after_field(from, source.len());
    let name = nmea_sentence::field(from2, 0);
    let from3 = nmea_sentence::after_field(from2, name.len());
    setting_of(source, name, nmea_sentence::field(from3, 0))
}
