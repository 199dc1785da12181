// The fields of a sentence's body, the numbers that they write, and what every field function of a sentence judges first.
#![tactic(auto)]

ghost use Rattle.std.specs.Prelude.{◌≡◌, ◌+◌, ◌≤◌, length, drop};
ghost use Rattle.nmea_sentence.specs.Fields.{fields, field_at, from_field};
ghost use Rattle.nmea_sentence.specs.Private.{fields_in};
ghost use Rattle.answer.specs.Answer.{outcome_number};
ghost use Rattle.nmea_sentence.specs.Judge.{has_tag, refusal_of};
ghost use Rattle.nmea_sentence.specs.Digits.{digits_of};

use answer::Refusal;
use framing::Format;

// The bytes of field i, from 0, between two commas; none where there is no such field.
pub fn field(s: &[u8], i: usize) -> &[u8]
    ensures { result.now ≡ field_at s.now i }
{
    let mut start: usize = 0;
    let mut left = i;
    for (k, b) in s.iter().enumerate() {
        if *b == b',' {
            if left == 0 {
                return &s[start..k];
            }
            left -= 1;
            start = k + 1;
        }
    }
    if left == 0 { &s[start..] } else { &[] }
}

// The bytes from field i on; none where there is no such field. Its field j is field i + j of s.
pub fn from_field(s: &[u8], i: usize) -> &[u8]
    ensures { result.now ≡ from_field s.now i }
{
    let mut left = i;
    for (k, b) in s.iter().enumerate() {
        if left == 0 {
            return &s[k..];
        }
        if *b == b',' {
            left -= 1;
        }
    }
    &[]
}

// The bytes after the first n + 1: where the first field has n bytes, those from field 1 on.
pub fn after_field(s: &[u8], n: usize) -> &[u8]
    ensures { result.now ≡ drop (n + 1) s.now }
{
    if s.len() <= n {
        return &[];
    }
    let from = n + 1;
    &s[from..]
}

// The commas of at most 255 bytes. The count is a byte, so that the compiler compares and counts 16 bytes at once.
// Kept: counted by hand, in a byte; `filter` and `count` count in 64 bits.
fn commas(s: &[u8]) -> u8
    requires { length s.now ≤ 255 }
    ensures { result + 1 ≡ length (fields s.now) }
{
    let mut n: u8 = 0;
    for b in s {
        if *b == b',' {
            n += 1;
        }
    }
    n
}

// How many fields a body has: one more than commas.
pub fn field_count(s: &[u8]) -> usize
    ensures { result ≡ length (fields s.now) }
{
    let mut n: usize = 1;
    for part in s.chunks(255) {
        n += commas(part) as usize;
    }
    n
}

// The number that up to nine decimal digits write.
pub fn parse_digits(s: &[u8]) -> Option<u64>
    ensures { result ≡ digits_of s.now }
{
    if 9 < s.len() {
        return None;
    }
    let mut n: u64 = 0;
    for b in s {
        // Kept: a test for each end, as in `all_digits` of specs/Digits.antt; by `is_ascii_digit` the answers did not close.
        if *b < b'0' {
            return None;
        }
        if b'9' < *b {
            return None;
        }
        n = n * 10 + (*b - b'0') as u64;
    }
    Some(n)
}

// Whether the first field of a body is this tag. At most one byte more than the tag has is read.
fn has_tag(body: &[u8], tag: &[u8]) -> bool
    ensures { result ≡ has_tag tag.now body.now }
{
    let near = body.len().min(tag.len() + 1);
    field(&body[..near], 0) == tag
}

// The fields of a sentence, by the rules of a frame.
fn count_by_rules(s: &[u8]) -> Option<usize>
    ensures { result ≡ fields_in s.now }
{
    if content::is_frame(Format::Nmea, s) {
        Some(field_count(content::between(Format::Nmea, s)))
    } else {
        None
    }
}

// How many fields a sentence has, where s is one. Of most sentences one pass tells it; of the others the rules do.
fn count_in(s: &[u8]) -> Option<usize>
    ensures { result ≡ fields_in s.now }
{
    match framing::nmea::sentence_fields(s) {
        Some(n) => Some(n),
        None => count_by_rules(s),
    }
}

// The refusals that do not depend on what is read: not one frame, another tag, another number of fields (the tag is one).
pub fn judge(s: &[u8], tag: &[u8], count: usize) -> Result<(), Refusal>
    ensures { outcome_number result ≡ refusal_of tag.now count s.now }
{
    let Some(n) = count_in(s) else {
        return Err(Refusal::NotOneFrame);
    };
    let body = content::between(Format::Nmea, s);
    if !has_tag(body, tag) {
        return Err(Refusal::OtherMessage);
    }
    if n != count {
        return Err(Refusal::OutOfForm);
    }
    Ok(())
}
