// NMEA sentences: `$`, a body of 1 to 76 bytes, `*`, two digits, CR, LF.
ghost use Rattle.std.specs.Prelude.{◌≡◌, suc, ◌+◌, ◌-◌, ◌*◌, ◌<◌, ◌≤◌, true, length, take, drop, if◌then◌else◌, ◌==◌, nat_lt, IfSome};
ghost use Rattle.framing.specs.declared.Scanned.TheVariants.{Partial, Broken};
ghost use Rattle.framing.specs.declared.Found.TheVariants.{Frame};
ghost use Rattle.framing.specs.declared.Reason.TheVariants.{BodyTooLong};
ghost use Rattle.framing.specs.Nmea.{permitted, hex_digit, hex_value, comma_count};
ghost use Rattle.framing.specs.declared.Format.TheVariants.{Nmea};
ghost use Rattle.framing.specs.Format.{shortest, pending_bound, good};
ghost use Rattle.framing.specs.Shape.{scan_from};
ghost use Rattle.framing.specs.Frame.{front};
ghost use Rattle.framing.specs.Growth.{Grown};
ghost use Rattle.framing.specs.Private.{ending_byte, Permitted, EndedBy, Reached, Stops};
ghost use Rattle.framing.specs.Rules.{part};

use super::coded::Coded;
use super::{Growth, Layout, Reason, Scanned, find, rows, shape, xor_padded};

// The byte that every frame starts with.
const FIRST: u8 = b'$';

// The longest frame.
pub const LONGEST: u32 = 82;

// ---- the shape

// Whether a byte may be in the body of a sentence.
pub fn is_permitted(b: u8) -> bool
    ensures { result ≡ permitted b }
{
    if b < 0x20 {
        return false;
    }
    if 0x7E < b {
        return false;
    }
    if b == b'$' {
        return false;
    }
    b != b'*'
}

// Whether a byte is a hexadecimal digit in capitals.
fn is_digit(b: u8) -> bool
    ensures { result ≡ hex_digit b }
{
    if b < b'0' {
        return false;
    }
    if b <= b'9' {
        return true;
    }
    if b < b'A' {
        return false;
    }
    b <= b'F'
}

// Whether a byte may follow m bytes of a sentence's end.
#[tactic(auto, unfolding(crate::specs::Private::ending_byte))]
fn may_end(m: usize, b: u8) -> bool
    ensures { result ≡ ending_byte m b }
{
    match m {
        1 | 2 => is_digit(b),
        3 => b == 0x0D,
        _ => b == 0x0A,
    }
}

// The end of a sentence after its `*`, which is just before `from`.
fn ending(s: &[u8], from: usize) -> Scanned
    requires { (0 < from) × (from ≤ length s.now) }
    ensures { result ≡ scan_from Nmea from 1 (drop from s.now) }
{
    for (m, b) in s[from..].iter().enumerate() {
        if !may_end(m + 1, *b) {
            return Scanned::Broken(Reason::Ending);
        }
        if m == 3 {
            return Scanned::Whole(from + 4);
        }
    }
    Scanned::Partial
}

// How many of 32 bytes may be in a body, up to the first that may not.
fn block(s: &[u8], from: usize) -> u8
    requires { from + 32 ≤ length s.now }
    ensures { (result ≤ 32) × Permitted from (from + result) s.now }
{
    find::passing::<32, _>(s, from, is_permitted)
}

// A place that the body reaches, block by block. The last block is the last 32 bytes, some of which may be passed already.
fn blocks(s: &[u8]) -> usize
    requires { 0 < length s.now }
    ensures { Reached result s.now }
{
    if s.len() <= 32 {
        return 1;
    }
    // In a storm of starts bodies end at once.
    if s[1] == b'$' {
        return 1;
    }
    // Most bodies end in the first block. It has a fixed place, so reading it does not wait for the line's length.
    let first = block(s, 1) as usize;
    if first < 32 {
        return 1 + first;
    }
    for i in 1..3 {
        let k = 1 + 32 * i;
        if s.len() <= k {
            return s.len();
        }
        let from = k.min(s.len() - 32);
        let n = block(s, from) as usize;
        if n < 32 {
            return from + n;
        }
    }
    s.len().min(97)
}

// A place that the body reaches: at or after `end`, or at a byte that may not be in a body, or somewhere after place 77.
// Blocks may reach past `end`, so that few bytes are tested one by one.
fn body(s: &[u8], end: usize) -> usize
    requires { (0 < end) × (end ≤ length s.now) }
    ensures { Reached result s.now × (result < end → Stops result s.now) }
{
    let reached = blocks(s);
    let last = end.min(78);
    for k in reached..last {
        if !is_permitted(s[k]) {
            return k;
        }
    }
    reached.max(last)
}

// What a body is that goes on for n bytes.
fn unended(n: usize) -> Scanned
    ensures { result ≡ (if nat_lt 77 n then Broken BodyTooLong else Partial) }
{
    if 77 < n {
        return Scanned::Broken(Reason::BodyTooLong);
    }
    Scanned::Partial
}

// ---- the checksum

// The value of a hexadecimal digit. Digits and letters are told apart by what to take away, and not by a branch.
#[tactic(auto, unfolding(crate::specs::Nmea::hex_value))]
fn hex_value(b: u8) -> u8
    ensures { result ≡ hex_value b }
{
    let base = if b <= b'9' { b'0' } else { 0x37 };
    if b < base {
        return 0;
    }
    b - base
}

// Whether two digits write a checksum.
fn digits_write(high: u8, low: u8, x: u8) -> bool
    ensures { result ≡ (x == hex_value high * 16 + hex_value low) }
{
    x as u32 == hex_value(high) as u32 * 16 + hex_value(low) as u32
}

// Whether the checksum of a sentence is right.
#[tactic(auto, unfolding(crate::specs::Format::good, crate::specs::Format::shortest))]
fn checksum_ok_alone(s: &[u8]) -> bool
    requires { shortest Nmea ≤ length s.now }
    ensures { result ≡ good Nmea s.now }
{
    let e = s.len() - 5;
    digits_write(s[e + 1], s[e + 2], checksum::xor8(&s[1..e]))
}

// Whether the checksum of the sentence of n bytes at the start of s is right, where s has more than 80 bytes.
#[tactic(auto, unfolding(crate::specs::Format::shortest, crate::specs::Format::pending_bound))]
fn checksum_ok_in_line(s: &[u8], n: usize) -> bool
    requires { (shortest Nmea ≤ n) × (n ≤ suc (pending_bound Nmea)) × (n ≤ length s.now) × (80 < length s.now) }
    ensures { result ≡ good Nmea (take n s.now) }
{
    digits_write(s[n - 4], s[n - 3], xor_padded::xor_first(&s[1..], n - 6))
}

// ---- the code of the format

pub(crate) struct Frames;

impl Coded for Frames {
    ghost format = { Nmea };

    #[tactic(auto, unfolding(crate::specs::Format::layout_of))]
    fn layout() -> Layout {
        Layout {
            first: FIRST,
            shortest: 7,
            longest: LONGEST,
            head: 1,
            tail: 5,
        }
    }

    fn scan(s: &[u8], end: usize) -> Scanned {
        let line = &s[..end];
        if line.len() == 0 {
            return Scanned::Partial;
        }
        if line[0] != FIRST {
            return Scanned::Broken(Reason::StartByte);
        }
        let k = body(s, end);
        // A branch: with the lesser of the two places, sentences in long pieces took 3 % longer.
        if line.len() <= k {
            return unended(line.len());
        }
        if 77 < k {
            return Scanned::Broken(Reason::BodyTooLong);
        }
        if line[k] == b'*' && 1 < k {
            return ending(line, k + 1);
        }
        Scanned::Broken(Reason::BodyByte)
    }

    fn checksum_ok(s: &[u8], n: usize) -> bool {
        if 80 < s.len() {
            return checksum_ok_in_line(s, n);
        }
        checksum_ok_alone(&s[..n])
    }
}

// ---- what more bytes make of a start

// The most bytes that are tested for staying in a body: more of them seldom do.
const FEW: usize = 8;

// A block that begins inside a body of 76 bytes ends here at the latest.
const REACH: usize = 108;

// True only if all bytes may be in a body.
fn are_permitted(s: &[u8]) -> bool
    ensures { result ≡ true → Permitted 0 (length s.now) s.now }
{
    s.iter().all(|b| is_permitted(*b))
}

// True only if the bytes from place 1 to `end` may be in a body. (`body` has one caller, so that the compiler inlines it.)
fn is_body(s: &[u8], end: usize) -> bool
    requires { (end ≤ 77) × (108 < length s.now) }
    ensures { result ≡ true → Permitted 1 end s.now }
{
    for i in 0..3 {
        let k = 1 + 32 * i;
        let n = block(s, k) as usize;
        if n < 32 || end <= k + n {
            return end <= k + n;
        }
    }
    true
}

// What more bytes make of the first `end` of s. It says something only of a body without its end, in a slice that is longer than `REACH`.
pub(crate) fn growth_of(s: &[u8], end: usize, bytes: &[u8]) -> Growth
    requires { end ≤ length s.now }
    ensures { Grown Nmea (take end s.now) bytes.now result }
{
    // One test behind the other: joined by `||`, they took a quarter longer where the first byte is no `$`.
    if end == 0 {
        return Growth::Unsaid;
    }
    if s[0] != FIRST {
        return Growth::Unsaid;
    }
    if 77 < end || s.len() <= REACH {
        return Growth::Unsaid;
    }
    if !is_body(s, end) {
        return Growth::Unsaid;
    }
    if FEW.min(77 - end) < bytes.len() {
        return Growth::Waits;
    }
    if are_permitted(bytes) {
        return Growth::Grows;
    }
    Growth::Waits
}

// ---- a sentence by itself

// True only if five bytes end a sentence whose checksum is x.
fn is_end(s: &[u8], at: usize, x: u8) -> bool
    requires { at + 5 ≤ length s.now }
    ensures { result ≡ true → EndedBy x s.now at }
{
    if s[at] != b'*' {
        return false;
    }
    if s[at + 1] != numbers::hex_digit(x / 16) {
        return false;
    }
    if s[at + 2] != numbers::hex_digit(x) {
        return false;
    }
    if s[at + 3] != 0x0D {
        return false;
    }
    s[at + 4] == 0x0A
}

// How many fields a sentence has: one more than commas. None says nothing: s is no sentence, or its body has fewer than 8 bytes.
// The sentence is tested from both ends, which is faster than looking for its end.
pub fn sentence_fields(s: &[u8]) -> Option<usize>
    ensures { IfSome result (λ n. (front Nmea s.now ≡ Frame (length s.now)) × (n ≡ suc (comma_count (part 1 (length s.now - 5) s.now)))) }
{
    if s.len() < 14 || 82 < s.len() || s[0] != FIRST {
        return None;
    }
    let e = s.len() - 5;
    let p = rows::pass(&s[1..e]);
    if p.refused != 0 || !is_end(s, e, p.xor) {
        return None;
    }
    Some(p.commas as usize + 1)
}
