// One pass over the body of a sentence, for speed: whether its bytes may be in a body, their exclusive or, and how many are commas.
ghost use Rattle.std.specs.Prelude.{◌≡◌, ◌+◌, ◌≤◌, true, length, if◌then◌else◌};
ghost use Rattle.framing.specs.Nmea.{permitted, comma};
ghost use Rattle.framing.specs.Private.{Passes};

use super::xor_padded;

// What a pass finds: 0 refused bytes only if there is none.
// Kept: an Option of the two other numbers in place of `refused` took `sentence_fields` from 46.7 to 54 nanoseconds a sentence.
#[derive(Clone, Copy)]
pub struct Passed {
    pub refused: u8,
    pub xor: u8,
    pub commas: u8,
}

// 1 for a byte that may not be in a body, and else 0. Both bounds are one test: bytes below the first are moved above the last.
// It is a sum of numbers: where tests are joined, the compiler takes two bytes of a vector for each.
fn refused_one(b: u8) -> u8
    ensures { result ≡ (if permitted b then 0 else 1) }
{
    u8::from(0x5E < b.wrapping_add(0xE0)) + u8::from(b == b'$') + u8::from(b == b'*')
}

// How many of three bytes may not be in a body.
fn refused_of(a: u8, b: u8, c: u8) -> u8
    ensures { (result ≤ 3) × (result ≡ 0 → (permitted a ≡ true) × (permitted b ≡ true) × (permitted c ≡ true)) }
{
    refused_one(a) + refused_one(b) + refused_one(c)
}

// How many of three bytes are commas.
fn commas_of(a: u8, b: u8, c: u8) -> u8
    ensures { (result ≤ 3) × (result ≡ comma a + comma b + comma c) }
{
    u8::from(a == b',') + u8::from(b == b',') + u8::from(c == b',')
}

// A body in rows of w bytes, which three rows hold. The last row is the last w bytes. The two before it may reach into it: there
// their bytes are tested again, and count 0. So the loop has a fixed length, and the compiler makes vectors of it that leave no rest.
fn rows(s: &[u8], w: u8) -> Passed
    requires { (w ≤ 32) × (w ≤ length s.now) × (length s.now ≤ w + w + w) }
    ensures { Passes s.now result }
{
    let last = s.len() - w as usize;
    let over = (128 - last) as u8;
    let second = (w as usize).min(last);
    let mut refused: u8 = 0;
    let mut xor: u8 = 0;
    let mut commas: u8 = 0;
    for i in 0..w {
        let at = i as usize;
        let a = s[at];
        let b = s[second + at];
        let c = s[last + at];
        let x = xor_padded::kept(i, over, a);
        let y = xor_padded::kept(i + w, over, b);
        refused += refused_of(a, b, c);
        xor = xor ^ (x ^ y ^ c);
        commas += commas_of(x, y, c);
    }
    Passed {
        refused,
        xor,
        commas,
    }
}

// The pass over 8 to 96 bytes. Each width is a constant, so that the compiler makes a loop of its own for it.
pub(crate) fn pass(s: &[u8]) -> Passed
    requires { (8 ≤ length s.now) × (length s.now ≤ 96) }
    ensures { Passes s.now result }
{
    if 32 <= s.len() {
        return rows(s, 32);
    }
    if 16 <= s.len() {
        return rows(s, 16);
    }
    rows(s, 8)
}
