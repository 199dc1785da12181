// Numbers written in decimal digits.
#![tactic(auto)]

ghost use Rattle.std.specs.Prelude.{◌≡◌, ◌++◌, take, min};
ghost use Rattle.buffer.specs.Buffer.{copied};
ghost use Rattle.decimal.specs.Decimal.{last_digits, digit_count, decimal_text};

use buffer::Text;

// The most digits of a number.
const MOST: usize = 20;

// How many digits a number has; 0 has one.
pub fn count(n: u64) -> usize
    ensures { result ≡ digit_count n }
{
    match n.checked_ilog10() {
        Some(power) => power as usize + 1,
        None => 1,
    }
}

// Puts the last k digits of a number into a buffer from a place on; where they don't fit, nothing is written.
pub fn put(n: u64, k: usize, out: &mut [u8], at: usize)
    ensures { out.new ≡ copied (last_digits k n) out.old at }
{
    if !buffer::fits(k, out.len(), at) {
        return;
    }
    let mut rest = n;
    for j in (0..k).rev() {
        out[at + j] = b'0' + (rest % 10) as u8;
        rest /= 10;
    }
}

// Pushes the last k digits of a number, of which there are at most 20.
pub fn push_last<const N: usize>(n: u64, k: usize, text: &mut Text<N>)
    ensures { text.new ≡ take N (text.old ++ last_digits (min k 20) n) }
{
    let most = k.min(MOST);
    let mut digits = [0u8; MOST];
    put(n, most, &mut digits, 0);
    text.push(&digits[..most]);
}

// Pushes a number.
pub fn push<const N: usize>(n: u64, text: &mut Text<N>)
    ensures { text.new ≡ take N (text.old ++ decimal_text n) }
{
    push_last(n, count(n), text);
}
