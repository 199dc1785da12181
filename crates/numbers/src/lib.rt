// Numbers of a slice at an offset, low byte first, and hexadecimal digits. Every function is total: a byte past the end counts 0.
#![tactic(auto)]

ghost use Rattle.std.specs.Prelude.{◌≡◌, ℕ, ◌+◌, ◌%◌, ◌^◌, ◌<◌, slice_index};
ghost use Rattle.std.specs.Int.{w16, w32};
ghost use Rattle.numbers.specs.Low.{low, signed, signed-apart};
ghost use Rattle.numbers.specs.Hex.{hex_digit_of};

// The byte i places after `at`. A sum that does not fit is past every end.
pub fn byte_at(s: &[u8], at: usize, i: usize) -> u8
    ensures { result ≡ slice_index s.now (at + i) }
{
    s.get(at.saturating_add(i)).copied().unwrap_or(0)
}

// Numbers of a fixed width, low byte first.
pub trait LittleEndian: Sized {
    // How many bytes a number has, and the number whose bits, read as an unsigned number, are n.
    ghost width: { ℕ };

    ghost of_bits: { ℕ → Self };

    // The number of the bytes from `at` on.
    fn at(s: &[u8], at: usize) -> Self
        ensures { result ≡ of_bits (low width s.now at) };

    // Other bytes are another number.
    ghost apart: { (m n : ℕ) → m < 256 ^ width → n < 256 ^ width → of_bits m ≡ of_bits n → m ≡ n };
}

impl LittleEndian for u16 {
    ghost width = { 2 };

    ghost of_bits = { λ n. n };

    ghost apart = { λ m n h k e. e };

    #[tactic(auto, unfolding(crate::specs::Low::low))]
    fn at(s: &[u8], at: usize) -> u16 {
        u16::from_le_bytes([byte_at(s, at, 0), byte_at(s, at, 1)])
    }
}

impl LittleEndian for u32 {
    ghost width = { 4 };

    ghost of_bits = { λ n. n };

    ghost apart = { λ m n h k e. e };

    #[tactic(auto, unfolding(crate::specs::Low::low))]
    fn at(s: &[u8], at: usize) -> u32 {
        u32::from_le_bytes([
            byte_at(s, at, 0),
            byte_at(s, at, 1),
            byte_at(s, at, 2),
            byte_at(s, at, 3),
        ])
    }
}

impl LittleEndian for i16 {
    ghost width = { 2 };

    ghost of_bits = { signed w16 };

    ghost apart = { signed-apart w16 };

    fn at(s: &[u8], at: usize) -> i16 {
        u16::at(s, at).cast_signed()
    }
}

impl LittleEndian for i32 {
    ghost width = { 4 };

    ghost of_bits = { signed w32 };

    ghost apart = { signed-apart w32 };

    fn at(s: &[u8], at: usize) -> i32 {
        u32::at(s, at).cast_signed()
    }
}

// The hexadecimal digit of n % 16, in capitals.
#[tactic(auto, unfolding(crate::specs::Hex::hex_digit_of))]
pub fn hex_digit(n: u8) -> u8
    ensures { result ≡ hex_digit_of (n % 16) }
{
    let d = n % 16;
    if d <= 9 { b'0' + d } else { b'A' - 10 + d }
}
