// The exclusive or of the first bytes of a slice that goes on, for speed: the bytes that follow are read too, and count 0.
ghost use Rattle.std.specs.Prelude.{◌≡◌, ◌+◌, ◌%◌, ◌≤◌, length, take, if◌then◌else◌, nat_lt};
ghost use Rattle.checksum.specs.Xor.{xor_of};

// b, where i is below n, and else 0; `over` is 128 less n. The test is on a sum of bytes, and b is a parameter: with a test on i, or with b
// read here, the compiler compares 64 bits for each byte.
pub(crate) fn kept(i: u8, over: u8, b: u8) -> u8
    ensures { result ≡ (if nat_lt ((i + over) % 256) 128 then b else 0) }
{
    if i.wrapping_add(over) < 128 { b } else { 0 }
}

// The exclusive or of the first n of 80 bytes. All 80 are read, so that the loop has a fixed length; five in a turn, so that the
// compiler makes five blocks of 16 bytes of the 16 turns, and joins the bytes of a block only once.
pub(crate) fn xor_first(s: &[u8], n: usize) -> u8
    requires { (n ≤ 80) × (80 ≤ length s.now) }
    ensures { result ≡ xor_of (take n s.now) }
{
    let over = (128 - n) as u8;
    let mut x: u8 = 0;
    for i in 0..16 {
        let at = i as usize;
        let column = kept(i, over, s[at])
            ^ kept(i + 16, over, s[at + 16])
            ^ kept(i + 32, over, s[at + 32])
            ^ kept(i + 48, over, s[at + 48])
            ^ kept(i + 64, over, s[at + 64]);
        x = x ^ column;
    }
    x
}
