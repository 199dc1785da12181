// How many bytes come before the first of a kind: in blocks of 64 while there are whole ones, and then byte by byte.
ghost use Rattle.std.specs.Prelude.{◌≡◌, ◌+◌, ◌<◌, ◌≤◌, ℕ, true, length, slice_index};
ghost use Rattle.framing.specs.Private.{Each, differs, find_byte};

// How many of N bytes pass a test, up to the first that does not: the least of N numbers, in a loop with one way out, so that the
// compiler tests 16 bytes at once.
pub(crate) fn passing<const N: u8, F: Fn(u8) -> bool>(s: &[u8], from: usize, passes: F) -> u8
    requires fits { from + N ≤ length s.now }
    requires callable { F.IsAlwaysCallable passes }
    ensures { (result ≤ N) × ((j : ℕ) → from ≤ j → j < from + result → F.post passes (slice_index s.now j) true) }
{
    let mut n = N;
    for i in 0..N {
        n = n.min(if passes(s[from + i as usize]) { N } else { i });
    }
    n
}

// A place before which none is `first`, block by block.
fn find_in_blocks(s: &[u8], first: u8) -> usize
    ensures { (result ≤ length s.now) × Each (differs first) 0 result s.now }
{
    // In a storm of starts the first byte is one.
    if s.len() < 64 || s[0] == first {
        return 0;
    }
    let blocks = s.len() / 64;
    for i in 0..blocks {
        let n = passing::<64, _>(s, 64 * i, |b| b != first) as usize;
        if n < 64 {
            return 64 * i + n;
        }
    }
    64 * blocks
}

// How many bytes come before the first that is `first`.
pub(crate) fn find_byte(s: &[u8], first: u8) -> usize
    ensures { result ≡ find_byte first s.now }
{
    let passed = find_in_blocks(s, first);
    for k in passed..s.len() {
        if s[k] == first {
            return k;
        }
    }
    s.len()
}
