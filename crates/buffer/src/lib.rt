// Bytes copied into a caller's buffer, and text made in fixed memory.
#![tactic(auto)]

mod text;

ghost use Rattle.std.specs.Prelude.{◌≡◌, ◌+◌, leb};
ghost use Rattle.buffer.specs.Buffer.{copied};

pub use text::Text;

// Whether n bytes from a place on fit in a buffer of `size` bytes.
pub fn fits(n: usize, size: usize, at: usize) -> bool
    ensures { result ≡ leb (at + n) size }
{
    at.checked_add(n).is_some_and(|end| end <= size)
}

// Copies bytes into a buffer from a place on; where they don't fit, nothing is written.
// Kept: byte by byte. `copy_from_slice` calls memmove, for no bytes too: C would have to bring it, and a storm of starts took 1.4 times as long.
pub fn copy(bytes: &[u8], out: &mut [u8], at: usize)
    ensures { out.new ≡ copied bytes.now out.old at }
{
    if fits(bytes.len(), out.len(), at) {
        for j in 0..bytes.len() {
            out[at + j] = bytes[j];
        }
    }
}
