// Text made piece by piece in fixed memory.
ghost use Rattle.std.specs.Prelude.{◌≡◌, ◌≤◌, ◌++◌, List, [], ℕ, cond, leb, length, take, Some, None};
ghost use Rattle.buffer.specs.Buffer.{copied};

use std::marker::Model;

// Up to N bytes. In a contract a text is the list of its bytes.
#[derive(Drop)]
pub struct Text<const N: usize> {
    bytes: [u8; N],
    len: usize,
}

impl<const N: usize> Model for Text<N> {
    ghost Value = { List ℕ };

    ghost view = { λ t. take t.len t.bytes };

    ghost invariant = { λ t. t.len ≤ N };
}

impl<const N: usize> Text<N> {
    pub fn new() -> Text<N>
        ensures { result ≡ [] }
    {
        Text {
            bytes: [0; N],
            len: 0,
        }
    }

    // Puts bytes behind the text, as many as there is room for.
    pub fn push(&mut self, bytes: &[u8])
        ensures { self.new ≡ take N (self.old ++ bytes.now) }
    {
        let n = bytes.len().min(N - self.len);
        let end = self.len + n;
        crate::copy(&bytes[..n], &mut self.bytes, self.len);
        self.len = end;
    }

    pub fn as_bytes(&self) -> &[u8]
        ensures { result.now ≡ self.now }
    {
        &self.bytes[..self.len]
    }

    // Copies the text to the start of a buffer, and answers its length; where it doesn't fit, nothing is written.
    pub fn write(&self, out: &mut [u8]) -> Option<usize>
        ensures length { result ≡ cond (leb (length self.now) (length out.old)) (Some (length self.now)) None }
        ensures after { out.new ≡ copied self.now out.old 0 }
    {
        let bytes = self.as_bytes();
        if out.len() < bytes.len() {
            return None;
        }
        crate::copy(bytes, out, 0);
        Some(bytes.len())
    }
}
