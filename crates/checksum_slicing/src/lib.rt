// CRC-32 by slicing: eight bytes at a time, by eight tables. `checksum::crc32` goes byte by byte.
#![tactic(auto)]

mod table;

ghost use Rattle.std.specs.Prelude.{◌≡◌, ◌+◌, ◌<◌, ◌≤◌, length, slice_index};
ghost use Rattle.checksum.specs.Crc.{crc_of};
ghost use Rattle.checksum_slicing.specs.Private.{word_at, step_tables, after_block, openings, First};

use table::STEPS;

// The states from which 0 to 7 zeros lead to all ones.
static OPENINGS: [u32; 8] = [
    0xFFFF_FFFF,
    0xF095_8FD9,
    0x9A1C_9D90,
    0xA32E_2681,
    0x9226_F562,
    0xF47B_F9CC,
    0xAF4C_9D16,
    0x4686_5AA9,
];

// Eight bytes as two words, the first joined with the state before them; the next block starts at `next`.
#[derive(Clone, Copy)]
struct Block {
    far: u32,
    near: u32,
    next: usize,
}

// The number of the four bytes from i on, which are there.
// Kept: no `u32::at`, which would test each byte in the loop over blocks (docs/DECISIONS.md, "Four bytes as a number").
fn word_at(s: &[u8], i: usize) -> u32
    requires { i + 4 ≤ length s.now }
    ensures { result ≡ word_at s.now i }
{
    u32::from_le_bytes([s[i], s[i + 1], s[i + 2], s[i + 3]])
}

// The tables, and what is in them.
fn tables() -> &'static [[u32; 256]; 8]
    ensures { result.now ≡ step_tables }
{
    &STEPS
}

// 32 bit steps on near and 64 on far, joined: the table that a byte is looked up in is the further on, the more bytes follow it.
// The near bytes are joined first, since they wait for no state.
fn steps(t: &[[u32; 256]; 8], far: u32, near: u32) -> u32
    requires { t.now ≡ step_tables }
    ensures { result ≡ after_block far near }
{
    let [f0, f1, f2, f3] = far.to_le_bytes();
    let [n0, n1, n2, n3] = near.to_le_bytes();
    t[3][usize::from(n0)]
        ^ t[2][usize::from(n1)]
        ^ t[1][usize::from(n2)]
        ^ t[0][usize::from(n3)]
        ^ t[7][usize::from(f0)]
        ^ t[6][usize::from(f1)]
        ^ t[5][usize::from(f2)]
        ^ t[4][usize::from(f3)]
}

// The state from which n zeros lead to all ones.
fn opening(n: usize) -> u32
    requires { n < 8 }
    ensures { result ≡ slice_index openings n }
{
    OPENINGS[n]
}

// The first block, in front of which zeros stand where the bytes are no whole blocks.
fn first_block(s: &[u8]) -> Block
    requires { 8 ≤ length s.now }
    ensures { First s.now result }
{
    let next = (s.len() - 1) % 8 + 1;
    let zeros = 8 - next;
    let all = u64::from_le_bytes([s[0], s[1], s[2], s[3], s[4], s[5], s[6], s[7]]);
    let block = all << (8 * zeros);
    Block {
        far: opening(zeros) ^ (block % 0x1_0000_0000) as u32,
        near: (block / 0x1_0000_0000) as u32,
        next,
    }
}

// CRC-32 of the bytes.
pub fn crc32(s: &[u8]) -> u32
    ensures { result ≡ crc_of s.now }
{
    if s.len() < 8 {
        return checksum::crc32(s);
    }
    let t = tables();
    let first = first_block(s);
    let mut c = steps(t, first.far, first.near);
    for i in (first.next..s.len()).step_by(8) {
        c = steps(t, c ^ word_at(s, i), word_at(s, i + 4));
    }
    c ^ 0xFFFF_FFFF
}
