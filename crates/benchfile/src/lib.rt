// Bench files: the table of contents, judged from the first bytes and the file's length; and the text of a sheet.
#![tactic(auto)]

pub mod sheet;

ghost use Rattle.std.specs.Prelude.{◌≡◌, ◌≤◌, ◌^◌, ◌<◌};
ghost use Rattle.benchfile.specs.Toc.{entries, known_at, all_known, total_length, entry_start, is_toc, is_whole_file, length_answer, file_length_of, count_answer, entry_count_of, entry_answer, entry_at, entry_of};

use answer::Refusal;
use framing::Format;
use numbers::LittleEndian;

// The most entries of a file.
pub const MOST_ENTRIES: usize = 16;

// The longest table of contents: that of so many entries.
pub const LONGEST_TOC: usize = 1 + 6 * MOST_ENTRIES;

// An entry: the format and port of a capture, its length, and where it starts in the file.
#[derive(Clone, Copy, Debug, PartialEq, Eq)]
pub struct Entry {
    // Kept: a number: `entry_at` gives the byte of the file, whatever it is.
    pub format: u8,
    pub port: u8,
    pub length: u32,
    pub start: u64,
}

// The number of entries, whichever byte stands there.
fn entries(s: &[u8]) -> u8
    ensures { result ≡ entries s.now }
{
    numbers::byte_at(s, 0, 0)
}

// Whether entry i has a known format.
fn is_known_at(s: &[u8], i: u8) -> bool
    ensures { result ≡ known_at s.now i }
{
    let number = numbers::byte_at(s, 1 + 6 * usize::from(i), 0);
    framing::is_known(Format::from(u32::from(number)))
}

// Whether each of the first n entries has a known format.
fn all_known(s: &[u8], n: u8) -> bool
    ensures { result ≡ all_known s.now n }
{
    for i in 0..n {
        if !is_known_at(s, i) {
            return false;
        }
    }
    true
}

// The lengths of the first n entries, added up.
fn total_length(s: &[u8], n: u8) -> u64
    ensures { (result ≡ total_length s.now n) × (result < 2 ^ 40) }
{
    let mut sum = 0;
    for k in 0..n {
        sum += u64::from(u32::at(s, 1 + 6 * usize::from(k) + 2));
    }
    sum
}

// Where the capture of entry i starts.
fn entry_start(s: &[u8], i: u8) -> u64
    ensures { result ≡ entry_start s.now i }
{
    1 + 6 * u64::from(entries(s)) + total_length(s, i)
}

// Whether the bytes begin with a table of contents of 1 to 16 entries, not cut, whose formats are known.
#[tactic(auto, using(std::proofs::lemmas::Bool::Decides::nat_tests), unfolding(crate::specs::Toc::is_toc))]
fn is_toc(s: &[u8]) -> bool
    ensures { result ≡ is_toc s.now }
{
    let n = entries(s);
    let count = usize::from(n);
    1 <= count && count <= MOST_ENTRIES && 1 + 6 * count <= s.len() && all_known(s, n)
}

// Whether these are the first bytes of a whole file of `len` bytes.
fn is_whole_file(s: &[u8], len: u64) -> bool
    ensures { result ≡ is_whole_file s.now len }
{
    is_toc(s) && entry_start(s, entries(s)) == len
}

// The length that the table of contents gives to its file: for a caller who learns the file's length only at its end.
pub fn read_length(s: &[u8]) -> Result<u64, Refusal>
    ensures { length_answer result ≡ file_length_of s.now }
{
    if !is_toc(s) {
        return Err(Refusal::BrokenToc);
    }
    Ok(entry_start(s, entries(s)))
}

// How many entries a file of `len` bytes has, from its first bytes.
pub fn read_count(s: &[u8], len: u64) -> Result<u8, Refusal>
    ensures { count_answer result ≡ entry_count_of s.now len }
{
    if !is_whole_file(s, len) {
        return Err(Refusal::BrokenToc);
    }
    Ok(entries(s))
}

// Entry i, whichever bytes stand there.
pub fn entry_at(s: &[u8], i: u8) -> Entry
    ensures { result ≡ entry_at s.now i }
{
    let at = 1 + 6 * usize::from(i);
    Entry {
        format: numbers::byte_at(s, at, 0),
        port: numbers::byte_at(s, at, 1),
        length: u32::at(s, at + 2),
        start: entry_start(s, i),
    }
}

// Entry i, from 0, of a file of `len` bytes, from its first bytes.
pub fn read_entry(s: &[u8], len: u64, i: u32) -> Result<Entry, Refusal>
    ensures { entry_answer result ≡ entry_of s.now len i }
{
    let count = read_count(s, len)?;
    if u32::from(count) <= i {
        return Err(Refusal::OutOfForm);
    }
    Ok(entry_at(s, i as u8))
}
