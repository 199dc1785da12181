// A reader as bytes that a caller lends: for callers in other languages, which store it.
#![tactic(auto)]

ghost use Rattle.std.specs.Prelude.{◌≡◌, [], ◌++◌, ◌+◌, ◌≤◌, length, take, drop};
ghost use Rattle.numbers.specs.Low.{low};
ghost use Rattle.reader.specs.State.{held_length};
ghost use Rattle.answer.specs.Answer.{outcome_number};
ghost use Rattle.reader.specs.Calls.{a_piece, a_close};
ghost use Rattle.reader.specs.InPlace.{state_of};
ghost use Rattle.reader_bytes.specs.Bytes.{held_at, reader_length, encode, decode};
ghost use Rattle.reader_bytes.specs.Calls.{lent, serve_lent, fresh_lent};
ghost use Rattle.reader_bytes.specs.Private.{word_bytes, length_test};

use answer::Refusal;
use reader::Reader;
use reader::in_place::Words;

// Where the held bytes start: after five words.
const HELD_AT: usize = 20;

// How many bytes a reader has.
pub const READER_LEN: usize = HELD_AT + Reader::HELD;

// Bytes of another length hold no reader.
fn holds_reader(length: usize) -> Result<(), Refusal>
    ensures { result ≡ length_test length }
{
    if length == READER_LEN {
        Ok(())
    } else {
        Err(Refusal::BrokenReader)
    }
}

// The number of four bytes that are there, so that no length is tested. (With `u32::at`, `words_of` gets too long to be inlined
// before its tests are known to hold: 110 instructions more for a piece.)
// Kept: beside `checksum_slicing::word_at`: both owe a bound, and no public function has a `requires`.
#[tactic(auto, unfolding(numbers::specs::Low::low))]
fn word(bytes: &[u8], at: usize) -> u32
    requires { at + 4 ≤ length bytes.now }
    ensures { result ≡ low 4 bytes.now at }
{
    u32::from_le_bytes([bytes[at], bytes[at + 1], bytes[at + 2], bytes[at + 3]])
}

// The words of the reader that the bytes say, whatever they are.
fn words_of(bytes: &[u8]) -> Words
    requires { length bytes.now ≡ reader_length }
    ensures { state_of result (take held_length (drop held_at bytes.now)) ≡ decode bytes.now }
{
    Words {
        format: word(bytes, 0),
        closed: word(bytes, 4) != 0,
        framed: word(bytes, 8),
        skipped: word(bytes, 12),
        pending: word(bytes, 16),
    }
}

// Puts a reader's words into bytes.
fn put(n: Words, bytes: &mut [u8])
    requires { length bytes.old ≡ reader_length }
    ensures { bytes.new ≡ word_bytes n ++ drop held_at bytes.old }
{
    buffer::copy(&n.format.to_le_bytes(), bytes, 0);
    buffer::copy(&u32::from(n.closed).to_le_bytes(), bytes, 4);
    buffer::copy(&n.framed.to_le_bytes(), bytes, 8);
    buffer::copy(&n.skipped.to_le_bytes(), bytes, 12);
    buffer::copy(&n.pending.to_le_bytes(), bytes, 16);
}

// Writes a reader to bytes.
fn encode(r: Reader, bytes: &mut [u8])
    requires { length bytes.old ≡ reader_length }
    ensures { bytes.new ≡ encode r }
{
    put(Words::from(r), bytes);
    buffer::copy(&r.held, bytes, HELD_AT);
}

// Writes a fresh reader of a format to bytes; of an unknown format the refused one. Bytes of another length are untouched.
// Kept: a number, which `Reader::fresh` takes and the bytes hold (`encode`).
pub fn fresh(format: u32, bytes: &mut [u8]) -> Result<(), Refusal>
    ensures { lent (outcome_number result) bytes.new [] ≡ fresh_lent format bytes.old }
{
    holds_reader(bytes.len())?;
    let opening = Reader::fresh(format);
    encode(opening.reader, bytes);
    opening.answer
}

// Reads a piece. A refusal changes no byte of the reader or the output.
pub fn piece(reader: &mut [u8], bytes: &[u8], out: &mut [u8]) -> Result<(), Refusal>
    ensures { lent (outcome_number result) reader.new out.new ≡ serve_lent reader.old (a_piece bytes.now out.old) }
{
    holds_reader(reader.len())?;
    let n = words_of(reader);
    let call = n.piece(&mut reader[HELD_AT..], bytes, out);
    put(call?.words, reader);
    Ok(())
}

// Ends the line.
pub fn close(reader: &mut [u8], out: &mut [u8]) -> Result<(), Refusal>
    ensures { lent (outcome_number result) reader.new out.new ≡ serve_lent reader.old (a_close out.old) }
{
    holds_reader(reader.len())?;
    let n = words_of(reader);
    let call = n.close(&mut reader[HELD_AT..], out);
    put(call?.words, reader);
    Ok(())
}
