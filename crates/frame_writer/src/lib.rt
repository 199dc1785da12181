// Writers of whole frames, each into a caller's output buffer.
#![tactic(auto)]

ghost use Rattle.std.specs.Prelude.{◌≡◌, ◌+◌, ◌<◌, ◌≤◌, ◌^◌, ◌++◌, length, MatchResult};
ghost use Rattle.framing.specs.declared.Format.TheVariants.{Mgl, Onflight, Nmea};
ghost use Rattle.answer.specs.declared.Refusal.TheVariants.{OutputTooSmall};
ghost use Rattle.buffer.specs.Buffer.{put};
ghost use Rattle.frame_writer.specs.Output.{writing_answer, write};
ghost use Rattle.frame_writer.specs.Frames.{takes, all_permitted, mgl_frame, onflight_frame, nmea_frame};

use answer::Refusal;
use mgl::Header;

// Whether an MGL body is taken.
#[tactic(auto, using(std::proofs::lemmas::Bool::Decides::nat_tests), unfolding(crate::specs::Frames::takes))]
fn takes_mgl(body: &[u8]) -> bool
    ensures { result ≡ takes Mgl body.now }
{
    12 <= body.len() && body.len() <= 264 && body.len() % 4 == 0
}

// Whether every byte may stand in the body of a sentence. All are tested: with a way out the compiler would not test 16 at once.
fn all_permitted(body: &[u8]) -> bool
    ensures { result ≡ all_permitted body.now }
{
    let mut all = true;
    for &b in body {
        all = all & framing::nmea::is_permitted(b);
    }
    all
}

// Whether the body of a sentence is taken.
#[tactic(auto, using(std::proofs::lemmas::Bool::Decides::nat_tests), unfolding(crate::specs::Frames::takes))]
fn takes_nmea(body: &[u8]) -> bool
    ensures { result ≡ takes Nmea body.now }
{
    1 <= body.len() && body.len() <= 76 && all_permitted(body)
}

// Puts a head and a body to the start of the output, where a tail of so many bytes fits behind them, and answers where they end.
fn put_front(head: &[u8], body: &[u8], tail: usize, out: &mut [u8]) -> Result<usize, Refusal>
    requires { length head.now + length body.now + tail < 2 ^ 64 }
    ensures { MatchResult result
        (λ e. (e ≡ length head.now + length body.now) × ((e + tail ≤ length out.old) × (out.new ≡ put (head.now ++ body.now) out.old)))
        (λ r. (r ≡ OutputTooSmall) × ((length out.old < length head.now + length body.now + tail) × (out.new ≡ out.old))) }
{
    let end = head.len() + body.len();
    if out.len() < end + tail {
        return Err(Refusal::OutputTooSmall);
    }
    buffer::copy(head, out, 0);
    buffer::copy(body, out, head.len());
    Ok(end)
}

// Writes an MGL frame of a header and a body.
pub fn write_mgl(header: Header, body: &[u8], out: &mut [u8]) -> Result<usize, Refusal>
    ensures { writing_answer result out.new ≡ write 5 (takes Mgl body.now) (mgl_frame header body.now) out.old }
{
    if !takes_mgl(body) {
        return Err(Refusal::NotWritable);
    }
    let l = ((body.len() - 8) % 256) as u8;
    let head = [
        0x05,
        0x02,
        l,
        255 - l,
        header.message_type,
        header.rate,
        header.count,
        header.version,
    ];
    let end = put_front(&head, body, 4, out)?;
    let sum = checksum::crc32(&out[4..end]).to_le_bytes();
    buffer::copy(&sum, out, end);
    Ok(end + 4)
}

// Writes an OnFlight frame of a payload.
pub fn write_onflight(payload: &[u8], out: &mut [u8]) -> Result<usize, Refusal>
    ensures { writing_answer result out.new ≡ write 5 (takes Onflight payload.now) (onflight_frame payload.now) out.old }
{
    if payload.len() != 152 {
        return Err(Refusal::NotWritable);
    }
    let end = put_front(&[0x42, 0x46, 0x01, 0x98], payload, 2, out)?;
    let sums = checksum::fletcher16(&out[..end]);
    let tail = [sums.plain, sums.weighted];
    buffer::copy(&tail, out, end);
    Ok(end + 2)
}

// Writes a sentence of a body.
pub fn write_nmea(body: &[u8], out: &mut [u8]) -> Result<usize, Refusal>
    ensures { writing_answer result out.new ≡ write 5 (takes Nmea body.now) (nmea_frame body.now) out.old }
{
    if !takes_nmea(body) {
        return Err(Refusal::NotWritable);
    }
    let end = put_front(b"$", body, 5, out)?;
    let sum = checksum::xor8(body);
    let tail = [
        b'*',
        numbers::hex_digit(sum / 16),
        numbers::hex_digit(sum),
        0x0D,
        0x0A,
    ];
    buffer::copy(&tail, out, end);
    Ok(end + 5)
}
