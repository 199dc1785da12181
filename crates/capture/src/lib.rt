// The functions that C and Rust call, for Rattle crates; capture_c exports them.
#![tactic(auto)]

ghost use Rattle.std.specs.Prelude.{◌≡◌, List, [], ℕ};
ghost use Rattle.benchfile.specs.Toc.{entry_count_of};
ghost use Rattle.framing.specs.Format.{format_of};
ghost use Rattle.framing.specs.Frame.{front};
ghost use Rattle.framing.specs.FrameRun.{frame_length};
ghost use Rattle.mgl_gyro.specs.Gyro.{hundredths_of};
ghost use Rattle.reader.specs.Calls.{a_piece, a_close};
ghost use Rattle.reader_bytes.specs.Calls.{lent, serve_lent, fresh_lent};
ghost use Rattle.capture_values.specs.FieldFunctions.{read_values, ratio_of, elapsed_values, gyro_values};
ghost use Rattle.answer.specs.Answer.{outcome_number};
ghost use Rattle.frame_writer.specs.Output.{writing_answer, write_frame};
ghost use Rattle.nmea_plars_writer.specs.Text.{write_setting};
ghost use Rattle.capture.specs.Write.{written_answer, header_in, content_in};
ghost use Rattle.capture.specs.Entry.{entry_in};

use answer::Refusal;
use capture_values::{Ratio, Values};
use framing::{Format, frame_run};
use mgl::Header;
use nmea_plars::Setting;

// Document 01's number, and how many bytes were written.
// Kept: a number with a value beside it, because this is how C sees an answer (include/capture.h); so also `Values` and `Ratio`, and the
// numbers of formats, field functions, parameters and sources that the functions below take.
#[repr(C)]
#[derive(Clone, Copy, Debug, PartialEq, Eq)]
pub struct Written {
    pub number: u32,
    pub length: usize,
}

impl From<Result<usize, Refusal>> for Written {
    ghost from_gives = { λ r w. (out : List ℕ) → written_answer w out ≡ writing_answer r out };

    fn from(writing: Result<usize, Refusal>) -> Written {
        match writing {
            Ok(length) => Written { number: 0, length },
            Err(refusal) => Written {
                number: u32::from(refusal),
                length: 0,
            },
        }
    }
}

// The number of what a call answered, 0 where it was done.
fn number_of(outcome: Result<(), Refusal>) -> u32
    ensures { result ≡ outcome_number outcome }
{
    match outcome {
        Ok(()) => 0,
        Err(refusal) => u32::from(refusal),
    }
}

// ---- readers

pub fn capture_fresh(format: u32, reader: &mut [u8]) -> u32
    ensures { lent result reader.new [] ≡ fresh_lent format reader.old }
{
    number_of(reader_bytes::fresh(format, reader))
}

pub fn capture_piece(reader: &mut [u8], piece: &[u8], out: &mut [u8]) -> u32
    ensures { lent result reader.new out.new ≡ serve_lent reader.old (a_piece piece.now out.old) }
{
    number_of(reader_bytes::piece(reader, piece, out))
}

pub fn capture_close(reader: &mut [u8], out: &mut [u8]) -> u32
    ensures { lent result reader.new out.new ≡ serve_lent reader.old (a_close out.old) }
{
    number_of(reader_bytes::close(reader, out))
}

// ---- frames

pub fn capture_frame_len(format: u32, bytes: &[u8]) -> usize
    ensures { result ≡ frame_length (front (format_of format) bytes.now) }
{
    frame_run::frame_length(Format::from(format), bytes).unwrap_or(0)
}

// ---- field functions

pub fn capture_read(function: u32, item: u32, frame: &[u8]) -> Values
    ensures { result ≡ read_values function item frame.now }
{
    capture_values::read(function, item, frame)
}

pub fn capture_ratio(function: u32, frame: &[u8]) -> Ratio
    ensures { result ≡ ratio_of function frame.now }
{
    capture_values::read_ratio(function, frame)
}

pub fn capture_elapsed(from: &[u8], to: &[u8]) -> Values
    ensures { result ≡ elapsed_values from.now to.now }
{
    capture_values::elapsed(from, to)
}

pub fn capture_gyro(number: i16) -> i32
    ensures { result ≡ hundredths_of number }
{
    mgl_gyro::hundredths(number)
}

// ---- writers

pub fn capture_write_gyro(rate: i32) -> Values
    ensures { result ≡ gyro_values rate }
{
    capture_values::write_gyro(rate)
}

// The header whose four bytes a number has, low byte first.
// Kept: no `From` in crate `mgl`: the order of the four bytes is that of include/capture.h, and no plainer there.
fn header_in(n: u32) -> Header
    ensures { result ≡ header_in n }
{
    let [message_type, rate, count, version] = n.to_le_bytes();
    Header {
        message_type,
        rate,
        count,
        version,
    }
}

pub fn capture_write(format: u32, header: u32, body: &[u8], out: &mut [u8]) -> Written
    ensures { written_answer result out.new ≡ write_frame (format_of format) (content_in header body.now) out.old }
{
    match Format::from(format) {
        Format::Mgl => Written::from(frame_writer::write_mgl(header_in(header), body, out)),
        Format::Onflight => Written::from(frame_writer::write_onflight(body, out)),
        Format::Nmea => Written::from(frame_writer::write_nmea(body, out)),
        Format::Unknown => Written::from(Err(Refusal::NotWritable)),
    }
}

pub fn capture_write_setting(source: u8, parameter: u8, value: u32, out: &mut [u8]) -> Written
    ensures { written_answer result out.new ≡ write_setting (record { source = source; parameter = parameter; value = value }) out.old }
{
    let setting = Setting {
        source,
        parameter,
        value,
    };
    Written::from(nmea_plars_writer::write_setting(setting, out))
}

// ---- bench files

fn entries(first: &[u8], len: u64) -> u8
    ensures { result ≡ (entry_count_of first.now len).value }
{
    benchfile::read_count(first, len).unwrap_or(0)
}

pub fn capture_entry(first: &[u8], file_len: u64, item: u32) -> Values
    ensures { result ≡ entry_in first.now file_len item }
{
    match benchfile::read_entry(first, file_len, item) {
        Ok(e) => capture_values::row(
            0,
            entries(first, file_len) as i64,
            e.format as i64,
            e.port as i64,
            e.length as i64,
            e.start as i64,
            0,
        ),
        Err(refusal) => capture_values::row(u32::from(refusal), 0, 0, 0, 0, 0, 0),
    }
}
