// The functions of `capture`, exported to C and Rust as include/capture.h declares them. A slice is a pointer and a length there.
// Each has the clause of the function that it calls.
#![tactic(auto)]

ghost use Rattle.std.specs.Prelude.{◌≡◌, []};
ghost use Rattle.framing.specs.Format.{format_of};
ghost use Rattle.framing.specs.Frame.{front};
ghost use Rattle.framing.specs.FrameRun.{frame_length};
ghost use Rattle.mgl_gyro.specs.Gyro.{hundredths_of};
ghost use Rattle.reader.specs.Calls.{a_piece, a_close};
ghost use Rattle.reader_bytes.specs.Calls.{lent, serve_lent, fresh_lent};
ghost use Rattle.capture_values.specs.FieldFunctions.{read_values, ratio_of, elapsed_values, gyro_values};
ghost use Rattle.frame_writer.specs.Output.{write_frame};
ghost use Rattle.nmea_plars_writer.specs.Text.{write_setting};
ghost use Rattle.capture.specs.Write.{written_answer, content_in};
ghost use Rattle.capture.specs.Entry.{entry_in};

use capture::Written;
use capture_values::{Ratio, Values};

// ---- readers

// Kept: numbers for formats, parameters and sources, here and below: the C interface.
#[unsafe(no_mangle)]
pub extern "C" fn capture_fresh(format: u32, reader: &mut [u8]) -> u32
    ensures { lent result reader.new [] ≡ fresh_lent format reader.old }
{
    capture::capture_fresh(format, reader)
}

#[unsafe(no_mangle)]
pub extern "C" fn capture_piece(reader: &mut [u8], piece: &[u8], out: &mut [u8]) -> u32
    ensures { lent result reader.new out.new ≡ serve_lent reader.old (a_piece piece.now out.old) }
{
    capture::capture_piece(reader, piece, out)
}

#[unsafe(no_mangle)]
pub extern "C" fn capture_close(reader: &mut [u8], out: &mut [u8]) -> u32
    ensures { lent result reader.new out.new ≡ serve_lent reader.old (a_close out.old) }
{
    capture::capture_close(reader, out)
}

// ---- frames

#[unsafe(no_mangle)]
pub extern "C" fn capture_frame_len(format: u32, bytes: &[u8]) -> usize
    ensures { result ≡ frame_length (front (format_of format) bytes.now) }
{
    capture::capture_frame_len(format, bytes)
}

// ---- field functions

#[unsafe(no_mangle)]
pub extern "C" fn capture_read(function: u32, item: u32, frame: &[u8]) -> Values
    ensures { result ≡ read_values function item frame.now }
{
    capture::capture_read(function, item, frame)
}

#[unsafe(no_mangle)]
pub extern "C" fn capture_ratio(function: u32, frame: &[u8]) -> Ratio
    ensures { result ≡ ratio_of function frame.now }
{
    capture::capture_ratio(function, frame)
}

#[unsafe(no_mangle)]
pub extern "C" fn capture_elapsed(from: &[u8], to: &[u8]) -> Values
    ensures { result ≡ elapsed_values from.now to.now }
{
    capture::capture_elapsed(from, to)
}

#[unsafe(no_mangle)]
pub extern "C" fn capture_gyro(number: i16) -> i32
    ensures { result ≡ hundredths_of number }
{
    capture::capture_gyro(number)
}

// ---- writers

#[unsafe(no_mangle)]
pub extern "C" fn capture_write_gyro(rate: i32) -> Values
    ensures { result ≡ gyro_values rate }
{
    capture::capture_write_gyro(rate)
}

#[unsafe(no_mangle)]
pub extern "C" fn capture_write(format: u32, header: u32, body: &[u8], out: &mut [u8]) -> Written
    ensures { written_answer result out.new ≡ write_frame (format_of format) (content_in header body.now) out.old }
{
    capture::capture_write(format, header, body, out)
}

#[unsafe(no_mangle)]
pub extern "C" fn capture_write_setting(
    source: u8,
    parameter: u8,
    value: u32,
    out: &mut [u8],
) -> Written
    ensures { written_answer result out.new ≡ write_setting (record { source = source; parameter = parameter; value = value }) out.old }
{
    capture::capture_write_setting(source, parameter, value, out)
}

// ---- bench files

#[unsafe(no_mangle)]
pub extern "C" fn capture_entry(first: &[u8], file_len: u64, item: u32) -> Values
    ensures { result ≡ entry_in first.now file_len item }
{
    capture::capture_entry(first, file_len, item)
}
