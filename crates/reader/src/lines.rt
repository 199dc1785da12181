// The two readings of some bytes. Each copies its frames to the output.
ghost use Rattle.std.specs.Prelude.{◌≡◌, true, ◌+◌, ◌≤◌, ◌++◌, length, take};
ghost use Rattle.buffer.specs.Buffer.{put};
ghost use Rattle.framing.specs.declared.Scanned.TheVariants.{Partial};
ghost use Rattle.framing.specs.Shape.{scan};
ghost use Rattle.framing.specs.Frame.{front};
ghost use Rattle.framing.specs.Reading.{ongoing, closing, read, joined};
ghost use Rattle.reader.specs.Private.{Joined, line_counts_of};

use framing::{Format, frame_run};

// The counts of a reading: the bytes framed, those skipped, and the frames.
#[derive(Clone, Copy, Debug, PartialEq, Eq)]
pub(crate) struct LineCounts {
    pub(crate) framed: usize,
    pub(crate) skipped: usize,
    pub(crate) frames: usize,
}

impl LineCounts {
    // Those of no bytes.
    const NONE: LineCounts = LineCounts {
        framed: 0,
        skipped: 0,
        frames: 0,
    };
}

// Copies the pending bytes and then those of a piece to work, and answers how many they are.
pub(crate) fn join(start: &[u8], bytes: &[u8], work: &mut [u8]) -> usize
    requires { length start.now + length bytes.now ≤ length work.old }
    ensures { (result ≡ length start.now + length bytes.now)
        × (take result work.new ≡ start.now ++ bytes.now) }
{
    buffer::copy(start, work, 0);
    buffer::copy(bytes, work, start.len());
    start.len() + bytes.len()
}

// Copies the frames of the reading of the first `end` bytes of line to `out`, each run whole.
// Kept: a loop with a place that it moves, because each turn goes on where the run and the bytes behind it end.
fn read_line_within(format: Format, line: &[u8], end: usize, out: &mut [u8]) -> LineCounts
    requires { (end ≤ length line.now) × (end ≤ length out.old) }
    ensures { (result ≡ line_counts_of (read ongoing format (take end line.now)))
        × (out.new ≡ put (joined (read ongoing format (take end line.now)).events) out.old) }
{
    let part = &line[..end];
    let mut at = 0;
    let mut framed = 0;
    let mut frames = 0;
    loop {
        let run = frame_run::frame_run_within(format, &line[at..], part.len() - at, line.len() + 1);
        let e = at + run.bytes;
        buffer::copy(&part[at..e], out, framed);
        framed += run.bytes;
        frames += run.frames;
        if run.waits {
            return LineCounts {
                framed,
                skipped: e - framed,
                frames,
            };
        }
        at = e + 1;
        at += framing::find_start(format, &part[at..]);
    }
}

// Copies the frames of the reading of line to `out`.
pub(crate) fn read_line(format: Format, line: &[u8], out: &mut [u8]) -> LineCounts
    requires { length line.now ≤ length out.old }
    ensures { (result ≡ line_counts_of (read ongoing format line.now))
        × (out.new ≡ put (joined (read ongoing format line.now).events) out.old) }
{
    read_line_within(format, line, line.len(), out)
}

// Does what `read_line_within` does. Where the first `end` bytes are known to be a proper start there is nothing to read.
pub(crate) fn read_line_unless_start(
    format: Format,
    grows: bool,
    line: &[u8],
    end: usize,
    out: &mut [u8],
) -> LineCounts
    requires { (end ≤ length line.now) × (end ≤ length out.old) × (grows ≡ true → scan format (take end line.now) ≡ Partial) }
    ensures { (result ≡ line_counts_of (read ongoing format (take end line.now)))
        × (out.new ≡ put (joined (read ongoing format (take end line.now)).events) out.old) }
{
    if grows {
        return LineCounts::NONE;
    }
    read_line_within(format, line, end, out)
}

// Does what `read_line` does. The bytes before the first start byte are only counted.
pub(crate) fn read_line_after_noise(format: Format, line: &[u8], out: &mut [u8]) -> LineCounts
    requires { length line.now ≤ length out.old }
    ensures { (result ≡ line_counts_of (read ongoing format line.now))
        × (out.new ≡ put (joined (read ongoing format line.now).events) out.old) }
{
    let noise = framing::find_start(format, line);
    if noise == line.len() {
        return LineCounts {
            skipped: noise,
            ..LineCounts::NONE
        };
    }
    let w = read_line(format, &line[noise..], out);
    LineCounts {
        skipped: w.skipped + noise,
        ..w
    }
}

// Copies the frames of the reading of the pending bytes and then those of a longer piece to `out`. As much of the piece as
// they can need is joined to the pending bytes in line; the rest of the piece is read in place.
pub(crate) fn read_line_joined(
    format: Format,
    line: &[u8],
    pending: usize,
    bytes: &[u8],
    out: &mut [u8],
) -> LineCounts
    requires { Joined format line.now pending bytes.now out.old }
    ensures { (result ≡ line_counts_of (read ongoing format (take pending line.now ++ bytes.now)))
        × (out.new ≡ put (joined (read ongoing format (take pending line.now ++ bytes.now)).events) out.old) }
{
    let first = read_line(format, line, out);
    let handed = first.framed;
    let used = handed + first.skipped - pending;
    let second = read_line(format, &bytes[used..], &mut out[handed..]);
    LineCounts {
        framed: handed + second.framed,
        skipped: first.skipped + second.skipped,
        frames: first.frames + second.frames,
    }
}

// Copies the frames of the closing reading of s to `out`: where no frame begins, the byte is skipped and the rest is read again.
pub(crate) fn read_closing(format: Format, s: &[u8], out: &mut [u8]) -> LineCounts
    requires { length s.now ≤ length out.old }
    ensures { (result ≡ line_counts_of (read closing format s.now))
        × (out.new ≡ put (joined (read closing format s.now).events) out.old) }
{
    if s.is_empty() {
        return LineCounts::NONE;
    }
    let Some(n) = frame_run::frame_length(format, s) else {
        let w = read_closing(format, &s[1..], out);
        return LineCounts {
            skipped: w.skipped + 1,
            ..w
        };
    };
    buffer::copy(&s[..n], out, 0);
    let w = read_closing(format, &s[n..], &mut out[n..]);
    LineCounts {
        framed: w.framed + n,
        frames: w.frames + 1,
        ..w
    }
}
