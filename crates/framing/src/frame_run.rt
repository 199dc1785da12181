// Consecutive frames. `run_within` is the only caller of `front_within` in the archive, which has no `front`: the compiler inlines `front_within`
// only where it has one caller in what a program reaches.
ghost use Rattle.std.specs.Prelude.{◌≡◌, ◌≤◌, length, take};
ghost use Rattle.framing.specs.Frame.{front};
ghost use Rattle.framing.specs.FrameRun.{frame_run, length_found};

use super::{Format, Found, shape};

// Such frames: their bytes, how many they are, and whether what follows is nothing or a proper start. It is false where the limit ended
// the run: what follows was not looked at.
#[derive(Clone, Copy, Debug, PartialEq, Eq)]
pub struct Run {
    pub bytes: usize,
    pub frames: usize,
    // Kept: no flag of a value: the other two numbers hold whatever it says.
    pub waits: bool,
}

// The frames that the first `end` bytes begin with, at most so many, up to a byte that begins none. Later bytes may be read, for speed;
// they change nothing.
fn run_within(format: Format, s: &[u8], end: usize, most: usize) -> Run
    requires { end ≤ length s.now }
    ensures { result ≡ frame_run format most (take end s.now) }
{
    let mut at = 0;
    // Counted down, so that the loop has one number less to keep.
    for left in (0..most).rev() {
        let found = super::front_within(format, &s[at..], end - at);
        let Found::Frame(n) = found else {
            return Run {
                bytes: at,
                frames: most - left - 1,
                waits: matches!(found, Found::Start),
            };
        };
        at += n;
    }
    Run {
        bytes: at,
        frames: most,
        waits: false,
    }
}

// The frames that s begins with, at most so many, up to a byte that begins none.
pub fn frame_run(format: Format, s: &[u8], most: usize) -> Run
    ensures { result ≡ frame_run format most s.now }
{
    run_within(format, s, s.len(), most)
}

// The same of the first `end` bytes, or of all where there are fewer.
pub fn frame_run_within(format: Format, s: &[u8], end: usize, most: usize) -> Run
    ensures { result ≡ frame_run format most (take end s.now) }
{
    run_within(format, s, s.len().min(end), most)
}

// The length of the frame that s begins with, if it begins with one.
pub fn frame_length(format: Format, s: &[u8]) -> Option<usize>
    ensures { result ≡ length_found (front format s.now) }
{
    let found = frame_run(format, s, 1);
    if found.frames == 0 {
        return None;
    }
    Some(found.bytes)
}
