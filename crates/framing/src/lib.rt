// What a byte string begins with: a frame, a proper start of one, or neither.
#![tactic(auto)]

mod coded;
mod find;
pub mod frame_run;
pub mod mgl;
pub mod nmea;
pub mod onflight;
mod rows;
mod shape;
mod xor_padded;

ghost use Rattle.std.specs.Prelude.{◌≡◌, ◌≤◌, length, take};
ghost use Rattle.framing.specs.Format.{format_of, layout_of, known};
ghost use Rattle.framing.specs.Frame.{front};
ghost use Rattle.framing.specs.FindStart.{find_start};
ghost use Rattle.framing.specs.Growth.{Grown};

use coded::Coded;

// The formats, and what every other number names.
#[derive(Clone, Copy, Debug, PartialEq, Eq)]
pub enum Format {
    // The MGL EFIS feed.
    Mgl,
    // The OnFlight log.
    Onflight,
    // NMEA with the LARUS sentences.
    Nmea,
    // No format: no shape, no frame and no byte between a head and a tail.
    Unknown,
}

// Document 01's numbers of the formats.
impl From<u32> for Format {
    ghost from_gives = { λ n f. f ≡ format_of n };

    #[tactic(auto, unfolding(crate::specs::Format::format_of))]
    fn from(number: u32) -> Format {
        match number {
            1 => Format::Mgl,
            2 => Format::Onflight,
            3 => Format::Nmea,
            _ => Format::Unknown,
        }
    }
}

// Why the bytes from a position on are no frame, by the earliest byte at which they stop being the start of a shape.
#[derive(Clone, Copy, Debug, PartialEq, Eq)]
pub enum Reason {
    StartByte,
    SecondByte,
    HeaderByte,
    BodyByte,
    BodyTooLong,
    Ending,
    Checksum,
    RanOut,
}

// What the bytes from a position on are to the shapes of a format; no checksum is looked at.
// Kept: three cases, one of them with a reason, where Option has two; `WholeMeans` and `StartMeans` of specs/Meaning.antt name them.
#[derive(Clone, Copy, Debug, PartialEq, Eq)]
pub enum Scanned {
    // They begin with a whole shape of so many bytes.
    Whole(usize),
    // Nothing, or a proper start of a shape.
    Partial,
    // Neither.
    Broken(Reason),
}

// What the bytes from a position on begin with.
// Kept: three cases, as above; `FrontExactly` of specs/Meaning.antt names them.
#[derive(Clone, Copy, Debug, PartialEq, Eq)]
pub enum Found {
    // A frame of so many bytes.
    Frame(usize),
    // Nothing, or a proper start of a shape. (Document 01's proper start is the non-empty case.)
    Start,
    // Neither: the first byte is skipped.
    Neither(Reason),
}

// The numbers of a format.
#[derive(Clone, Copy, Debug, PartialEq, Eq)]
pub struct Layout {
    // The byte that every frame starts with.
    pub first: u8,
    // How many bytes the shortest frame has, and the longest.
    pub shortest: u32,
    pub longest: u32,
    // How many bytes of a frame precede its body, and follow it.
    pub head: usize,
    pub tail: usize,
}

// What more bytes make of a proper start.
// Kept: three cases, as above; the definition `Grown` names them.
#[derive(Clone, Copy, Debug, PartialEq, Eq)]
pub enum Growth {
    // A proper start again.
    Grows,
    // Something else, or it is not known what; it was a proper start before.
    Waits,
    // It is not known whether it was one.
    Unsaid,
}

// ---- The formats, each in a file of its own. `layout_of`, `front_within` and `find_start` have a row for each, `growth_of` may have one, and
// no other code of this crate matches on the format.

// The numbers of a format, where it is known.
#[tactic(auto, unfolding(crate::specs::Format::layout_of))]
pub fn layout_of(format: Format) -> Option<Layout>
    ensures { result ≡ layout_of format }
{
    match format {
        Format::Mgl => Some(mgl::Frames::layout()),
        Format::Onflight => Some(onflight::Frames::layout()),
        Format::Nmea => Some(nmea::Frames::layout()),
        Format::Unknown => None,
    }
}

// What the first `end` bytes begin with, for every format.
#[tactic(auto, using(crate::proofs::FrameLaws::no_front))]
fn front_within(format: Format, s: &[u8], end: usize) -> Found
    requires { end ≤ length s.now }
    ensures { result ≡ front format (take end s.now) }
{
    match format {
        Format::Mgl => coded::front::<mgl::Frames>(s, end),
        Format::Onflight => coded::front::<onflight::Frames>(s, end),
        Format::Nmea => coded::front::<nmea::Frames>(s, end),
        Format::Unknown => shape::nothing(end),
    }
}

// What a slice begins with.
pub fn front(format: Format, s: &[u8]) -> Found
    ensures { result ≡ front format s.now }
{
    front_within(format, s, s.len())
}

// How many bytes from the start on begin no shape of a format: a reading skips them one by one.
#[tactic(auto, unfolding(crate::specs::Format::known))]
pub fn find_start(format: Format, s: &[u8]) -> usize
    ensures { result ≡ find_start format s.now }
{
    match format {
        Format::Mgl => coded::find_start::<mgl::Frames>(s),
        Format::Onflight => coded::find_start::<onflight::Frames>(s),
        Format::Nmea => coded::find_start::<nmea::Frames>(s),
        Format::Unknown => s.len(),
    }
}

// What `bytes` make of the first `end` bytes of s, if they follow them. A format without a row says nothing, and is only slower.
pub fn growth_of(format: Format, s: &[u8], end: usize, bytes: &[u8]) -> Growth
    ensures { Grown format (take end s.now) bytes.now result }
{
    if s.len() < end {
        return Growth::Unsaid;
    }
    match format {
        Format::Mgl => coded::growth_of::<mgl::Frames>(&s[..end], bytes.len()),
        Format::Onflight => coded::growth_of::<onflight::Frames>(&s[..end], bytes.len()),
        Format::Nmea => nmea::growth_of(s, end, bytes),
        Format::Unknown => Growth::Unsaid,
    }
}

// Whether a format is one of these.
#[tactic(auto, unfolding(crate::specs::Format::layout_of, crate::specs::Format::known))]
pub fn is_known(format: Format) -> bool
    ensures { result ≡ known format }
{
    layout_of(format).is_some()
}
