// What the code of a format has to do, and what follows for all formats. Each format has a type without values for it.
ghost use Rattle.std.specs.Prelude.{◌≡◌, suc, ◌≤◌, length, take, Some, IfSome};
ghost use Rattle.framing.specs.declared.Format.{Format};
ghost use Rattle.framing.specs.Format.{layout_of, shortest, pending_bound, good};
ghost use Rattle.framing.specs.Shape.{scan};
ghost use Rattle.framing.specs.Frame.{front};
ghost use Rattle.framing.specs.FindStart.{find_start};
ghost use Rattle.framing.specs.Private.{Needs, GrownBy};

use super::{Found, Growth, Layout, Scanned, find, shape};

pub(crate) trait Coded {
    ghost format: { Format };

    fn layout() -> Layout
        ensures { Some result ≡ layout_of format };

    // What the first `end` bytes are to a shape. Later bytes may be read, for speed; they change nothing.
    // Kept: `s` and `end` go together, but the public `growth_of` and `frame_run_within` take the two, and a struct of them would
    // have to be made for each frame of a run.
    fn scan(s: &[u8], end: usize) -> Scanned
        requires { end ≤ length s.now }
        ensures { result ≡ scan format (take end s.now) };

    // Whether the checksum of the shape of n bytes at the start of s is right.
    fn checksum_ok(s: &[u8], n: usize) -> bool
        requires { (shortest format ≤ n) × (n ≤ suc (pending_bound format)) × (n ≤ length s.now) }
        ensures { result ≡ good format (take n s.now) };
}

// A format whose frames tell their length in a head of four bytes.
pub(crate) trait Counted: Coded {
    // How many bytes the frame has whose head s begins with, if s begins with one.
    fn need(s: &[u8]) -> Option<usize>
        requires { 4 ≤ length s.now }
        ensures { IfSome result (Needs Self.format s.now) };
}

// What the first `end` bytes begin with.
pub(crate) fn front<F: Coded>(s: &[u8], end: usize) -> Found
    requires { end ≤ length s.now }
    ensures { result ≡ front F.format (take end s.now) }
{
    match F::scan(s, end) {
        Scanned::Whole(n) => shape::judged(F::checksum_ok(s, n), n),
        Scanned::Partial => Found::Start,
        Scanned::Broken(r) => Found::Neither(r),
    }
}

// How many bytes from the start on begin no shape.
pub(crate) fn find_start<F: Coded>(s: &[u8]) -> usize
    ensures { result ≡ find_start F.format s.now }
{
    find::find_byte(s, F::layout().first)
}

// What so many bytes more make of a start.
pub(crate) fn growth_of<F: Counted>(s: &[u8], more: usize) -> Growth
    ensures { GrownBy F.format s.now more result }
{
    if s.len() < 4 {
        return Growth::Unsaid;
    }
    let Some(n) = F::need(s) else {
        return Growth::Unsaid;
    };
    shape::told(s.len(), more, n)
}
