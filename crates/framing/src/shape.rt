// What the shapes of several formats share.
ghost use Rattle.std.specs.Prelude.{◌≡◌, if◌then◌else◌, nat_eq, nat_le};
ghost use Rattle.framing.specs.declared.Scanned.TheVariants.{Whole, Partial};
ghost use Rattle.framing.specs.declared.Found.TheVariants.{Frame, Start, Neither};
ghost use Rattle.framing.specs.declared.Reason.TheVariants.{StartByte, Checksum};
ghost use Rattle.framing.specs.Private.{sync_of, told_by};

use super::{Found, Growth, Reason, Scanned};

// The two fixed bytes that a binary frame starts with.
#[tactic(auto, unfolding(crate::specs::Private::sync_of))]
pub(crate) fn sync(s: &[u8], first: u8, second: u8) -> Scanned
    ensures { result ≡ sync_of first second s.now }
{
    if s.len() == 0 {
        return Scanned::Partial;
    }
    if s[0] != first {
        return Scanned::Broken(Reason::StartByte);
    }
    if s.len() == 1 {
        return Scanned::Partial;
    }
    if s[1] != second {
        return Scanned::Broken(Reason::SecondByte);
    }
    Scanned::Whole(2)
}

// A shape of m bytes whose head is right, in n bytes.
pub(crate) fn counted(n: usize, m: usize) -> Scanned
    ensures { result ≡ (if nat_le m n then Whole m else Partial) }
{
    if m <= n {
        return Scanned::Whole(m);
    }
    Scanned::Partial
}

// What n bytes begin with in a format that has no shape.
pub(crate) fn nothing(n: usize) -> Found
    ensures { result ≡ (if nat_eq n 0 then Start else Neither StartByte) }
{
    if n == 0 {
        return Found::Start;
    }
    Found::Neither(Reason::StartByte)
}

// A whole shape of n bytes, whose checksum is right or wrong.
pub(crate) fn judged(good: bool, n: usize) -> Found
    ensures { result ≡ (if good then Frame n else Neither Checksum) }
{
    if good {
        return Found::Frame(n);
    }
    Found::Neither(Reason::Checksum)
}

// What `more` bytes make of n bytes whose frame has m bytes: fewer than m are a proper start.
pub(crate) fn told(n: usize, more: usize, m: usize) -> Growth
    ensures { result ≡ told_by n more m }
{
    if m <= n {
        return Growth::Unsaid;
    }
    if more < m - n {
        return Growth::Grows;
    }
    Growth::Waits
}
