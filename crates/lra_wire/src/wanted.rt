//! The bytes that have to come before more of a message can be read.
ghost use Rattle.std.specs.Prelude.{◌≡◌, ◌≤◌, length, drop};

/// Bytes that have to come before more can be read.
#[derive(Clone, Copy)]
pub(crate) enum Wanted {
    /// Line feed, after so many bytes.
    Feed(usize),
    /// Total number of bytes.
    Bytes(usize),
}

/// Body after a head, as far as it came.
#[derive(Drop)]
pub(crate) enum BodyFront {
    /// Whole body, and the offset at which it ends.
    Whole(Vec<u8>, usize),
    /// Body that isn't whole.
    Open(Wanted),
}

/// Returns the bytes from an offset on.
pub(crate) fn behind(bytes: &[u8], start: usize) -> &[u8]
    requires { start ≤ length bytes.now }
    ensures { result.now ≡ drop start bytes.now }
{
    &bytes[start..]
}
