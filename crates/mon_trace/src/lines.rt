//! Lines of a text, which are slices of it.

ghost use Rattle.std.specs.Prelude.{◌≡◌, ◌≤◌, ◌<◌, ◌+◌, length, take, drop};
ghost use Rattle.mon_trace.specs.Reading.{FirstLine};

use memchr::memchr;

/// The place of the line feed that ends the first line.
pub(crate) fn end_of_line(text: &[u8]) -> Option<usize>
    ensures { FirstLine text.now result }
{
    memchr(b'\n', text)
}

/// The bytes before a place.
pub(crate) fn before(text: &[u8], place: usize) -> &[u8]
    requires { place ≤ length text.now }
    ensures { result.now ≡ take place text.now }
{
    &text[..place]
}

/// The bytes behind a place.
pub(crate) fn behind(text: &[u8], place: usize) -> &[u8]
    requires { place < length text.now }
    ensures { result.now ≡ drop (place + 1) text.now }
{
    &text[place + 1..]
}
