//! The lines of a printed history, one by one.
ghost use Rattle.std.specs.Prelude.{◌≡◌, ◌<◌, ◌∷◌, length};
ghost use Rattle.trace_lines.specs.Lines.{lines_in, begins_entry, IsCut};

use memchr::memchr;

/// The first line of what is left of a text, without its line feed, and what follows that, which is
/// shorter. Nothing is copied.
pub fn next_line(rest: &[u8]) -> (&[u8], &[u8])
    requires some { 0 < length rest.now }

    ensures lines { lines_in rest.now ≡ result.0.now ∷ lines_in result.1.now }
    ensures whole { IsCut rest.now result.0.now result.1.now }
    ensures shorter { length result.1.now < length rest.now }
{
    match memchr(b'\n', rest) {
        Some(at) => (&rest[..at], &rest[at + 1..]),
        None => (rest, &rest[rest.len()..]),
    }
}

/// Whether a line begins as that of an entry does. The first line that does not ends the entries.
pub fn begins_entry(line: &[u8]) -> bool
    ensures begins { result ≡ begins_entry line.now }
{
    line.starts_with(b"{\"do\":")
}
