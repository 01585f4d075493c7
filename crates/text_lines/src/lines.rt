//! The lines of a text, one by one.
ghost use Rattle.std.specs.Prelude.{◌≡◌, ◌<◌, ◌∷◌, length};
ghost use Rattle.text_lines.specs.Lines.{lines_of, without_return};

use memchr::memchr;

/// The line without the one carriage return at its end.
pub fn without_return(line: &[u8]) -> &[u8]
    ensures line { result.now ≡ without_return line.now }
{
    let len = line.len();
    if len > 0 && line[len - 1] == b'\r' {
        &line[..len - 1]
    } else {
        line
    }
}

/// The first line of what is left of a text, and what follows it, which is shorter.
pub fn first_line(rest: &[u8]) -> (&[u8], &[u8])
    requires some { 0 < length rest.now }

    ensures lines { lines_of rest.now ≡ result.0.now ∷ lines_of result.1.now }
    ensures shorter { length result.1.now < length rest.now }
{
    match memchr(b'\n', rest) {
        Some(at) => (without_return(&rest[..at]), &rest[at + 1..]),
        None => (without_return(rest), &rest[rest.len()..]),
    }
}
