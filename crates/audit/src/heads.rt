//! The lines of entries at the head of a text.
ghost use Rattle.std.specs.Option.{option_map};
ghost use Rattle.audit.specs.Steps.{IsHead};

use trace_lines::{begins_entry, next_line};

// The first line of a text and what is behind it, or none where it is not that of an entry.
pub(crate) fn first_entry_line(rest: &[u8]) -> Option<(&[u8], &[u8])>
    ensures { IsHead rest.now (option_map (λ head. (head.0.now, head.1.now)) result) }
{
    if rest.is_empty() {
        return None;
    }
    let (line, after) = next_line(rest);
    if begins_entry(line) {
        Some((line, after))
    } else {
        None
    }
}
