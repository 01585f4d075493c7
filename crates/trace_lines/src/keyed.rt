//! Which keys and values the lines of a case have.
ghost use Rattle.std.specs.Prelude.{All, FitsSigned};
ghost use Rattle.std.specs.Int.{w64};
ghost use Rattle.mw_types.specs.Bounds.{IsKey};
ghost use Rattle.history_laws.specs.Keys.{AreKeyed};
ghost use Rattle.trace_lines.specs.Values.{AreValued, HasKeyAndValue};

use injector::{Item, Items};
use run_history::Case;

/// Each line that a case injects has a key of at most 256 bytes of UTF-8, and a value of 64 bits. A
/// caller that is to use the laws of keys and of entries calls this once, and then knows it of the
/// case. It goes over all lines.
pub fn case_is_keyed(case: &Case)
    ensures keyed { AreKeyed case.now }
    ensures valued { AreValued case.now }
{
    for items in case.items.as_slice() {
        lines_are_keyed(items);
    }
}

// Each line of a source has a key and a value.
fn lines_are_keyed(items: &Items)
    ensures { All HasKeyAndValue items.now }
{
    for line in 0..items.count() {
        item_is_keyed(items.at(line));
    }
}

// The item of a line has a key and a value.
fn item_is_keyed(item: &Item)
    ensures key { IsKey item.now.record_key }
    ensures value { FitsSigned w64 item.now.value }
{
    let _text = item.record_key.text();
    let _value = item.value;
}
