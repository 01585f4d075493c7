//! The case of the example of two lines.
ghost use Rattle.std.specs.Prelude.{◌≡◌, ◌∷◌, []};
ghost use Rattle.worked_examples.specs.First.{key_a};
ghost use Rattle.worked_examples.specs.Rising.{item_at_time, rise_case, rise_source};

use crate::tests::made;
use injector::{Item, Items, ItemsList};
use mw_types::Key;
use run_history::Case;
use std::alloc::Global;
use std::process::Abort;
use topology::Topology;

// The key a.
pub(crate) fn key_a(rt: &impl Abort, alloc: Global) -> Key
    ensures { result ≡ key_a }
{
    made(rt, Key::of(alloc, "a"))
}

// A record line of the key a.
fn item(rt: &impl Abort, alloc: Global, stamp: u64) -> Item
    ensures { result ≡ item_at_time stamp }
{
    Item {
        record_key: key_a(rt, alloc),
        stamp,
        value: 1,
        late: false,
    }
}

// A record at 10, a watermark of 60, and a record at 70.
fn two_lines(rt: &impl Abort, alloc: Global) -> Items
    ensures { result ≡ rise_source }
{
    let mut lines = Items::new(alloc);
    made(rt, lines.push(item(rt, alloc, 10), 0));
    made(rt, lines.push(item(rt, alloc, 70), 60));
    lines
}

// The one file.
fn one_file(rt: &impl Abort, alloc: Global) -> ItemsList
    ensures { result ≡ rise_source ∷ [] }
{
    let mut items = ItemsList::new(alloc);
    made(rt, items.push(two_lines(rt, alloc)));
    items
}

// Windows of 60 over the two records.
pub(crate) fn two_line_case(rt: &impl Abort, alloc: Global) -> Case
    ensures { result ≡ rise_case }
{
    let topology = made(rt, Topology::one_count(alloc, 60));
    made(rt, Case::of(alloc, topology, one_file(rt, alloc)))
}
