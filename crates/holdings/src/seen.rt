//! The names of the rows that have seen ids.
ghost use Rattle.std.specs.Prelude.{◌≡◌, IfOk, None, OnOk, Some, length, nat_lt, option_copied};
ghost use Rattle.std.specs.Option.{is_some, option_and_then};
ghost use Rattle.std.specs.List.Sorted.{IsStrictlySortedBy};
ghost use Rattle.std.specs.Map.{keys_of};
ghost use Rattle.mw_types.specs.Orders.{row_cmp};
ghost use Rattle.holdings.specs.Keyed.{HasRekeyed, IsThere};
ghost use Rattle.holdings.specs.Purges.{IsFirstToPurge, forgets};
ghost use Rattle.holdings.specs.Seens.{AreSeen, name_if, seen_of};

use crate::cache::Cache;
use mw_types::{Duplicate, NoMemory, RowName};
use row_parts::Row;
use std::alloc::Global;
use std::collections::BTreeMap;

// Names of rows, in their order.
pub(crate) type Names = BTreeMap<RowName, ()>;

// The name of a row that was put, where its row has seen ids and had not, or the other way round.
pub(crate) fn set_seen(
    alloc: Global,
    names: &mut Names,
    name: &RowName,
    before: bool,
    after: bool,
) -> Result<(), NoMemory>
    requires ordered { IsStrictlySortedBy row_cmp (keys_of names.old.entries) }
    requires there { IsThere row_cmp (name_if before name.now) names.old.entries }
    ensures set { OnOk result (HasRekeyed row_cmp (name_if before name.now)
        (name_if after name.now) names.old.entries names.new.entries) }
{
    match (before, after) {
        (false, true) => add_name(alloc, names, name),
        (true, false) => {
            drop_seen(names, name);
            Ok(())
        }
        _ => Ok(()),
    }
}

// A name is gone, if it was there.
fn drop_seen(names: &mut Names, name: &RowName)
    requires ordered { IsStrictlySortedBy row_cmp (keys_of names.old.entries) }
    ensures gone { HasRekeyed row_cmp (Some name.now) None names.old.entries names.new.entries }
{
    names.remove(name);
}

// The name of one more row, if it has seen ids.
pub(crate) fn add_seen(
    alloc: Global,
    names: &mut Names,
    name: &RowName,
    row: &Row,
) -> Result<(), NoMemory>
    requires ordered { IsStrictlySortedBy row_cmp (keys_of names.old.entries) }
    ensures added { OnOk result (HasRekeyed row_cmp None (seen_of name.now row.now)
        names.old.entries names.new.entries) }
{
    if has_seen(row) {
        add_name(alloc, names, name)
    } else {
        Ok(())
    }
}

// Whether a row has seen ids.
pub(crate) fn has_seen(row: &Row) -> bool
    ensures { result ≡ nat_lt 0 (length row.now.seen) }
{
    0 < row.seen.len()
}

// One more name.
fn add_name(alloc: Global, names: &mut Names, name: &RowName) -> Result<(), NoMemory>
    requires ordered { IsStrictlySortedBy row_cmp (keys_of names.old.entries) }
    ensures added { OnOk result (HasRekeyed row_cmp None (Some name.now)
        names.old.entries names.new.entries) }
{
    let own = name.copy(alloc)?;
    names.insert(own, ())?;
    Ok(())
}

// The name of the first row that may forget ids, or none where none may.
pub(crate) fn first_seen<'a>(
    names: &'a Names,
    rows: &Cache,
    floor: u64,
    least: u64,
) -> Option<&'a RowName>
    requires { AreSeen rows.now names.now.entries }
    ensures { IsFirstToPurge floor least rows.now (option_copied result) }
{
    for (name, _) in names {
        if may_forget(rows.get(name), floor, least) {
            return Some(name);
        }
    }
    None
}

// Whether there is a row, and it may forget ids.
fn may_forget(row: Option<&Row>, floor: u64, least: u64) -> bool
    ensures { result ≡ is_some (option_and_then (forgets floor least) (option_copied row.entry)) }
{
    match row {
        Some(row) => row.floor < floor && least.max(1) <= row.seen.len() as u64,
        None => false,
    }
}
