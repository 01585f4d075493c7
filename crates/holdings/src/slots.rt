//! Rows by their names, each at a place of its own.
ghost use Rattle.std.specs.Prelude.{◌≡◌, ◌++◌, ◌<◌, All, [], IfSome, IsSome, IsTrue, None, Some, OnErr, OnOk, fold, length, map, option_copied, vec_capacity, vec_len};
ghost use Rattle.std.specs.Borrow.{sem};
ghost use Rattle.std.specs.List.{flat_map};
ghost use Rattle.std.specs.List.Sorted.{IsStrictlySortedBy};
ghost use Rattle.std.specs.Map.{keys_of, lookup};
ghost use Rattle.std.specs.BTreeMap.{insert_entry, is_at};
ghost use Rattle.mw_types.specs.Orders.{row_cmp};
ghost use Rattle.holdings.specs.Slots.{AreSlots, AreWithin, IsPlaceOf, placed, row_at};
ghost use Rattle.holdings.specs.Lending.{LendsSlot};
ghost use Rattle.holdings.specs.Firsts.{earlier};
ghost use Rattle.holdings.specs.Indexes.{HasStamped};
ghost use Rattle.holdings.specs.Pendings.{sent_in};
ghost use Rattle.holdings.specs.Purges.{by_name, forgets, seen_name};
ghost use Rattle.holdings.specs.Dues.{due_of, due_order};
ghost use Rattle.holdings.specs.Keyed.{HasKeyed};
ghost use Rattle.holdings.specs.Seens.{seen_of};

use crate::index::Index;
use crate::pending::{SentList, push_row};
use crate::to_purge::earlier_name;
use book::NamedRow;
use mw_types::{Duplicate, NoMemory, RowName};
use row_parts::Row;
use std::alloc::Global;
use std::cell::Cell;
use std::collections::BTreeMap;
use std::marker::Model;

// The place of each name.
type Places = BTreeMap<RowName, usize>;

// Rows in the order in which they came, and the place of each name. The place that was found last is
// tried first, since a worker asks for one row several times in a row.
#[derive(Drop)]
pub(crate) struct Slots {
    rows: Vec<NamedRow>,
    places: Places,
    last: Cell<usize>,
}

impl Model for Slots {
    ghost use Rattle.std.specs.Prelude.{List};
    ghost use Rattle.mw_types.specs.declared.identity.RowName.{RowName};
    ghost use Rattle.row_parts.specs.Contents.{Contents};
    ghost use Rattle.holdings.specs.Slots.{AreSlots, placed};

    ghost Value = { List (RowName × Contents) };

    ghost view = { λ slots. placed slots.rows.items slots.places.entries };

    ghost invariant = { λ slots. AreSlots slots.rows.items slots.places.entries };
}

impl Slots {
    // No rows, which take no memory.
    pub(crate) fn new(alloc: Global) -> Slots
        ensures empty { result ≡ [] }
        ensures ordered { IsStrictlySortedBy row_cmp (keys_of result) }
    {
        Slots {
            rows: Vec::new(alloc),
            places: BTreeMap::new(alloc),
            last: Cell::new(0),
        }
    }

    // The row that was found last, if it has this name.
    pub(crate) fn tried(&self, name: &RowName) -> Option<&Row>
        ensures { IfSome result (λ row. lookup (is_at (row_cmp name.now)) self.now ≡ Some row.now) }
    {
        let at = self.last.get();
        if is_at_place(&self.rows, at, name) {
            return Some(row_in(&self.rows, at));
        }
        None
    }

    // The row of this name, or none where none is there.
    pub(crate) fn get(&self, name: &RowName) -> Option<&Row>
        ensures { option_copied result ≡ lookup (is_at (row_cmp name.now)) self.now }
    {
        match place_in(&self.rows, &self.places, &self.last, name) {
            Some(at) => Some(row_in(&self.rows, at)),
            None => None,
        }
    }

    // Puts a row that is not there yet.
    pub(crate) fn add(&mut self, alloc: Global, name: RowName, row: Row) -> Result<(), NoMemory>
        requires new { lookup (is_at (row_cmp name)) self.old ≡ None }
        ensures entries { OnOk result (self.new ≡ insert_entry row_cmp self.old name row) }
        ensures unchanged { OnErr result (self.new ≡ self.old) }
    {
        let at = count(&self.rows);
        match add_place(alloc, &mut self.rows, &mut self.places, &name, at) {
            Ok(()) => {
                self.rows.push_reserved(NamedRow { name, row });
                self.last.set(at);
                Ok(())
            }
            Err(want) => {
                drop(name);
                drop(row);
                Err(want)
            }
        }
    }

    // The row of this name, which is there, to be changed where it lies.
    pub(crate) fn row_mut(&mut self, name: &RowName) -> &mut Row
        requires there { IsSome (lookup (is_at (row_cmp name.now)) self.old) }
        ensures* lends { sem 𝓛 (LendsSlot self.entry name.now result) }
        ensures row { lookup (is_at (row_cmp name.now)) self.old ≡ Some result.now }
    {
        let at = place_in(&self.rows, &self.places, &self.last, name).unwrap();
        let place = &mut self.rows[at];
        &mut place.row
    }
}

// Makes room for one more row, and puts its place under its name.
fn add_place(
    alloc: Global,
    rows: &mut Vec<NamedRow>,
    places: &mut Places,
    name: &RowName,
    at: usize,
) -> Result<(), NoMemory>
    ensures rows { rows.new.items ≡ rows.old.items }
    ensures room { OnOk result (vec_len rows.new < vec_capacity rows.new) }
    ensures places { OnOk result
        (places.new.entries ≡ insert_entry row_cmp places.old.entries name.now at) }
    ensures same { OnErr result (places.new.entries ≡ places.old.entries) }
{
    rows.reserve(1)?;
    put_place(alloc, places, name, at)
}

// Puts the place of a name.
fn put_place(alloc: Global, places: &mut Places, name: &RowName, at: usize) -> Result<(), NoMemory>
    ensures places { OnOk result
        (places.new.entries ≡ insert_entry row_cmp places.old.entries name.now at) }
    ensures same { OnErr result (places.new.entries ≡ places.old.entries) }
{
    let key = name.copy(alloc)?;
    places.insert(key, at)?;
    Ok(())
}

// How many rows there are.
fn count(rows: &[NamedRow]) -> usize
    ensures { result ≡ length rows.now }
{
    rows.len()
}

// The place of a name, if it has one.
fn place_in(rows: &[NamedRow], places: &Places, last: &Cell<usize>, name: &RowName) -> Option<usize>
    requires slots { AreSlots rows.now places.now.entries }
    ensures place { result ≡ lookup (is_at (row_cmp name.now)) places.now.entries }
{
    let tried = last.get();
    if is_at_place(rows, tried, name) {
        return Some(tried);
    }
    let found = places.get(name).copied();
    if let Some(at) = found {
        last.set(at);
    }
    found
}

// Whether a row of this name lies at a place.
fn is_at_place(rows: &[NamedRow], at: usize, name: &RowName) -> bool
    ensures { IsTrue result → IsPlaceOf rows.now name.now at }
{
    match rows.get(at) {
        Some(row) => row.name == *name,
        None => false,
    }
}

// The row at a place.
fn row_in(rows: &[NamedRow], at: usize) -> &Row
    requires { at < length rows.now }
    ensures { result.now ≡ row_at rows.now at }
{
    &rows[at].row
}

// Keeps what there is of the rows.
pub(crate) fn index_beside(alloc: Global, index: &mut Index, slots: &Slots) -> Result<(), NoMemory>
    requires ordered { IsStrictlySortedBy due_order (keys_of index.old.dues.entries) }
    requires ascending { IsStrictlySortedBy row_cmp (keys_of index.old.seen.entries) }
    ensures work { OnOk result (HasStamped slots.now index.old.work index.new.work) }
    ensures dues { OnOk result (HasKeyed due_order due_of slots.now
        index.old.dues.entries index.new.dues.entries) }
    ensures seen { OnOk result (HasKeyed row_cmp seen_of slots.now
        index.old.seen.entries index.new.seen.entries) }
{
    index_places(alloc, index, &slots.rows, &slots.places)
}

// Keeps what there is of the rows at the places of names.
fn index_places(
    alloc: Global,
    index: &mut Index,
    rows: &[NamedRow],
    places: &Places,
) -> Result<(), NoMemory>
    requires within { AreWithin rows.now places.now.entries }
    requires ordered { IsStrictlySortedBy due_order (keys_of index.old.dues.entries) }
    requires ascending { IsStrictlySortedBy row_cmp (keys_of index.old.seen.entries) }
    ensures work { OnOk result (HasStamped (placed rows.now places.now.entries)
        index.old.work index.new.work) }
    ensures dues { OnOk result (HasKeyed due_order due_of (placed rows.now places.now.entries)
        index.old.dues.entries index.new.dues.entries) }
    ensures seen { OnOk result (HasKeyed row_cmp seen_of (placed rows.now places.now.entries)
        index.old.seen.entries index.new.seen.entries) }
{
    for (name, at) in places {
        index.add(alloc, name, row_in(rows, *at))?;
    }
    Ok(())
}

// Appends what is pending in the rows.
pub(crate) fn push_beside(alloc: Global, sent: &mut SentList, slots: &Slots) -> Result<(), NoMemory>
    ensures { OnOk result (sent.new ≡ sent.old ++ flat_map sent_in slots.now) }
{
    push_places(alloc, sent, &slots.rows, &slots.places)
}

// Appends what is pending in the rows at the places of names.
fn push_places(
    alloc: Global,
    sent: &mut SentList,
    rows: &[NamedRow],
    places: &Places,
) -> Result<(), NoMemory>
    requires within { AreWithin rows.now places.now.entries }
    ensures { OnOk result
        (sent.new ≡ sent.old ++ flat_map sent_in (placed rows.now places.now.entries)) }
{
    for (name, at) in places {
        push_row(alloc, sent, name, row_in(rows, *at))?;
    }
    Ok(())
}

// The earlier of a name and that of the first row that may forget ids.
pub(crate) fn purge_beside<'a>(
    slots: &'a Slots,
    first: Option<&'a RowName>,
    floor: u64,
    least: u64,
) -> Option<&'a RowName>
    ensures { seen_name result
        ≡ fold (earlier (forgets floor least) by_name) (seen_name first.entry) slots.now }
{
    purge_places(&slots.rows, &slots.places, first, floor, least)
}

// The earlier of a name and that of the first row at the places of names that may forget ids.
fn purge_places<'a>(
    rows: &'a [NamedRow],
    places: &'a Places,
    first: Option<&'a RowName>,
    floor: u64,
    least: u64,
) -> Option<&'a RowName>
    requires within { AreWithin rows.now places.now.entries }
    ensures { seen_name result ≡ fold (earlier (forgets floor least) by_name)
        (seen_name first.entry) (placed rows.now places.now.entries) }
{
    let mut best = first;
    for (name, at) in places {
        best = earlier_name(best, name, row_in(rows, *at), floor, least);
    }
    best
}
