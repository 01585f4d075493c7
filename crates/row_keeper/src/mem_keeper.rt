//! A keeper in memory, whose rows a contract can see, and which fails at named calls.
ghost use Rattle.std.specs.Prelude.{◌≡◌, ◌≢◌, ◌≤◌, ◌+◌, ◌++◌, ◌∷◌, [], All, Ok, drop, false, length, map, slice_get, option_map, take, true, IfOk, IsTrue, OnErr, OnOk};
ghost use Rattle.std.specs.Vec.{vec_capacity};
ghost use Rattle.mw_types.specs.Orders.{row_cmp};
ghost use Rattle.row_keeper.specs.Rows.{AreInOrder, HasPlace, IsThere, edited, entry_of, with_edit, with_row};
ghost use Rattle.key_intervals.specs.Intervals.{covers, rows_covered};
ghost use Rattle.row_keeper.specs.Memory.{CountsCall};
ghost use Rattle.row_keeper.specs.declared.keeper.KeptRow.{KeptRow};

use crate::calls::Calls;
use crate::keeper::{Keeper, KeeperFault, KeptRow, KeptRowList};
use key_intervals::Bounds;
use mw_types::{Bytes, CallList, Duplicate, NoMemory, RowName};
use std::alloc::Global;
use std::collections::BTreeMap;
use std::marker::Model;
use std::mem::replace;

// How much more than twice what is needed the memory of a row's bytes may have.
const SLACK: usize = 64;

// Rows by their names, each with its bytes.
type RowMap = BTreeMap<RowName, Bytes>;

/// A keeper that holds its rows in memory.
#[derive(Drop)]
pub struct MemKeeper {
    rows: RowMap,
    calls: Calls,
}

impl Model for MemKeeper {
    ghost use Rattle.row_keeper.specs.Rows.{AreInOrder};
    ghost use Rattle.row_keeper.specs.Memory.{KeeperView};

    ghost Value = { KeeperView };

    ghost view = { λ k. record {
      rows = k.rows.entries;
      failing = k.calls.failing;
      calls = k.calls.count;
      faults = k.calls.faults;
    } };

    ghost invariant = { λ k. AreInOrder k.rows.entries };
}

impl MemKeeper {
    /// A keeper without rows, whose calls of these numbers, from 0, fail.
    pub fn new(alloc: Global, failing: CallList) -> MemKeeper
        ensures { result ≡ record { rows = []; failing = failing; calls = 0; faults = 0 } }
    {
        MemKeeper {
            rows: BTreeMap::new(alloc),
            calls: Calls {
                failing,
                count: 0,
                faults: 0,
            },
        }
    }

    /// The rows that it holds, ascending by name. This is no call that counts.
    pub fn rows(&self, alloc: Global) -> Result<KeptRowList, NoMemory>
        ensures all { IfOk result (λ found. map entry_of found ≡ self.now.rows) }
    {
        let mut found = KeptRowList::new(alloc);
        for (name, bytes) in &self.rows {
            push_copied(alloc, &mut found, name, bytes)?;
        }
        Ok(found)
    }
}

impl Keeper for MemKeeper {
    ghost use Rattle.std.specs.Prelude.{Some};

    ghost rows = { λ k. Some k.rows };

    ghost faults = { λ k. k.faults };

    fn put(&mut self, alloc: Global, name: &RowName, bytes: &[u8]) -> Result<(), KeeperFault>
        ensures held { OnOk result (self.new.rows ≡ with_row name.now bytes.now self.old.rows) }
        ensures unchanged { OnErr result (self.new.rows ≡ self.old.rows) }
        ensures ordered { AreInOrder self.new.rows }
        ensures counts { CountsCall self.old self.new result }
    {
        self.calls.begin()?;
        Ok(keep(alloc, &mut self.rows, name, bytes)?)
    }

    fn edit(
        &mut self,
        alloc: Global,
        name: &RowName,
        head: &[u8],
        at: usize,
        gone: usize,
        put: &[u8],
    ) -> Result<bool, KeeperFault>
        ensures edited { result ≡ Ok true →
            self.new.rows ≡ with_edit name.now head.now at gone put.now self.old.rows }
        ensures there { result ≡ Ok true → IsThere name.now self.old.rows }
        ensures whole { result ≡ Ok false → self.new ≡ self.old }
        ensures unchanged { OnErr result (self.new.rows ≡ self.old.rows) }
        ensures ordered { AreInOrder self.new.rows }
        ensures counts { result ≢ Ok false → CountsCall self.old self.new result }
    {
        if !has_place(&self.rows, name, head.len(), at, gone) {
            return Ok(false);
        }
        self.calls.begin()?;
        edit_row(alloc, &mut self.rows, name, head, at, gone, put)?;
        Ok(true)
    }

    #[tactic(auto, using(crate::proofs::Answered::found_covered, crate::proofs::Answered::found_ascending))]
    fn scan(&mut self, alloc: Global, bounds: &Bounds) -> Result<KeptRowList, KeeperFault>
        ensures within { IfOk result (λ found.
            map entry_of found ≡ rows_covered bounds.now self.old.rows) }
        ensures covered { IfOk result (All (λ (row : KeptRow). covers bounds.now row.name ≡ true)) }
        ensures ascending { IfOk result (λ found. AreInOrder (map entry_of found)) }
        ensures unchanged { self.new.rows ≡ self.old.rows }
        ensures ordered { AreInOrder self.new.rows }
        ensures counts { CountsCall self.old self.new result }
    {
        self.calls.begin()?;
        Ok(found_within(alloc, &self.rows, bounds)?)
    }

    fn first(&mut self, alloc: Global) -> Result<Option<KeptRow>, KeeperFault>
        ensures least { IfOk result (λ found.
            option_map entry_of found ≡ slice_get self.old.rows 0) }
        ensures unchanged { self.new.rows ≡ self.old.rows }
        ensures ordered { AreInOrder self.new.rows }
        ensures counts { CountsCall self.old self.new result }
    {
        self.calls.begin()?;
        Ok(found_first(alloc, &self.rows)?)
    }
}

// A row that is held, again.
fn copied(alloc: Global, name: &RowName, bytes: &Bytes) -> Result<KeptRow, NoMemory>
    ensures { IfOk result (λ row. entry_of row ≡ (name.now, bytes.now)) }
{
    Ok(KeptRow {
        name: name.copy(alloc)?,
        bytes: list_of(alloc, bytes.as_slice())?,
    })
}

// Appends a row that is held, again.
fn push_copied(
    alloc: Global,
    found: &mut KeptRowList,
    name: &RowName,
    bytes: &Bytes,
) -> Result<(), NoMemory>
    ensures { OnOk result (map entry_of found.new
        ≡ map entry_of found.old ++ (name.now, bytes.now) ∷ []) }
{
    found.push(copied(alloc, name, bytes)?)
}

// Holds these bytes under this name, in the place of those that are held under it.
fn keep(alloc: Global, rows: &mut RowMap, name: &RowName, bytes: &[u8]) -> Result<(), NoMemory>
    ensures held { OnOk result (rows.new.entries ≡ with_row name.now bytes.now rows.old.entries) }
    ensures unchanged { OnErr result (rows.new.entries ≡ rows.old.entries) }
    ensures ordered { AreInOrder rows.old.entries → AreInOrder rows.new.entries }
{
    if let Some(held) = rows.get_mut(name) {
        return put_over(alloc, held, bytes);
    }
    hold(alloc, rows, name, bytes)
}

// Holds these bytes under a name that is new.
fn hold(alloc: Global, rows: &mut RowMap, name: &RowName, bytes: &[u8]) -> Result<(), NoMemory>
    ensures held { OnOk result (rows.new.entries ≡ with_row name.now bytes.now rows.old.entries) }
    ensures unchanged { OnErr result (rows.new.entries ≡ rows.old.entries) }
    ensures ordered { AreInOrder rows.old.entries → AreInOrder rows.new.entries }
{
    let own_bytes = list_of(alloc, bytes)?;
    let own_name = name.copy(alloc)?;
    rows.insert(own_name, own_bytes)?;
    Ok(())
}

// Whether the row of this name has so many bytes at its front, and so many from a place behind on.
fn has_place(rows: &RowMap, name: &RowName, front: usize, at: usize, gone: usize) -> bool
    ensures { IsTrue result → HasPlace name.now front at gone rows.now.entries }
{
    match rows.get(name) {
        Some(held) => front <= at && at <= held.len() && gone <= held.len() - at,
        None => false,
    }
}

// Edits the bytes of the row of this name, which has the place.
fn edit_row(
    alloc: Global,
    rows: &mut RowMap,
    name: &RowName,
    head: &[u8],
    at: usize,
    gone: usize,
    put: &[u8],
) -> Result<(), NoMemory>
    requires { HasPlace name.now (length head.now) at gone rows.old.entries }
    ensures edited { OnOk result
        (rows.new.entries ≡ with_edit name.now head.now at gone put.now rows.old.entries) }
    ensures unchanged { OnErr result (rows.new.entries ≡ rows.old.entries) }
    ensures ordered { AreInOrder rows.old.entries → AreInOrder rows.new.entries }
{
    match rows.get_mut(name) {
        Some(held) => edit_held(alloc, held, head, at, gone, put),
        None => Ok(()),
    }
}

// Edits bytes that are held, which stay where memory runs out.
fn edit_held(
    alloc: Global,
    held: &mut Bytes,
    head: &[u8],
    at: usize,
    gone: usize,
    put: &[u8],
) -> Result<(), NoMemory>
    requires head { length head.now ≤ at }
    requires within { at + gone ≤ length held.old }
    ensures edited { OnOk result (held.new ≡ edited head.now at gone put.now held.old) }
    ensures unchanged { OnErr result (held.new ≡ held.old) }
{
    let mut list = replace(held, Bytes::new(alloc)).into_vec();
    let done = edit_list(&mut list, head, at, gone, put);
    *held = Bytes::from_vec(list);
    done
}

// Edits a list of bytes, which stays where memory runs out.
fn edit_list(
    list: &mut Vec<u8>,
    head: &[u8],
    at: usize,
    gone: usize,
    put: &[u8],
) -> Result<(), NoMemory>
    requires head { length head.now ≤ at }
    requires within { at + gone ≤ length list.old.items }
    ensures edited { OnOk result
        (list.new.items ≡ edited head.now at gone put.now list.old.items) }
    ensures unchanged { OnErr result (list.new.items ≡ list.old.items) }
{
    put_in(list, at, put)?;
    cut_out(list, at + put.len(), gone);
    set_front(list.as_mut_slice(), head);
    Ok(())
}

// Sets as many bytes at the front.
fn set_front(bytes: &mut [u8], head: &[u8])
    requires { length head.now ≤ length bytes.old }
    ensures set { bytes.new ≡ head.now ++ drop (length head.now) bytes.old }
    ensures len { length bytes.new ≡ length bytes.old }
{
    bytes[..head.len()].copy_from_slice(head);
}

// Puts these bytes in at a place; those from there on move up.
fn put_in(list: &mut Vec<u8>, at: usize, put: &[u8]) -> Result<(), NoMemory>
    requires { at ≤ length list.old.items }
    ensures put { OnOk result
        (list.new.items ≡ take at list.old.items ++ (put.now ++ drop at list.old.items)) }
    ensures unchanged { OnErr result (list.new.items ≡ list.old.items) }
{
    make_room(list, list.len().saturating_add(put.len()))?;
    list.extend_from_slice(put)?;
    list[at..].rotate_right(put.len());
    Ok(())
}

// Cuts so many bytes out from a place on; those behind move down.
fn cut_out(list: &mut Vec<u8>, at: usize, gone: usize)
    requires { at + gone ≤ length list.old.items }
    ensures { list.new.items ≡ take at list.old.items ++ drop (at + gone) list.old.items }
{
    list[at..].rotate_left(gone);
    list.truncate(list.len() - gone);
}

// Puts these bytes in the place of those that are held, which stay where memory runs out.
fn put_over(alloc: Global, held: &mut Bytes, bytes: &[u8]) -> Result<(), NoMemory>
    ensures put { OnOk result (held.new ≡ bytes.now) }
    ensures unchanged { OnErr result (held.new ≡ held.old) }
{
    let mut list = replace(held, Bytes::new(alloc)).into_vec();
    let done = overwrite(alloc, &mut list, bytes);
    *held = Bytes::from_vec(list);
    done
}

// Has room for these bytes before it lets the old ones go, and never for much more than twice as many.
fn overwrite(alloc: Global, list: &mut Vec<u8>, bytes: &[u8]) -> Result<(), NoMemory>
    ensures put { OnOk result (list.new.items ≡ bytes.now) }
    ensures unchanged { OnErr result (list.new.items ≡ list.old.items) }
{
    if list.capacity() / 2 > bytes.len() + SLACK {
        *list = list_of(alloc, bytes)?.into_vec();
        return Ok(());
    }
    make_room(list, bytes.len())?;
    list.clear();
    list.extend_from_slice(bytes)?;
    Ok(())
}

// Makes room for so many bytes: where it has to take memory an eighth more, so that a row that grows takes
// some seldom.
fn make_room(list: &mut Vec<u8>, bytes: usize) -> Result<(), NoMemory>
    ensures unchanged { list.new.items ≡ list.old.items }
    ensures room { OnOk result (bytes ≤ vec_capacity list.new) }
{
    if list.capacity() < bytes {
        let room = bytes.saturating_add(bytes / 8);
        list.reserve_exact(room.saturating_sub(list.len()))?;
    }
    Ok(())
}

// These bytes as a list of their own.
fn list_of(alloc: Global, bytes: &[u8]) -> Result<Bytes, NoMemory>
    ensures { IfOk result (λ list. list ≡ bytes.now) }
{
    let mut list = Vec::with_capacity(alloc, bytes.len())?;
    list.extend_from_slice(bytes)?;
    Ok(Bytes::from_vec(list))
}

// The rows of the interval: those from where it begins, as long as it has them.
fn found_within(alloc: Global, rows: &RowMap, bounds: &Bounds) -> Result<KeptRowList, NoMemory>
    ensures { IfOk result (λ found. map entry_of found ≡ rows_covered bounds.now rows.now.entries) }
{
    let start = RowName {
        part: bounds.part,
        key: bounds.from.copy(alloc)?,
    };
    let mut found = KeptRowList::new(alloc);
    for (name, bytes) in rows.range(&start..) {
        if !bounds.covers(name) {
            return Ok(found);
        }
        push_copied(alloc, &mut found, name, bytes)?;
    }
    Ok(found)
}

// The row with the least name.
fn found_first(alloc: Global, rows: &RowMap) -> Result<Option<KeptRow>, NoMemory>
    ensures { IfOk result (λ found. option_map entry_of found ≡ slice_get rows.now.entries 0) }
{
    match rows.first_key_value() {
        Some((name, bytes)) => Ok(Some(copied(alloc, name, bytes)?)),
        None => Ok(None),
    }
}
