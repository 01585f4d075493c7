//! What no clause says: that ample memory is enough, keys at their limits, and single calls with what they answer.
use super::{
    DoneWith, Holds, all_hold, are_equal, done, is_name, is_text, key_of, made, name_of, text_of,
};
use json_reading::json_of;
use mw_types::{Key, KeyRefusal, Name, NumberList, RecordId};
use std::alloc::Global;
use std::mem::replace;
use std::process::Abort;
use topology::{By, extract};

/// What is looked at.
pub(super) enum Case {
    /// The length of the key of so many letters.
    Key(u32, Result<usize, KeyRefusal>),
    /// The name of so many letters comes before that of one letter more.
    Longer(u32),
    /// A name that is new has no text.
    NewName,
    /// The key that is none has no text.
    NoKey,
    /// The row of this part and key, which may be none, comes before that of another key in part 1.
    Later(u32, &'static str, &'static str),
    /// An id is before that of a later entry, and as itself.
    LaterId,
    /// An id is printed so.
    Printed(u32, u8, &'static str),
    /// An extractor makes of a key another.
    Extracted(By, &'static str, &'static str),
    /// A text has one JSON value, and it is the number 7 or not.
    Json(&'static [u8], Option<bool>),
}

// Ids of two entries.
const FIRST: RecordId = RecordId {
    commit: 2,
    index: 9,
};

const LATER: RecordId = RecordId {
    commit: 3,
    index: 0,
};

static CASES: [Case; 17] = [
    Case::Key(0, Err(KeyRefusal::BadLength)),
    Case::Key(1, Ok(1)),
    Case::Key(256, Ok(256)),
    Case::Key(257, Err(KeyRefusal::BadLength)),
    Case::Longer(0),
    Case::Longer(1),
    Case::Longer(29),
    Case::Longer(30),
    Case::Longer(31),
    Case::Longer(256),
    Case::NewName,
    Case::NoKey,
    Case::Later(1, "a", "b"),
    Case::Later(0, "", "a"),
    Case::LaterId,
    Case::Printed(11, 0, "00000000-0000-8000-8000-00000000000b"),
    Case::Printed(3, 1, "00000000-0000-8001-8000-000000000003"),
];

// The length of the key of so many letters, where it is one.
fn key_length(rt: &impl Abort, alloc: Global, count: u32) -> Result<usize, KeyRefusal> {
    let text = text_of(rt, alloc, &[("k", count)]);
    let key = Key::of(alloc, text.as_str());
    drop(text);
    let length = match &key {
        Ok(key) => Ok(key.text().len()),
        Err(refusal) => Err(*refusal),
    };
    drop(key);
    length
}

// Whether one comes before another.
fn is_before<T: PartialOrd + Drop>(first: T, later: T) -> bool {
    first < later
}

// The name of so many letters.
fn long_name(rt: &impl Abort, alloc: Global, count: u32) -> Name {
    let text = text_of(rt, alloc, &[("k", count)]);
    let name = made(rt, Name::of(alloc, text.as_str()));
    drop(text);
    name
}

// Whether the name of so many letters is less than that of one letter more, and another.
fn is_less(rt: &impl Abort, alloc: Global, count: u32) -> bool {
    let name = long_name(rt, alloc, count);
    let longer = long_name(rt, alloc, count.saturating_add(1));
    let is_so = name.len() == count as usize && name != longer;
    is_before(name, longer) && is_so
}

impl Holds for Case {
    fn holds<R: Abort>(&self, rt: &R, alloc: Global) -> bool {
        match self {
            Case::Key(count, want) => key_length(rt, alloc, *count) == *want,
            Case::Longer(count) => is_less(rt, alloc, *count),
            Case::NewName => is_name(Name::new(alloc), ""),
            Case::NoKey => is_text(Key::none(alloc), ""),
            Case::Later(part, text, key) => {
                let row = name_of(rt, alloc, *part, text);
                is_before(row, name_of(rt, alloc, 1, key))
            }
            Case::LaterId => FIRST < LATER && FIRST == FIRST,
            Case::Printed(commit, index, text) => {
                let (commit, index) = (u64::from(*commit), u32::from(*index));
                let id = RecordId { commit, index };
                is_name(made(rt, id.uuid(alloc)), text)
            }
            Case::Extracted(by, text, want) => {
                let key = key_of(rt, alloc, text);
                let extracted = made(rt, extract(alloc, *by, &key));
                drop(key);
                is_text(extracted, want)
            }
            Case::Json(bytes, want) => {
                let value = made(rt, json_of(alloc, bytes));
                let seven = match &value {
                    Some(value) => Some(value.as_u64() == Some(7)),
                    None => None,
                };
                drop(value);
                seven == *want
            }
        }
    }
}

#[test]
fn keys_names_rows_and_ids(rt: HostRuntime) {
    all_hold(&rt, rt.alloc(), &CASES);
}

// What is done with a list of numbers.
enum Deed {
    // It is one with these.
    Begin(&'static [u32]),
    // A number is put behind the last.
    Push(u32),
    // The last is taken away.
    Pop(Option<u32>),
    // A number is put at a place.
    Insert(usize, u32),
    // A number is put in the place of another.
    Set(usize, u32),
    // The number at a place is taken away.
    Remove(usize, u32),
    // This number alone is kept.
    Keep(u32),
    // The number at a place, if there is one.
    Get(usize, Option<u32>),
    // These are all.
    Has(&'static [u32]),
}

// What is done with a list, one after another.
static DEEDS: [Deed; 19] = [
    Deed::Has(&[]),
    Deed::Get(0, None),
    Deed::Push(3),
    Deed::Push(1),
    Deed::Has(&[3, 1]),
    Deed::Pop(Some(1)),
    Deed::Pop(Some(3)),
    Deed::Pop(None),
    Deed::Begin(&[3, 1]),
    Deed::Insert(1, 9),
    Deed::Get(1, Some(9)),
    Deed::Has(&[3, 9, 1]),
    Deed::Begin(&[3, 9, 1]),
    Deed::Set(0, 4),
    Deed::Remove(1, 9),
    Deed::Has(&[4, 1]),
    Deed::Keep(4),
    Deed::Has(&[4]),
    Deed::Get(0, Some(4)),
];

impl DoneWith<NumberList> for Deed {
    // Each place is there.
    fn is_done<R: Abort>(&self, rt: &R, alloc: Global, list: &mut NumberList) -> bool {
        match self {
            Deed::Begin(numbers) => {
                let new = NumberList::from_vec(made(rt, numbers.to_vec(alloc)));
                drop(replace(list, new));
            }
            Deed::Push(number) => made(rt, list.push(*number)),
            Deed::Insert(at, number) => {
                if *at <= list.len() {
                    made(rt, list.insert(*at, *number));
                }
            }
            Deed::Set(at, number) => {
                if *at < list.len() {
                    list.set(*at, *number);
                }
            }
            Deed::Keep(number) => list.retain(|it| *it == *number),
            Deed::Pop(number) => return list.pop() == *number,
            Deed::Remove(at, number) => return *at < list.len() && list.remove(*at) == *number,
            Deed::Get(at, number) => return list.get(*at).copied() == *number,
            Deed::Has(numbers) => {
                return are_equal(list.as_slice(), numbers) && list.is_empty() == numbers.is_empty();
            }
        }
        true
    }
}

#[test]
fn lists_keep_their_elements_and_are_edited_in_place(rt: HostRuntime) {
    drop(done(&rt, rt.alloc(), NumberList::new(rt.alloc()), &DEEDS));
}
