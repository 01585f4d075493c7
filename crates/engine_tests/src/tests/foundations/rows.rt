//! The row of one key. No helper has a clause, so that no test carries what the
//! calls before have told.
use super::{DoneWith, done, made, name_of};
use mw_types::{Delivery, Duplicate, Key, Record, RecordId, State, Timer};
use row_parts::Row;
use std::alloc::Global;
use std::mem::replace;
use std::process::Abort;

// What is done with a row.
enum Deed {
    // It is one to which nothing has happened yet.
    Begin,
    // A timer of the tag 7 is set for this time, and is late or not.
    Set(u64, bool),
    // The second record of this entry is handled.
    Handle(u64),
    // The row is purged below this entry.
    Purge(u64),
    // The delivery of the first record of entry 2 is added.
    Add,
    // Something is seen of it.
    See(Seen),
}

// What is seen of a row.
enum Seen {
    // The timer of the tag 7 and this time is taken away, and was set or not.
    Take(u64, bool),
    // The delivery of the first record of entry 2 is settled, and was pending or not.
    Settle(bool),
    // This is the first timer, or there is none.
    Least(Option<Timer>),
    // There are so many timers, pending deliveries and handled ids.
    Has(usize, usize, usize),
    // A copy has so many handled ids.
    Copied(usize),
    // This is the floor.
    Floor(u64),
    // This record of this entry is finished or not.
    Finished(u64, u32, bool),
}

// What is done with rows, one deed after another.
static DEEDS: [Deed; 29] = [
    // A timer that is set again is late only where both are.
    Deed::Begin,
    Deed::Set(30, false),
    Deed::Set(20, true),
    Deed::Set(20, true),
    Deed::Set(20, false),
    Deed::Set(20, true),
    Deed::See(Seen::Has(2, 0, 0)),
    Deed::See(Seen::Least(Some(Timer {
        tag: 7,
        time: 20,
        late: false,
    }))),
    Deed::See(Seen::Take(20, true)),
    Deed::See(Seen::Take(20, false)),
    Deed::See(Seen::Take(30, true)),
    Deed::See(Seen::Least(None)),
    // What is below the floor stays finished.
    Deed::Begin,
    Deed::Handle(4),
    Deed::Handle(9),
    Deed::Handle(6),
    Deed::See(Seen::Copied(3)),
    Deed::Purge(6),
    Deed::See(Seen::Has(0, 0, 2)),
    Deed::See(Seen::Floor(6)),
    Deed::See(Seen::Finished(4, 1, true)),
    Deed::See(Seen::Finished(6, 1, true)),
    Deed::See(Seen::Finished(6, 2, false)),
    // A delivery is pending until it is settled once.
    Deed::Begin,
    Deed::Add,
    Deed::See(Seen::Has(0, 1, 0)),
    Deed::See(Seen::Settle(true)),
    Deed::See(Seen::Settle(false)),
    Deed::See(Seen::Has(0, 0, 0)),
];

// The id of the first record of entry 2.
const ID: RecordId = RecordId {
    commit: 2,
    index: 0,
};

// Adds a delivery with that id to a row that has none.
fn add(rt: &impl Abort, alloc: Global, row: &mut Row) {
    if !row.pending.is_empty() {
        return;
    }
    let item = Record {
        key: Key::none(alloc),
        stamp: 5,
        value: -1,
        late: false,
    };
    let delivery = Delivery {
        id: ID,
        to: name_of(rt, alloc, 1, "a"),
        item,
    };
    made(rt, row.add_pending(delivery));
}

// Whether there is what is seen.
fn is_seen(rt: &impl Abort, alloc: Global, row: &mut Row, seen: &Seen) -> bool {
    match seen {
        Seen::Take(time, was_set) => row.take_timer(7, *time) == *was_set,
        Seen::Settle(was_pending) => row.settle(ID) == *was_pending,
        Seen::Least(due) => row.least_timer() == *due,
        Seen::Has(timers, pending, ids) => {
            row.timers.len() == *timers && row.pending.len() == *pending && row.seen.len() == *ids
        }
        Seen::Copied(count) => {
            let copy = made(rt, row.copy(alloc));
            let ids = copy.seen.len();
            drop(copy);
            ids == *count
        }
        Seen::Floor(floor) => row.floor == *floor,
        Seen::Finished(commit, index, is_so) => {
            let id = RecordId {
                commit: *commit,
                index: *index,
            };
            row.is_finished(id) == *is_so
        }
    }
}

impl DoneWith<Row> for Deed {
    // It is done where it can be.
    fn is_done<R: Abort>(&self, rt: &R, alloc: Global, row: &mut Row) -> bool {
        match self {
            Deed::Begin => drop(replace(row, Row::new(alloc, State::Pass { late: 0 }))),
            Deed::Set(time, late) => {
                let (tag, time, late) = (7, *time, *late);
                if time <= 1000 {
                    made(rt, row.set_timer(Timer { tag, time, late }));
                }
            }
            Deed::Handle(commit) => {
                let (commit, index) = (*commit, 1);
                let id = RecordId { commit, index };
                if commit < 100 && !row.is_finished(id) {
                    made(rt, row.note_handled(id));
                }
            }
            Deed::Purge(floor) => {
                if row.floor <= *floor && *floor < 100 {
                    row.purge(*floor);
                }
            }
            Deed::Add => add(rt, alloc, row),
            Deed::See(seen) => return is_seen(rt, alloc, row, seen),
        }
        true
    }
}

#[test]
fn a_row_keeps_its_timers_deliveries_and_ids(rt: HostRuntime) {
    let row = Row::new(rt.alloc(), State::Pass { late: 0 });
    drop(done(&rt, rt.alloc(), row, &DEEDS));
}
