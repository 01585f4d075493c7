//! What no clause says: that ample memory is enough for a copy.
use super::entry_copies::record;
use super::{Holds, all_hold, is_name, made, name_of, text_of};
use mw_types::{
    Bytes, Delivery, Duplicate, Emission, HeldList, HeldTotal, IdList, Name, RecordId, State,
    Timer, TimerList, ValueList, Window, WindowList,
};
use std::alloc::Global;
use std::process::Abort;

// The id of the third record that the second entry made.
const ID: RecordId = RecordId {
    commit: 1,
    index: 2,
};

// Whether a copy is equal to what was copied. It is handed over, so that it is let go here alone.
fn is_copied<T: Duplicate + PartialEq>(rt: &impl Abort, alloc: Global, value: T) -> bool {
    made(rt, value.copy(alloc)) == value
}

// What is copied.
enum What {
    // A text, so many times.
    Text(&'static str, u32),
    Bytes,
    Row,
    Record,
    Delivery,
    Emission,
    Ids,
    Timers,
    Injector,
    Count,
    Spike,
    Pass,
}

static THINGS: [What; 18] = [
    What::Text("t.json", 1),
    What::Text("k", 0),
    What::Text("k", 1),
    What::Text("k", 29),
    What::Text("k", 30),
    What::Text("k", 31),
    What::Text("k", 256),
    What::Bytes,
    What::Row,
    What::Record,
    What::Delivery,
    What::Emission,
    What::Ids,
    What::Timers,
    What::Injector,
    What::Count,
    What::Spike,
    What::Pass,
];

// The state of this kind: a count with one window, or a spike that holds one total and knows another.
fn state(rt: &impl Abort, alloc: Global, what: &What) -> State {
    match what {
        What::Injector => State::Injector { cursor: 3 },
        What::Count => {
            let window = Window { end: 60, count: 2 };
            let windows = WindowList::of(alloc, made(rt, vec![in alloc; window]));
            State::Count {
                late: 1,
                windows: made(rt, windows),
            }
        }
        What::Spike => {
            let total = HeldTotal {
                stamp: 60,
                value: -7,
            };
            let held = HeldList::of(alloc, made(rt, vec![in alloc; total]));
            State::Spike {
                late: 1,
                held: made(rt, held),
                known: ValueList::from_vec(made(rt, vec![in alloc; 5])),
            }
        }
        _ => State::Pass { late: 2 },
    }
}

// A timer that was set, and is late.
const TIMER: Timer = Timer {
    tag: 0,
    time: 60,
    late: true,
};

impl Holds for What {
    // A copy is equal to what was copied. The name of a text is held, too.
    fn holds<R: Abort>(&self, rt: &R, alloc: Global) -> bool {
        match self {
            What::Text(text, times) => {
                let text = text_of(rt, alloc, &[(*text, *times)]);
                let is_held = is_name(made(rt, Name::of(alloc, text.as_str())), text.as_str());
                let name = made(rt, Name::of(alloc, text.as_str()));
                drop(text);
                is_copied(rt, alloc, name) && is_held
            }
            What::Bytes => is_copied(rt, alloc, Bytes::from_vec(made(rt, vec![in alloc; 255]))),
            What::Row => is_copied(rt, alloc, name_of(rt, alloc, 1, "a")),
            What::Record => is_copied(rt, alloc, record(rt, alloc, "a")),
            What::Delivery => {
                let (to, item) = (name_of(rt, alloc, 1, "a"), record(rt, alloc, "a"));
                is_copied(rt, alloc, Delivery { id: ID, to, item })
            }
            What::Emission => {
                let (id, part, item) = (ID, 1, record(rt, alloc, "a"));
                is_copied(rt, alloc, Emission { id, part, item })
            }
            What::Ids => is_copied(rt, alloc, IdList::from_vec(made(rt, vec![in alloc; ID]))),
            What::Timers => {
                is_copied(
                    rt,
                    alloc,
                    TimerList::from_vec(made(rt, vec![in alloc; TIMER])),
                )
            }
            _ => is_copied(rt, alloc, state(rt, alloc, self)),
        }
    }
}

#[test]
fn copies_are_equal(rt: HostRuntime) {
    all_hold(&rt, rt.alloc(), &THINGS);
}
