//! The example of two lines: what is handed to the calls that work off the first.
ghost use Rattle.std.specs.Prelude.{◌≡◌, ◌∷◌, []};
ghost use Rattle.mw_types.specs.Bounds.{IsWithin};
ghost use Rattle.mw_types.specs.declared.state.State.TheVariants.{Count};
ghost use Rattle.worked_examples.specs.First.{closes, counts, end_of, row_a, window};
ghost use Rattle.book.specs.declared.proposal.Proposal.TheVariants as proposals;
ghost use Rattle.worked_examples.specs.Rising.{sent_delivery};
ghost use Rattle.engine_tests.specs.TestBooks.{first_lease};

use super::hands::Hands;
use crate::tests::made;
use crate::tests::two_lines::key_a;
use book::{Lease, Proposal};
use mw_types::{
    Delivery, Effects, Key, Production, ProductionList, Record, RecordId, RowName, State, Timer,
    TimerList, Window, WindowList,
};
use std::alloc::Global;
use std::process::Abort;

// The name of the row of the key a.
pub(crate) fn row_a(rt: &impl Abort, alloc: Global) -> RowName
    ensures { result ≡ row_a }
{
    RowName {
        part: 1,
        key: key_a(rt, alloc),
    }
}

// A count without open windows.
pub(crate) fn none_open(alloc: Global) -> State
    ensures none { result ≡ Count 0 [] }
    ensures within { IsWithin result }
{
    State::Count {
        late: 0,
        windows: WindowList::new(alloc),
    }
}

// A count with the window to 60 open, which has one record.
fn one_open(rt: &impl Abort, alloc: Global) -> State
    ensures one { result ≡ Count 0 (window 60 1 ∷ []) }
    ensures within { IsWithin result }
{
    let mut windows = WindowList::new(alloc);
    made(rt, windows.push(Window { end: 60, count: 1 }));
    State::Count { late: 0, windows }
}

// What the record at 10 leaves: the window is open, and its timer is set.
pub(crate) fn counts(rt: &impl Abort, alloc: Global) -> Effects
    ensures { result ≡ counts (window 60 1 ∷ []) 60 }
{
    let mut timers = TimerList::new(alloc);
    let timer = Timer {
        tag: 0,
        time: 60,
        late: false,
    };
    made(rt, timers.push(timer));
    Effects {
        state: one_open(rt, alloc),
        timers,
        productions: ProductionList::new(alloc),
    }
}

// What the timer of the window leaves, and what is produced of the window.
fn closes(rt: &impl Abort, alloc: Global) -> Effects
    ensures { result ≡ closes [] 60 1 }
{
    let mut productions = ProductionList::new(alloc);
    let count = Production {
        key: key_a(rt, alloc),
        stamp: 60,
        value: 1,
    };
    made(rt, productions.push(count));
    Effects {
        state: none_open(alloc),
        timers: TimerList::new(alloc),
        productions,
    }
}

// That the delivery of the first line, whose record is at 10, was handled.
fn handling(rt: &impl Abort, alloc: Global) -> Proposal
    ensures { result ≡ proposals.Handle sent_delivery (counts (window 60 1 ∷ []) 60) }
{
    let delivery = Delivery {
        id: RecordId {
            commit: 2,
            index: 0,
        },
        to: row_a(rt, alloc),
        item: Record {
            key: key_a(rt, alloc),
            stamp: 10,
            value: 1,
            late: false,
        },
    };
    Proposal::Handle {
        delivery,
        effects: counts(rt, alloc),
    }
}

// That the timer of the window fired.
fn firing(rt: &impl Abort, alloc: Global) -> Proposal
    ensures { result ≡ proposals.Fire (end_of 60) 60 (closes [] 60 1) }
{
    Proposal::Fire {
        timer: Timer {
            tag: 0,
            time: 60,
            late: false,
        },
        mark: 60,
        effects: closes(rt, alloc),
    }
}

// What one has in hand with these leases.
pub(crate) fn hands(rt: &impl Abort, alloc: Global, source: Lease, count: Lease) -> Hands
    requires source { source ≡ first_lease 0 }
    requires count { count ≡ first_lease 1 }
{
    Hands {
        source,
        count,
        injector: RowName {
            part: 0,
            key: Key::none(alloc),
        },
        a: row_a(rt, alloc),
        injecting: Proposal::Inject { line: 0 },
        handling: handling(rt, alloc),
        firing: firing(rt, alloc),
    }
}
