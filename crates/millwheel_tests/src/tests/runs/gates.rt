//! A gate that holds workers, so that two have to run beside each other.
use super::Files;
use crate::tests::calls::{SOLO, keeper, sink};
use crate::tests::looks::Look;
use crate::tests::must_hold;
use crate::tests::threads::{seen, seen_at};
use crate::tests::topologies::CUTS;
use mw_ports::{Gate, Point};
use std::alloc::Global;
use std::process::Abort;
use std::sync::Wait;
use std::sync::atomic::{AtomicU64, Ordering};
use std::thread;
use std::thread::Threads;

// The files of the held run.
const FILES: Files<'static> = (CUTS, b"", 60);

// Worker 0 has ended its first turn.
const ENDED: u64 = 1;

// Worker 2 has committed a work.
const COMMITTED: u64 = 2;

// Worker 1 has come to its first commit.
const CAME: u64 = 4;

// Which of these has happened, which holds were begun, and whether one of them ran out.
#[derive(Drop)]
struct Held {
    happened: AtomicU64,
    begun: AtomicU64,
    expired: AtomicU64,
}

impl Held {
    // Says that something has happened.
    fn tell(&self, what: u64) {
        let _before = self.happened.fetch_or(what, Ordering::SeqCst);
    }

    // Whether the hold of this bit was not begun before.
    fn is_first(&self, hold: u64) -> bool {
        self.begun.fetch_or(hold, Ordering::SeqCst) & hold == 0
    }

    // Holds until this has happened, or for so many turns of a loop.
    fn hold(&self, what: u64) {
        for _ in 0..100_000_000u32 {
            if self.happened.load(Ordering::SeqCst) & what != 0 {
                return;
            }
            thread::yield_now();
        }
        self.expired.store(1, Ordering::SeqCst);
    }

    // Where a worker begins its turn.
    fn begin(&self, worker: u32) {
        if worker == 1 && self.is_first(1) {
            self.hold(ENDED);
        } else if worker == 2 && self.is_first(2) {
            self.hold(ENDED);
        } else if worker == 3 && self.is_first(4) {
            self.hold(ENDED);
            self.hold(COMMITTED);
        }
    }
}

impl Gate for Held {
    fn at(&self, worker: u32, point: Point) {
        match point {
            Point::Begin => self.begin(worker),
            Point::BeforeCommit => {
                if worker == 1 && self.is_first(8) {
                    self.tell(CAME);
                    self.hold(COMMITTED);
                }
            }
            Point::AfterCommit => {
                if worker == 2 {
                    self.tell(COMMITTED);
                }
            }
            Point::End => {
                if worker == 2 && self.is_first(16) {
                    self.hold(CAME);
                } else if worker == 0 {
                    self.tell(ENDED);
                }
            }
        }
    }
}

// Whether the held run ends with Ok and the text of one thread, and each hold was begun, and ended by what it waited for.
fn ends_by_its_events<R: Threads + Wait + Abort + Sync>(rt: &R, alloc: Global) -> bool {
    let gate = Held {
        happened: AtomicU64::new(0),
        begun: AtomicU64::new(0),
        expired: AtomicU64::new(0),
    };
    let mut out = sink(alloc);
    let line = "run --workers 4 --rounds 8 t.json e";
    let keeper = keeper(rt, alloc, &[]);
    let is_ok = seen_at(rt, alloc, line, FILES, keeper, &mut out, &gate, Look::Ends);
    let has_expired = gate.expired.load(Ordering::SeqCst) != 0;
    let is_met = gate.begun.load(Ordering::SeqCst) == 31 && !has_expired;
    let look = Look::WritesBytes(out.text());
    let is_same = seen(rt, alloc, SOLO, FILES, &[], look);
    drop(out);
    is_ok && is_met && is_same
}

// Worker 1 holds where its first work is prepared until worker 2 has committed one, and worker 2 may not end its
// turn before that: on one thread a hold would run out.
#[test]
fn two_workers_run_side_by_side(rt: HostRuntime) {
    must_hold(&rt, ends_by_its_events(&rt, rt.alloc()), "the held run");
}
