//! One worker.
ghost use Rattle.std.specs.Prelude.{◌≡◌, ◌<◌, ◌↔◌, [], Option, IsSome, IsTrue, None};
ghost use Rattle.run_history.specs.Cases.{CaseShape};
ghost use Rattle.book.specs.Desks.{DeskView};
ghost use Rattle.holdings.specs.Holding.{held_at};
ghost use Rattle.node.specs.Fits.{Fits};
ghost use Rattle.node.specs.Workers.{idle, worker_at};

use crate::outcome::Outcome;
use crate::work::{Work, unprepared};
use book::Seen;
use holdings::Holdings;
use outbox::Outbox;
use std::alloc::Global;
use std::marker::{Model, PhantomData};

/// One worker.
///
/// Each call with a desk asks that the worker fits the desk, and leaves one that does. A call that
/// fails leaves the worker's leases, what it has prepared and what it has to send as they were.
/// Memory may run out in each call that can fail, whatever is said of its answers.
#[derive(Drop)]
pub struct Node<N: Seen> {
    pub(crate) number: u32,
    pub(crate) held: Holdings,
    pub(crate) prepared: Option<Work>,
    pub(crate) outbox: Outbox,
    // Behind the entries whose deliveries were pending at its last sweep of what is older.
    pub(crate) swept: u64,
    of: PhantomData<N>,
}

impl<N: Seen> Model for Node<N> {
    ghost use Rattle.std.specs.Prelude.{◌<◌};
    ghost use Rattle.node.specs.Workers.{NodeView};

    ghost Value = { NodeView };

    ghost view = { λ n. record {
      number = n.number;
      held = n.held;
      prepared = n.prepared;
      outbox = n.outbox.messages;
    } };

    ghost invariant = { λ n. n.number < 16 };
}

impl<N: Seen> Node<N> {
    /// The worker of this number, which has nothing. It takes no memory.
    pub fn new(alloc: Global, worker: u32) -> Node<N>
        requires number { worker < 16 }
        ensures number { result.number ≡ worker }
        ensures idle { worker_at result ≡ idle }
        ensures fits { (case : CaseShape) (desk : DeskView) → desk.case ≡ case →
            Fits case desk result }
    {
        Node {
            number: worker,
            held: Holdings::new(alloc),
            prepared: None,
            outbox: Outbox::new(alloc),
            swept: 0,
            of: PhantomData,
        }
    }

    /// The worker's number.
    pub fn worker(&self) -> u32
        ensures number { result ≡ self.now.number }
        ensures few { result < 16 }
    {
        self.number
    }

    /// Whether it has a lease of an interval.
    pub fn holds(&self, interval: u32) -> bool
        ensures holds { IsTrue result ↔ IsSome (held_at self.now.held interval) }
    {
        self.held.get(interval).is_some()
    }

    /// Whether a record that it has handled is still to be written, so that it takes no other.
    pub fn has_prepared(&self) -> bool
        ensures prepared { IsTrue result ↔ IsSome self.now.prepared }
    {
        self.prepared.is_some()
    }

    /// Forgets what it has to send, as a plan may ask (`lose`): its records stay pending, and are
    /// sent again by a sweep.
    pub fn drop_messages(&mut self)
        ensures gone { self.new ≡ record self.old { outbox = [] } }
        ensures fits { (case : CaseShape) (desk : DeskView) → Fits case desk self.old →
            Fits case desk self.new }
    {
        self.outbox.clear();
    }

    /// Forgets all, as a worker does that was started anew.
    pub fn crash(&mut self) -> Outcome
        ensures crashed { result ≡ Outcome.Crashed }
        ensures number { self.new.number ≡ self.old.number }
        ensures idle { worker_at self.new ≡ idle }
        ensures fits { (case : CaseShape) (desk : DeskView) → desk.case ≡ case →
            Fits case desk self.new }
    {
        self.held.clear();
        unprepared(&mut self.prepared);
        self.outbox.clear();
        self.swept = 0;
        Outcome::Crashed
    }
}
