//! What a plan has happen to workers.

/// What happens to a worker.
#[derive(Clone, Copy)]
pub enum What {
    /// A worker crashes, and the next worker claims what it held.
    Crash {
        /// The worker.
        worker: u32,
    },
    /// A worker leaves the first record that it has handled unwritten, and the next worker claims what it
    /// held.
    Stall {
        /// The worker.
        worker: u32,
    },
    /// A worker claims an interval, and its owner is not told.
    Move {
        /// The interval.
        interval: u32,
        /// The worker.
        worker: u32,
    },
    /// A worker sends each record a second time.
    Repeat {
        /// The worker.
        worker: u32,
    },
    /// What a worker has to send is lost.
    Lose {
        /// The worker.
        worker: u32,
    },
    /// A worker keeps what it has to send until its next turn of work.
    Hold {
        /// The worker.
        worker: u32,
    },
}

/// What happens to a worker, and in which round.
#[derive(Clone, Copy)]
pub struct Action {
    /// The round, from 0.
    pub round: u32,
    /// What happens in it.
    pub what: What,
}
