//! The steps of a script.

/// One step of a script, which a line of a schedule names.
#[derive(Clone, Copy)]
pub enum Step {
    /// A worker claims an interval.
    Claim {
        /// The worker.
        worker: u32,
        /// The interval.
        interval: u32,
    },
    /// A worker injects the next line of an injector.
    Inject {
        /// The worker.
        worker: u32,
        /// The injector.
        part: u32,
    },
    /// A worker sends all that it has to send.
    Send {
        /// The worker.
        worker: u32,
    },
    /// A worker takes a message.
    Take {
        /// The worker.
        worker: u32,
        /// The message.
        message: u32,
    },
    /// A worker writes what it has prepared.
    Write {
        /// The worker.
        worker: u32,
    },
    /// A worker fires a timer of a computation.
    Fire {
        /// The worker.
        worker: u32,
        /// The computation.
        part: u32,
    },
    /// A worker reports the own work of an interval.
    Report {
        /// The worker.
        worker: u32,
        /// The interval.
        interval: u32,
    },
    /// A worker puts what is pending among what it has to send.
    Resend {
        /// The worker.
        worker: u32,
    },
    /// A worker purges a row of an interval.
    Purge {
        /// The worker.
        worker: u32,
        /// The interval.
        interval: u32,
    },
    /// A message comes once more; its line says `copy`.
    Repeat {
        /// The message.
        message: u32,
    },
    /// A message is lost.
    Lose {
        /// The message.
        message: u32,
    },
    /// A message passes the relay that is next on its way.
    Relay {
        /// The relay, which is the number of a weak computation.
        relay: u32,
        /// The message.
        message: u32,
    },
    /// A relay forgets the ids that it holds.
    Forget {
        /// The relay, which is the number of a weak computation.
        relay: u32,
    },
    /// A worker crashes, and forgets all.
    Crash {
        /// The worker.
        worker: u32,
    },
}
