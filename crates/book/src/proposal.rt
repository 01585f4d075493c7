//! What a worker proposes to write.
use mw_types::{Delivery, Effects, Timer};

/// What is to be written of one row.
#[derive(Drop)]
pub enum Proposal {
    /// An injector's next line is injected.
    Inject {
        /// The record line, from 0.
        line: u32,
    },
    /// A delivered record was handled.
    Handle {
        /// The record, on its way to the row.
        delivery: Delivery,
        /// What the handler left.
        effects: Effects,
    },
    /// The row's least timer fired.
    Fire {
        /// The timer.
        timer: Timer,
        /// The watermark under which it fires, in whole microseconds.
        mark: u64,
        /// What the handler left.
        effects: Effects,
    },
}
