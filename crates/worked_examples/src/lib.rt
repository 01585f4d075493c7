//! Examples that were worked out by hand, which the definitions of histories must meet.
//!
//! Each function has an empty body, and its contract is what the definitions say of one example:
//! the prover evaluates them. Stands on `run_history`. The examples are `specs/First.antt` (one
//! thread), `specs/Drained.antt` (the same with claims, acknowledgements and a purge),
//! `specs/Overtaken.antt` (a second claim), `specs/OwnWorks.antt` (own work of intervals),
//! `specs/Wide.antt` (two injectors, a cut, and a spike) and `specs/Spikes.antt` (handlers alone).
//! `specs/Rising.antt` (marks that rise) is an example of the crates above.
#![tactic(auto)]

mod counts;
mod drained;
mod first;
mod overtaken;
mod passes;
mod spikes;
mod wide;

pub use counts::count_at_the_edges;
pub use drained::{
    drained_example, drained_example_has_its_intervals, drained_example_has_its_own_work,
};
pub use first::first_example;
pub use overtaken::an_overtaken_claim_is_stale;
pub use passes::pass_example;
pub use spikes::{greater_total_is_held, no_spike_at_three_times, spike_above_three_times};
pub use wide::{
    wide_example, wide_example_has_its_intervals, wide_example_has_its_numbers,
    wide_example_refuses,
};
