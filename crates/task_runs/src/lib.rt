//! What is done with a task: its case is run to its end over a keeper, on one thread or first in rounds of workers that
//! are threads, or is counted at once without a run; and its text is written, at the end or result by result.
//!
//! Stands on `world`, `workers`, `plain_answer` and `live_outlet`, and reaches the output by `mw_ports`. Public contract:
//! each call ends with a status, which leaves of history, rows and text what is said of it (`RunLeaves`; of a count
//! `TextLeaves`); a keeper's fault and a sink's are counted by those; and a text that was written while its run went on
//! collects to its results. Definitions, in the order of reading: `specs/Tasks.antt`, what a task names;
//! `specs/Histories.antt`, how a history goes; `specs/Lives.antt`, what a text is that was written while its run went on;
//! `specs/Answers.antt`, what each status leaves; `specs/Messages.antt` and `specs/Numbers.antt`, what is said of it.
#![tactic(auto)]

mod done;
mod laws;
mod live;
mod plain;
mod rounding;
mod runs;
mod status;
mod task;
mod text;

pub use done::{Done, unbegun};
pub use laws::live_texts_collect_once;
pub use plain::count;
pub use rounding::run_rounds;
pub use runs::run;
pub use status::Status;
pub use task::{Before, Task, Wanted, wanted_of};
pub use text::written;
