//! The program `millwheel` as a library: from the words of the command line to the text and the status.
//!
//! `solo T E..` reads a topology, leaves its weak passes out, reads event files, one an injector, works them off
//! on one thread over a keeper of rows, and writes the result, and with `--history` the history before it, or
//! with `--live` each result as soon as its entry is there. `replay --plan P T E..` does the steps of a plan
//! first. `run --workers N --rounds R T E..` has so many workers, which are threads, do so many rounds of work
//! first, with a plan or without. `plain T E..` counts the files at once, without a run, and writes what a run of
//! them writes. `load SEED LINES` is `solo` with a topology of its own and with lines that the seed decides, and
//! writes the summary line alone. `collect FILE` writes each live line of a text once. `audit --trace FILE T E..`
//! writes how many entries a printed history has, where it is that of a lawful run. Stands on `command_line`,
//! `world`, `workers`, `live_outlet` and `audit`, and reaches files and output by `mw_ports`. Public contract:
//! with Ok the history of `millwheel` is fenced, and exactly its text was written; where a contract can see the
//! keeper's rows it is what comes before the drain, and then the whole drain, legal and finished, and the rows
//! are its rows, and the text behind the lines of the history is the plain count of the files. With `--live` that
//! text is each result of the history, in solo once and in order, and the summary line. Every other status has
//! its reason, and leaves what the clauses say. `millwheel_alone` says the same of all modes but `run`, to a
//! caller that has no threads. Definitions, in the order of reading: `specs/Asked.antt`, what the words are to
//! whom, and where rows are kept; `specs/Files.antt`, what was read; `specs/Loads.antt`, what load makes;
//! `specs/Tasks.antt`, what is to be done; `specs/Collects.antt`, what collect writes; `specs/Audits.antt`, what
//! an audit reads, writes and refuses; `specs/Reasons.antt`, why each status comes; `specs/Answers.antt`, what
//! each status leaves of a call; `specs/Closing.antt`, what comes of words that were not read, and of a keeper's
//! fault before or after a run. What it leaves of a task's history, rows and text, and how a history goes, is
//! defined in `task_runs`, in `specs/Histories.antt`, `specs/Lives.antt` and `specs/Answers.antt` there.
#![tactic(auto)]

mod alone;
mod asked;
mod audits;
mod call;
mod called;
mod closing;
mod collecting;
mod form;
mod laws;
mod load;
mod reading;
mod refusal;
mod saying;
mod threaded;
mod unkept;
mod work;

pub use alone::millwheel_alone;
pub use asked::keep_name;
pub use closing::{after_closing, unheard, unopened};
pub use laws::load_is_taken;
pub use load::load_lines;
pub use saying::{say, tell};
pub use task_runs::{Done, Status};
pub use threaded::millwheel;
