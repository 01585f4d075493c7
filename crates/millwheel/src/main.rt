//! The program `millwheel`: the command line, the files and the output of its process.
//!
//! All that it does is `millwheel_alone` of `millwheel_cli`, with the words of `words_of`, over the files and the
//! standard output of the runtime and a keeper in memory. Where that answers Usage, so that nothing was done, it
//! does `millwheel` over the same keeper, with a gate that holds nobody: only a call that asks for workers that are
//! threads, or for nothing, comes so far. Where `keep_name` answers the name of a database the keeper is in that,
//! `millwheel_alone` is all, and `after_closing` says the status once it is closed. And then it does `tell`, over its
//! standard error, whose number is the exit status. `unheard` says the status of words that were not read, and
//! `unopened` that of a database that was not opened.
#![tactic(auto)]

use millwheel_cli::{
    Done, Status, after_closing, keep_name, millwheel, millwheel_alone, tell, unheard, unopened,
};
use mw_ports::{FileShelf, OpenGate, OutSink, words_of};
use mw_types::{CallList, Name, NoMemory};
use row_keeper::{Keeper, MemKeeper};
use sqlite_keeper::SqliteKeeper;
use std::process::ExitCode;
use std::sync::Wait;
use std::thread::Threads;
use std::{env, mem};

fn main(rt: HostRuntime) -> ExitCode {
    let status = status(&rt, &rt);
    let err = rt.stderr();
    ExitCode::from(tell(rt.alloc(), &status, &mut OutSink::new(&err)))
}

// Does what the words of the command line say. The runtime comes a second time as what may have threads.
fn status<R: Threads + Wait + Sync>(rt: &HostRuntime, threads: &R) -> Status {
    match words_of(rt.alloc(), env::args(rt)) {
        Ok(words) => run(rt, threads, words.as_slice()),
        Err(fault) => unheard(fault),
    }
}

// Runs these words over a keeper in memory, or over a database where they name one.
fn run<R: Threads + Wait + Sync>(rt: &HostRuntime, threads: &R, words: &[Name]) -> Status {
    match keep_name(rt.alloc(), words) {
        Ok(Some(name)) => run_kept(rt, words, &name),
        Ok(None) => run_in_memory(rt, threads, words),
        Err(NoMemory) => Status::NoMemory,
    }
}

// Runs these words over a keeper in memory. What asks for no threads has none, and so does not wait; a Usage leaves
// keeper, files and output as they were.
fn run_in_memory<R: Threads + Wait + Sync>(
    rt: &HostRuntime,
    threads: &R,
    words: &[Name],
) -> Status {
    let alloc = rt.alloc();
    let kept = MemKeeper::new(alloc, CallList::new(alloc));
    let done = run_over(rt, words, kept);
    if let Status::Usage = done.status {
        let Done { keeper, .. } = done;
        return ended(run_in_threads(rt, threads, words, keeper));
    }
    ended(done)
}

// Runs these words over the process's files, its standard output and a keeper in memory, and may have threads.
fn run_in_threads<R: Threads + Wait + Sync>(
    rt: &HostRuntime,
    threads: &R,
    words: &[Name],
    kept: MemKeeper,
) -> Done<MemKeeper> {
    let mut shelf = FileShelf::new(rt);
    let mut out = OutSink::new(rt);
    let gate = OpenGate;
    millwheel(
        threads,
        rt.alloc(),
        words,
        &mut shelf,
        kept,
        &mut out,
        &gate,
    )
}

// The status of a run over a keeper in memory. The process ends here, so neither that nor the history is given back
// piece by piece.
fn ended(done: Done<MemKeeper>) -> Status {
    let Done {
        status,
        keeper,
        history,
    } = done;
    mem::forget(keeper);
    mem::forget(history);
    status
}

// Runs these words over the database of that name, which is opened before any file is read. None of them has
// threads.
fn run_kept(rt: &HostRuntime, words: &[Name], name: &Name) -> Status {
    match SqliteKeeper::at(rt, name.text()) {
        Ok(kept) => {
            let Done { status, keeper, .. } = run_over(rt, words, kept);
            after_closing(status, keeper.close())
        }
        Err(fault) => unopened(fault),
    }
}

// Runs these words over the process's files, its standard output and a keeper, without threads.
fn run_over<K: Keeper>(rt: &HostRuntime, words: &[Name], kept: K) -> Done<K> {
    let mut shelf = FileShelf::new(rt);
    let mut out = OutSink::new(rt);
    millwheel_alone(rt.alloc(), words, &mut shelf, kept, &mut out)
}
