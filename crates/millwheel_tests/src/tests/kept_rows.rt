//! Kept rows over real files: a keeper's files and what is none, and runs that keep their rows.
//!
//! What a call answers is let go by a generic function, since each that lets a database go by its name is slow to
//! prove. A helper that reads or writes files is told the host, and beside it what ends the test.
mod asking;
mod deeds;
mod folder;
mod keeper_files;
mod kept_runs;
mod lending;

// Why something was refused, if it was.
fn refusal_of<T: Drop, E: Drop>(given: Result<T, E>) -> Option<E> {
    given.err()
}
