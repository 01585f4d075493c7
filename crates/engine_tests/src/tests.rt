//! The tests of the lower crates, of books, of workers at desks, of scripted worlds and of audits, a module for each,
//! and what several of them stand on.
//!
//! A case is a row of a table. A call that fails for want of memory ends the test, and what is handed over is let
//! go by the function that takes it, so that no function has a way out but its end.
ghost use Rattle.std.specs.Prelude.{◌≡◌, Ok};

mod audits;
mod books;
mod desks;
mod entries;
mod foundations;
mod keepers;
mod text_cases;
mod two_lines;
mod worlds;

use std::fmt::Display;
use std::process::Abort;

// Ends the test where a case does not hold, and names it.
fn must(rt: &impl Abort, holds: bool, name: impl Display + Drop) {
    assert!(rt; holds, "{name}");
}

// What was made. The test ends where it was not.
fn made<T, E: Drop>(rt: &impl Abort, given: Result<T, E>) -> T
    ensures { given ≡ Ok result }
{
    match given {
        Ok(it) => it,
        Err(_) => rt.panic("it was not made"),
    }
}
