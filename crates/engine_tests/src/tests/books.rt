//! Books over a keeper that tells its rows, over one that does not, and over one that fails, and books that threads
//! share: what is answered, and what is refused.
ghost use Rattle.std.specs.Prelude.{◌≡◌, Err};

mod calls;
mod desks;
mod example;
mod faults;
mod hands;
mod histories;
mod many_seats;
mod overtaken;
mod pairs;
mod plays;
mod raising;
mod refusals;
mod rising;
mod seats;
mod starts;
mod tables;
mod threads;
mod trials;
mod turn_calls;
mod turn_scripts;
mod turns;

use std::process::Abort;

// Why it was refused. The test ends where it was not.
fn refused<T: Drop, E>(rt: &impl Abort, given: Result<T, E>) -> E
    ensures { given ≡ Err result }
{
    match given {
        Ok(_) => rt.panic("it was not refused"),
        Err(why) => why,
    }
}
