//! Schedules that are done for real in a `World`, each step with the answer that was worked out for it by hand: over a
//! keeper that tells its rows, over one that does not, and over one that fails, and over a book that is full; and
//! drains by turns.
mod crashes;
mod faults;
mod fixtures;
mod leases;
mod messages;
mod relays;
mod tables;
mod timers;
mod turns;
mod whole_scripts;
