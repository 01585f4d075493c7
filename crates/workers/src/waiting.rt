//! How a worker waits for the turn that another has.
use std::sync::Wait;
use std::sync::atomic::AtomicU64;
use std::thread;
use std::time::Duration;

// How often a worker that finds the turn taken tries again at once, and how often it then lets others run, before it
// sleeps, and how long it sleeps, in microseconds. A turn takes some microseconds, about as long as the tries.
const TRIES: u32 = 40;

const YIELDS: u32 = 2;

const SLEEP: u64 = 100;

// Waits before the next try: at first not at all, then for others who want the processor, and then asleep. Answers
// how often it waited.
pub(crate) fn wait<R: Wait>(rt: &R, waited: u32) -> u32 {
    if waited < TRIES {
        return waited + 1;
    }
    if waited < TRIES + YIELDS {
        thread::yield_now();
        return waited + 1;
    }
    let nobody_wakes = AtomicU64::new(0);
    nobody_wakes.park_timeout(rt, 0, Duration::from_micros(SLEEP));
    waited
}
