//! What workers do with a book of the example once both intervals are claimed, over one keeper or another.
ghost use Rattle.std.specs.Prelude.{◌≡◌};
ghost use Rattle.worked_examples.specs.Rising.{rise_case};

use super::overtaken::overtake;
use super::refusals::fill;
use super::refused;
use super::rising::rise;
use super::starts::started;
use super::trials::{Trial, claim_both};
use crate::tests::keepers::{blind, in_memory};
use crate::tests::must;
use book::{Book, StartRefusal, StartWhy};
use row_keeper::Keeper;
use run_history::Case;
use std::alloc::Global;
use std::process::Abort;

// A keeper: one in memory that never fails, or fails at the call of this number, or one that tells no row.
#[derive(Clone, Copy)]
pub(crate) enum Kept {
    Sound,
    Failing(u64),
    Blind,
}

// What is done with the book.
#[derive(Clone, Copy)]
pub(crate) enum Play {
    // The first line is worked off.
    Rise,
    // Another worker claims the interval of the count.
    Overtake,
    // More is to be appended, for which there is no room.
    Fill,
}

// Over which keeper, how many entries the book has room for, and what is done.
pub(crate) type Setting = (Kept, u32, Play);

// No call of the keeper.
const NONE: u64 = 100;

// The keeper that comes back from a start, where its first call is to fail.
fn after_start<K: Keeper>(rt: &impl Abort, trial: Trial, case: &Case, keeper: K) -> K {
    if trial.failing == 0 {
        let StartRefusal { why, keeper } = refused(rt, Book::start(trial.alloc, case, keeper, 8));
        let is_fault = matches!(&why, StartWhy::KeeperFault);
        drop(why);
        must(rt, is_fault, "the keeper failed");
        keeper
    } else {
        keeper
    }
}

// A book is started over a keeper, once more where that failed, both intervals are claimed, and it is done.
fn begin<K: Keeper>(rt: &impl Abort, trial: Trial, case: &Case, keeper: K, limit: u32, play: Play)
    requires case { case.now ≡ rise_case }
{
    let keeper = after_start(rt, trial, case, keeper);
    let mut book = started(rt, trial.alloc, case, keeper, u64::from(limit));
    let hands = claim_both(rt, trial, &mut book);
    match play {
        Play::Rise => rise(rt, trial, &mut book, &hands),
        Play::Overtake => overtake(rt, trial, &mut book, &hands),
        Play::Fill => fill(rt, trial.alloc, &mut book, &hands),
    }
    drop(hands);
    drop(book);
}

// It is done in a setting.
pub(crate) fn play_in(rt: &impl Abort, alloc: Global, case: &Case, setting: &Setting)
    requires case { case.now ≡ rise_case }
{
    let (kept, limit, play) = *setting;
    let failing = match kept {
        Kept::Failing(failing) => failing,
        _ => NONE,
    };
    let trial = Trial { alloc, failing };
    match kept {
        Kept::Sound => begin(rt, trial, case, in_memory(rt, alloc, &[]), limit, play),
        Kept::Failing(call) => begin(rt, trial, case, in_memory(rt, alloc, &[call]), limit, play),
        Kept::Blind => begin(rt, trial, case, blind(rt, alloc, 7, &[]), limit, play),
    }
}
