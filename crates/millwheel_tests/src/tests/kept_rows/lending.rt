//! A keeper of a file, opened for one deed and let go.
use super::deeds::{Deed, is_done};
use super::refusal_of;
use crate::tests::{made, must_hold};
use row_keeper::{Keeper, KeeperFault};
use sqlite_keeper::SqliteKeeper;
use std::alloc::Global;
use std::process::Abort;

// Whether a deed is done with a keeper, which is let go without a close.
fn done_once<K: Keeper>(rt: &impl Abort, alloc: Global, keeper: K, deed: Deed) -> bool {
    let mut keeper = keeper;
    is_done(rt, alloc, &mut keeper, deed)
}

// The same with a keeper that is given back. The test ends where the deed is not done.
fn used<K: Keeper>(rt: &impl Abort, alloc: Global, keeper: K, deed: Deed) -> K {
    let mut keeper = keeper;
    must_hold(
        rt,
        is_done(rt, alloc, &mut keeper, deed),
        "the deed is done",
    );
    keeper
}

/// Whether a deed is done with the keeper of a file, which is let go without a close.
pub(super) fn dropped(host: &HostRuntime, rt: &impl Abort, name: &str, deed: Deed) -> bool {
    done_once(
        rt,
        host.alloc(),
        made(rt, SqliteKeeper::at(host, name)),
        deed,
    )
}

/// Does a deed with the keeper of a file, and closes it. The test ends where either does not go well.
pub(super) fn closed(host: &HostRuntime, rt: &impl Abort, name: &str, deed: Deed) {
    let keeper = made(rt, SqliteKeeper::at(host, name));
    made(rt, used(rt, host.alloc(), keeper, deed).close());
}

/// Why a keeper can't be had at a name, if it can't.
pub(super) fn refusal(host: &HostRuntime, name: &str) -> Option<KeeperFault> {
    refusal_of(SqliteKeeper::at(host, name))
}

/// Why a second keeper can't be had at a name while there is one.
pub(super) fn second_refusal(
    host: &HostRuntime,
    rt: &impl Abort,
    name: &str,
) -> Option<KeeperFault> {
    let first = made(rt, SqliteKeeper::at(host, name));
    let refusal = refusal(host, name);
    drop(first);
    refusal
}
