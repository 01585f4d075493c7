//! Keepers over real files, and files that are none.
use super::asking::does;
use super::deeds::Deed;
use super::folder;
use super::lending::{closed, dropped, refusal, second_refusal};
use crate::tests::{made, must_hold};
use row_keeper::KeeperFault;
use std::fs;

#[test]
fn rows_are_kept_and_read_back(rt: HostRuntime) {
    folder::empty(&rt, &rt, "kept");
    closed(&rt, &rt, "kept/k.db", Deed::PutsSeven);
    must_hold(
        &rt,
        dropped(&rt, &rt, "kept/k.db", Deed::HasSeven),
        "seven rows",
    );
    folder::remove(&rt, &rt, "kept");
}

// Files, what is done with a keeper that is not closed, and what is left. The put that ends the first transaction has
// the byte 249, and the two after it are undone.
static LEFT: [(&str, u32, u8); 2] = [("dropped/few", 249, 0), ("dropped/more", 252, 249)];

#[test]
fn a_keeper_that_is_not_closed_leaves_its_last_commit(rt: HostRuntime) {
    folder::empty(&rt, &rt, "dropped");
    for (name, times, byte) in &LEFT {
        must_hold(&rt, dropped(&rt, &rt, name, Deed::PutsOne(*times)), *name);
        must_hold(&rt, dropped(&rt, &rt, name, Deed::HasFirst(*byte)), *name);
    }
    folder::remove(&rt, &rt, "dropped");
}

// Names that no keeper is had at.
static OTHERS: [&str; 7] = [
    "none/folder",
    "none/text",
    "none/text/under",
    "none/missing/k.db",
    "none/columns",
    "none/keyless",
    "",
];

#[test]
fn a_file_that_is_no_database_of_rows_is_refused(rt: HostRuntime) {
    folder::empty(&rt, &rt, "none");
    made(&rt, fs::create_dir(&rt, "none/folder"));
    made(
        &rt,
        fs::write(&rt, "none/text", "these are no rows of any database\n"),
    );
    let columns = "CREATE TABLE rows (part INTEGER, key BLOB)";
    let keyless = "CREATE TABLE rows (part INTEGER, key BLOB, bytes BLOB)";
    does(&rt, &rt, "none/columns", columns);
    does(&rt, &rt, "none/keyless", keyless);
    for name in &OTHERS {
        must_hold(&rt, refusal(&rt, name) == Some(KeeperFault::Failed), *name);
    }
    folder::remove(&rt, &rt, "none");
}

#[test]
fn a_file_is_one_keepers_at_a_time(rt: HostRuntime) {
    folder::empty(&rt, &rt, "held");
    let second = second_refusal(&rt, &rt, "held/k.db");
    must_hold(
        &rt,
        second == Some(KeeperFault::Failed),
        "while there is one",
    );
    must_hold(&rt, refusal(&rt, "held/k.db").is_none(), "afterwards");
    folder::remove(&rt, &rt, "held");
}

// Tables with one row whose key or part is none of ours.
const STRANGE_KEY: &str = "CREATE TABLE rows (part INTEGER NOT NULL, key BLOB NOT NULL, \
    bytes BLOB NOT NULL, PRIMARY KEY (part, key)) STRICT; \
    INSERT INTO rows VALUES (1, x'68ff', x'01')";

const STRANGE_PART: &str = "CREATE TABLE rows (part INTEGER NOT NULL, key BLOB NOT NULL, \
    bytes BLOB NOT NULL, PRIMARY KEY (part, key)) STRICT; \
    INSERT INTO rows VALUES (-1, x'68', x'01')";

// Files with such a table, and what fails over them.
static STRANGE: [(&str, &str, Deed); 2] = [
    ("strange/key", STRANGE_KEY, Deed::FailsTwice),
    ("strange/part", STRANGE_PART, Deed::Fails),
];

#[test]
fn rows_that_no_keeper_put_are_a_fault(rt: HostRuntime) {
    folder::empty(&rt, &rt, "strange");
    for (name, statements, deed) in &STRANGE {
        does(&rt, &rt, name, statements);
        must_hold(&rt, dropped(&rt, &rt, name, *deed), *name);
    }
    folder::remove(&rt, &rt, "strange");
}
