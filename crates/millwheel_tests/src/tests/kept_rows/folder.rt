//! A folder for the files of one test.
use crate::tests::made;
use std::fs;
use std::process::Abort;

/// An empty folder, made anew where an earlier run has left one.
pub(super) fn empty(host: &HostRuntime, rt: &impl Abort, name: &str) {
    let _ = fs::remove_dir_all(host, name);
    made(rt, fs::create_dir(host, name));
}

/// Takes it away.
pub(super) fn remove(host: &HostRuntime, rt: &impl Abort, name: &str) {
    made(rt, fs::remove_dir_all(host, name));
}
