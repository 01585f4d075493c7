//! The keys that the three extractors make.
use crate::tests::foundations::all_hold;
use crate::tests::foundations::types::Case;
use topology::By;

// An extractor, a key, and what is made of it.
static KEYS: [Case; 9] = [
    Case::Extracted(By::Key, "a/b/c", "a/b/c"),
    Case::Extracted(By::Head, "a/b/c", "a"),
    Case::Extracted(By::Head, "/x", "/x"),
    Case::Extracted(By::Head, "x/", "x"),
    Case::Extracted(By::Head, "x", "x"),
    Case::Extracted(By::Tail, "a/b/c", "b/c"),
    Case::Extracted(By::Tail, "/x", "x"),
    Case::Extracted(By::Tail, "x/", "x/"),
    Case::Extracted(By::Tail, "x", "x"),
];

#[test]
fn extractors(rt: HostRuntime) {
    all_hold(&rt, rt.alloc(), &KEYS);
}
