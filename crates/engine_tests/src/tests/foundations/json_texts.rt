//! The texts that have one JSON value.
use super::all_hold;
use super::types::Case;

// Texts, and whether each is the number 7, where it has a value.
static TEXTS: [Case; 6] = [
    Case::Json(b"7", Some(true)),
    Case::Json(b" 7\n", Some(true)),
    Case::Json(b"[7]", Some(false)),
    Case::Json(b"7 7", None),
    Case::Json(b"", None),
    Case::Json(b"\"\xff\"", None),
];

#[test]
fn one_text_alone_has_a_value(rt: HostRuntime) {
    all_hold(&rt, rt.alloc(), &TEXTS);
}
