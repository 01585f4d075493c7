//! Keepers, called as such and through their bound.
use super::{DoneWith, calls, done, key_of, made, must, name_of};
use key_intervals::Bounds;
use mw_types::Bytes;
use row_keeper::{BlindKeeper, Keeper, KeeperFault, KeptRow, MemKeeper};
use std::alloc::Global;
use std::process::Abort;

// What a keeper is asked, and what it answers.
enum Asked {
    // A row of this part, key and byte is put, which may fail.
    Put(u32, &'static str, u8, Result<(), KeeperFault>),
    // The rows of part 1 from h to q have these bytes.
    Scan(Result<&'static [u8], KeeperFault>),
    // The first row has this byte, which is 0 where there is none.
    First(Result<u8, KeeperFault>),
}

// An interval has its rows in order once they are put, the last in the place of an earlier one.
static IN_ORDER: [Asked; 10] = [
    Asked::First(Ok(0)),
    Asked::Put(2, "h", 1, Ok(())),
    Asked::Put(1, "q", 2, Ok(())),
    Asked::Put(1, "pz", 3, Ok(())),
    Asked::Put(1, "h", 4, Ok(())),
    Asked::Put(1, "a", 5, Ok(())),
    Asked::Put(0, "", 6, Ok(())),
    Asked::Put(1, "h", 7, Ok(())),
    Asked::Scan(Ok(&[7, 3])),
    Asked::First(Ok(6)),
];

// Each named call fails, and is done the next time.
static FAILING: [Asked; 6] = [
    Asked::Put(1, "h", 1, Err(KeeperFault::Failed)),
    Asked::Put(1, "h", 2, Ok(())),
    Asked::Scan(Err(KeeperFault::Failed)),
    Asked::Scan(Ok(&[2])),
    Asked::First(Err(KeeperFault::Failed)),
    Asked::First(Ok(2)),
];

// A blind keeper shows its row of the byte 9, and no other that is put.
static BLIND: [Asked; 9] = [
    Asked::Put(2, "h", 1, Ok(())),
    Asked::Put(1, "q", 2, Ok(())),
    Asked::Put(1, "pz", 3, Ok(())),
    Asked::Put(1, "h", 4, Ok(())),
    Asked::Put(1, "a", 5, Ok(())),
    Asked::Put(0, "", 6, Ok(())),
    Asked::Put(1, "h", 7, Ok(())),
    Asked::First(Ok(0)),
    Asked::Scan(Ok(&[9])),
];

// It takes a put of the very row that it shows.
static SHOWN: [Asked; 1] = [Asked::Put(1, "a", 255, Ok(()))];

// Whether these are the bytes of rows, of which each has one.
fn are_bytes(rows: &[KeptRow], want: &[u8]) -> bool {
    let mut are = rows.len() == want.len();
    for (at, row) in rows.iter().enumerate() {
        are = are && row.bytes.len() == 1 && row.bytes.get(0) == want.get(at);
    }
    are
}

// Whether a scan from h to q finds rows of these bytes, or fails so.
fn finds<K: Keeper>(
    rt: &impl Abort,
    alloc: Global,
    keeper: &mut K,
    want: Result<&[u8], KeeperFault>,
) -> bool {
    let bounds = Bounds {
        part: 1,
        from: key_of(rt, alloc, "h"),
        to: Some(key_of(rt, alloc, "q")),
    };
    let found = keeper.scan(alloc, &bounds);
    drop(bounds);
    let is_so = match (&found, want) {
        (Ok(rows), Ok(bytes)) => are_bytes(rows.as_slice(), bytes),
        (Err(fault), Err(wanted)) => *fault == wanted,
        _ => false,
    };
    drop(found);
    is_so
}

impl<K: Keeper> DoneWith<K> for Asked {
    fn is_done<R: Abort>(&self, rt: &R, alloc: Global, keeper: &mut K) -> bool {
        match self {
            Asked::Put(part, text, byte, want) => {
                let name = name_of(rt, alloc, *part, text);
                let put = keeper.put(alloc, &name, &[*byte]);
                drop(name);
                put == *want
            }
            Asked::Scan(want) => finds(rt, alloc, keeper, *want),
            Asked::First(want) => {
                let found = keeper.first(alloc);
                let byte = match &found {
                    Ok(Some(row)) => Ok(row.bytes.get(0).copied().unwrap_or(0)),
                    Ok(None) => Ok(0),
                    Err(fault) => Err(*fault),
                };
                drop(found);
                byte == *want
            }
        }
    }
}

// A blind keeper that shows this row of part 1.
fn blind(rt: &impl Abort, alloc: Global, text: &str, byte: u8) -> BlindKeeper {
    BlindKeeper::new(KeptRow {
        name: name_of(rt, alloc, 1, text),
        bytes: Bytes::from_vec(made(rt, vec![in alloc; byte])),
    })
}

#[test]
fn a_keeper_in_memory_shows_its_rows_and_fails_as_told(rt: HostRuntime) {
    let alloc = rt.alloc();
    let failing = MemKeeper::new(alloc, calls(&rt, alloc, &[0, 2, 4]));
    drop(done(&rt, alloc, failing, &FAILING));
    let sound = MemKeeper::new(alloc, calls(&rt, alloc, &[]));
    let keeper = done(&rt, alloc, sound, &IN_ORDER);
    let rows = made(&rt, keeper.rows(alloc));
    drop(keeper);
    let has_all = are_bytes(rows.as_slice(), &[6, 5, 7, 3, 2, 1]);
    drop(rows);
    must(&rt, has_all, "all rows");
}

#[test]
fn a_blind_keeper_shows_and_takes_its_row(rt: HostRuntime) {
    let alloc = rt.alloc();
    drop(done(&rt, alloc, blind(&rt, alloc, "p", 9), &BLIND));
    drop(done(&rt, alloc, blind(&rt, alloc, "a", 255), &SHOWN));
}
