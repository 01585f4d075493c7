//! Shelves and sinks in memory fail as told; the real ones reach files and standard output; the words of a
//! call are read.
use super::{DoneWith, Holds, all_hold, are_equal, calls, done, made, must, refusal_of, text_of};
use mw_ports::{
    FileList, FileShelf, MemShelf, MemSink, NamedFile, OutSink, Shelf, ShelfFault, Sink, SinkFault,
    WordsFault, words_of, write_all,
};
use mw_types::{Bytes, CallList, Name, Seq};
use std::alloc::Global;
use std::fs;
use std::io::{Error, ErrorKind};
use std::process::Abort;

// Whether this was read, or failed so.
fn is_read(found: Result<Bytes, ShelfFault>, want: Result<&[u8], ShelfFault>) -> bool {
    let is = match &found {
        Ok(bytes) => want == Ok(bytes.as_slice()),
        Err(fault) => want == Err(*fault),
    };
    drop(found);
    is
}

// What is asked of a shelf: a name, a limit, and what is answered.
type Asked = (&'static str, u64, Result<&'static [u8], ShelfFault>);

impl<S: Shelf> DoneWith<S> for Asked {
    // It is asked through its trait.
    fn is_done<R: Abort>(&self, _rt: &R, alloc: Global, shelf: &mut S) -> bool {
        let (name, limit, want) = self;
        is_read(shelf.read(alloc, name, *limit), *want)
    }
}

// Three files, of which two have one name.
static FILES: [(&str, &[u8]); 3] = [
    ("e.jsonl", b"12345678"),
    ("t.json", b"{}"),
    ("t.json", b"[]"),
];

// Appends them.
fn push_files(rt: &impl Abort, alloc: Global, files: &mut FileList) {
    for (name, content) in &FILES {
        let name = made(rt, Name::of(alloc, name));
        let bytes = Bytes::from_vec(made(rt, content.to_vec(alloc)));
        made(rt, files.push(NamedFile { name, bytes }));
    }
}

// What a shelf with these is asked whose second call fails, one after another.
static ASKED: [Asked; 5] = [
    ("t.json", 2, Ok(b"{}")),
    ("t.json", 2, Err(ShelfFault::Failed)),
    ("e.jsonl", 8, Ok(b"12345678")),
    ("e.jsonl", 7, Err(ShelfFault::TooLong)),
    ("e", 8, Err(ShelfFault::Missing)),
];

#[test]
fn a_shelf_in_memory_answers_its_files(rt: HostRuntime) {
    let alloc = rt.alloc();
    let mut files = FileList::new(alloc);
    push_files(&rt, alloc, &mut files);
    let shelf = MemShelf::of(files, calls(&rt, alloc, &[1]));
    drop(done(&rt, alloc, shelf, &ASKED));
}

const LINE: &[u8] = b"{\"key\":\"a\"}\n";

// What is done with a sink in memory, or seen of it.
enum Deed {
    // All of these bytes are written, which may fail.
    WriteAll(&'static [u8], Result<(), SinkFault>),
    // So many of these bytes are taken by one write.
    Write(&'static [u8], Result<usize, SinkFault>),
    // This is the text.
    Has(&'static [u8]),
}

// A sink whose second call fails takes the first eight bytes, which a write takes at most, and the whole line after
// them.
static FAILS_ONCE: [Deed; 4] = [
    Deed::WriteAll(LINE, Err(SinkFault::Failed)),
    Deed::Has(b"{\"key\":\""),
    Deed::WriteAll(LINE, Ok(())),
    Deed::Has(b"{\"key\":\"{\"key\":\"a\"}\n"),
];

// One whose second call takes nothing takes the first eight bytes, and the write of nothing.
static TAKES_NOTHING_ONCE: [Deed; 3] = [
    Deed::WriteAll(LINE, Err(SinkFault::Failed)),
    Deed::Has(b"{\"key\":\""),
    Deed::Write(b"", Ok(0)),
];

impl DoneWith<MemSink> for Deed {
    fn is_done<R: Abort>(&self, _rt: &R, _alloc: Global, out: &mut MemSink) -> bool {
        match self {
            Deed::WriteAll(piece, want) => write_all(out, piece) == *want,
            Deed::Write(piece, want) => out.write(piece) == *want,
            Deed::Has(text) => are_equal(out.text(), text),
        }
    }
}

#[test]
fn a_sink_of_eight_bytes_fails_at_its_second_call(rt: HostRuntime) {
    let alloc = rt.alloc();
    let failing = MemSink::of(alloc, 8, calls(&rt, alloc, &[1]), CallList::new(alloc));
    drop(done(&rt, alloc, failing, &FAILS_ONCE));
    let taking = MemSink::of(alloc, 8, CallList::new(alloc), calls(&rt, alloc, &[1]));
    drop(done(&rt, alloc, taking, &TAKES_NOTHING_ONCE));
}

// What a shelf over a folder with one file of eight bytes and a folder is asked.
static REAL: [Asked; 7] = [
    ("files/e.jsonl", 8, Ok(b"12345678")),
    ("files/e.jsonl", 7, Err(ShelfFault::TooLong)),
    ("files/e.jsonl", 0, Err(ShelfFault::TooLong)),
    ("files/missing", 8, Err(ShelfFault::Missing)),
    ("files/folder/missing", 8, Err(ShelfFault::Missing)),
    ("files/folder", 8, Err(ShelfFault::Failed)),
    ("files/e.jsonl/under", 8, Err(ShelfFault::Failed)),
];

#[test]
fn a_real_file_is_read_within_its_limit(rt: HostRuntime) {
    drop(fs::remove_dir_all(&rt, "files"));
    made(&rt, fs::create_dir_all(&rt, "files/folder"));
    made(&rt, fs::write(&rt, "files/e.jsonl", "12345678"));
    drop(done(&rt, rt.alloc(), FileShelf::new(&rt), &REAL));
    made(&rt, fs::remove_dir_all(&rt, "files"));
}

// What a file of twenty thousand bytes has eight hundred times. A portion does not end where it does.
const TEXT: &str = "a portion behind another ";

#[test]
fn a_real_file_of_several_portions_is_read(rt: HostRuntime) {
    let alloc = rt.alloc();
    let text = text_of(&rt, alloc, &[(TEXT, 800)]);
    made(&rt, fs::write(&rt, "long", text.as_str()));
    let mut shelf = FileShelf::new(&rt);
    let is_whole = is_read(shelf.read(alloc, "long", 20_000), Ok(text.as_bytes()));
    let is_refused = is_read(shelf.read(alloc, "long", 19_999), Err(ShelfFault::TooLong));
    drop(text);
    drop(shelf);
    must(&rt, is_whole && is_refused, "twenty thousand bytes");
    made(&rt, fs::remove_file(&rt, "long"));
}

#[test]
fn standard_output_takes_a_line(rt: HostRuntime) {
    let mut out = OutSink::new(&rt);
    let takes = write_all(&mut out, b"one line\n") == Ok(()) && out.write(b"") == Ok(0);
    must(&rt, takes, "a line, and nothing");
}

// How a process is called.
enum Called {
    // With these words, of which those are read, which are all after the first.
    With(&'static [&'static str], &'static [&'static str]),
    // With what the runtime does not give, for which this is answered.
    Unread(ErrorKind, WordsFault),
}

static CALLS: [Called; 4] = [
    Called::With(&["millwheel", "solo", ""], &["solo", ""]),
    Called::With(&[], &[]),
    // Words that are no text, or have no memory.
    Called::Unread(ErrorKind::InvalidData, WordsFault::NoText),
    Called::Unread(ErrorKind::OutOfMemory, WordsFault::NoMemory),
];

// Appends these texts, owned.
fn push_owned(rt: &impl Abort, alloc: Global, all: &mut Vec<String>, texts: &[&str]) {
    for text in texts {
        made(rt, all.push(made(rt, String::from_str(alloc, text))));
    }
}

// Whether there are these words and no more.
fn are_words(words: Seq<Name>, texts: &[&str]) -> bool {
    let mut are = words.len() == texts.len();
    for (at, word) in words.as_slice().iter().enumerate() {
        are = are && texts.get(at).copied() == Some(word.text());
    }
    drop(words);
    are
}

impl Holds for Called {
    fn holds<R: Abort>(&self, rt: &R, alloc: Global) -> bool {
        match self {
            Called::With(args, want) => {
                let mut all = Vec::new(alloc);
                push_owned(rt, alloc, &mut all, args);
                let words = words_of(alloc, Ok(all.into_iter()));
                are_words(made(rt, words), want)
            }
            Called::Unread(kind, fault) => {
                refusal_of(words_of(alloc, Err(Error::from(*kind)))) == Some(*fault)
            }
        }
    }
}

#[test]
fn the_words_of_a_call_are_without_its_own_name(rt: HostRuntime) {
    all_hold(&rt, rt.alloc(), &CALLS);
}
