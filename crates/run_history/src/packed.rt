//! An entry by its numbers.

/// An entry by its numbers, of which one is that under which a row's name is held, and one that under
/// which a detail is: a record, or what a handler left.
#[derive(Clone, Copy)]
pub(crate) enum Packed {
    Claim {
        worker: u32,
        interval: u32,
    },
    Inject {
        seq: u32,
        part: u32,
        line: u32,
        item: u32,
    },
    Handle {
        seq: u32,
        row: u32,
        commit: u32,
        handled: u32,
    },
    Fire {
        seq: u32,
        row: u32,
        fired: u32,
    },
    Ack {
        seq: u32,
        row: u32,
        commit: u32,
        index: u32,
    },
    Purge {
        seq: u32,
        row: u32,
        floor: u32,
    },
    // One whose row has a long name, or that has a number of 2^32 or more.
    Whole {
        whole: u32,
    },
}

// The three entries of a line take 60 bytes, beside their details.
const _: () = prove!(std::mem::size_of::<Packed>() == 20);

/// The numbers of an entry: its sequencer, that of its row's name, and the commit number that it names.
#[derive(Clone, Copy)]
pub(crate) struct Numbers {
    pub(crate) seq: u32,
    pub(crate) row: u32,
    pub(crate) commit: u32,
}
