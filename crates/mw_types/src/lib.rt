//! The types that all crates share: names, lists, records, entries.
//!
//! Texts and lists keep their representation to themselves, and contracts see them as lists; a key is
//! its bytes. A short text lies in the value itself, and copies of a long `SharedList` share memory.
//! Stands on std and `uuid`. Public contract: each call says which value it gives, and each refusal
//! leaves everything as it was. Definitions: `specs/Bounds.antt`, what a state may be;
//! `specs/Outcomes.antt`, what a handler leaves; `specs/Orders.antt`, how names, ids and timers are
//! ordered.
#![tactic(auto)]

mod delivery;
mod effects;
mod entry;
mod identity;
mod key;
mod kind;
mod memory;
mod record;
mod refusal;
mod seq;
mod shared_list;
mod short;
mod state;
mod text;
mod timer;
mod tree;

pub use delivery::{Delivery, DeliveryList, Emission, EmissionList};
pub use effects::Effects;
pub use entry::{
    Entry, EntryList, copied_ack, copied_fire, copied_handle, copied_inject, copied_purge,
};
pub use identity::{IdList, RecordId, RowName};
pub use key::{Key, KeyList, PartCuts, PartCutsList};
pub use kind::{Kind, KindTable};
pub use memory::{Duplicate, NoMemory};
pub use record::{Production, ProductionList, Record};
pub use refusal::{KeyRefusal, PlanRefusal};
pub use seq::{Bytes, CallList, NumberList, Seq};
pub use shared_list::SharedList;
pub use state::{HeldList, HeldTotal, State, ValueList, Window, WindowList};
pub use text::{KeyText, Name, Text};
pub use timer::{Timer, TimerList};

/// The greatest timestamp that an input may have, in whole microseconds.
pub const INPUT_MAX: u64 = 1 << 62;

/// The greatest timestamp inside a run, in whole microseconds.
pub const MAX_STAMP: u64 = (1 << 63) - 1;

/// The watermark of an input that has ended: above every timestamp.
pub const END: u64 = u64::MAX;
