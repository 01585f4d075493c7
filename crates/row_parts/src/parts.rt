//! The parts of a row that are written to bytes and read from them.
ghost use Rattle.std.specs.Prelude.{◌≡◌, ◌∷◌, ◌++◌, ◌<◌, ◌≤◌, ◌^◌, [], ⊤, length, FitsSigned, IfOk, OnOk};
ghost use Rattle.std.specs.List.{concat};
ghost use Rattle.std.specs.Int.{w64, to_be_bytes};
ghost use Rattle.mw_types.specs.Orders.{id_cmp, timer_cmp};
ghost use Rattle.row_parts.specs.Contents.{delivery_cmp};
ghost use Rattle.row_parts.specs.Spelling.{key_spelling, id_spelling, window_spelling, held_spelling, timer_spelling, name_spelling, record_spelling, delivery_spelling, signed_spelling, flag_spelling, DeliveryFits};
ghost use Rattle.row_parts.specs.Reading.{Gives, key_at, id_at, window_at, held_at, timer_at, name_at, after_key_at, record_at, delivery_at};

use crate::lists::{InFours, Ranked};
use crate::refusal::StateRefusal;
use crate::spelled::Spelled;
use crate::words::{two_words, two_words_and_flag, word_and_half};
use mw_types::{
    Delivery, HeldTotal, Key, KeyRefusal, MAX_STAMP, NoMemory, Record, RecordId, RowName, Timer,
    Window,
};
use std::alloc::Global;

// The key with this text, which may be empty.
fn key_of(alloc: Global, text: &str) -> Result<Key, NoMemory>
    requires { length text.now ≤ 256 }
    ensures { IfOk result (λ key. key ≡ text.now) }
{
    if text.is_empty() {
        return Ok(Key::none(alloc));
    }
    match Key::of(alloc, text) {
        Ok(key) => Ok(key),
        Err(KeyRefusal::NoMemory) => Err(NoMemory),
        Err(KeyRefusal::BadLength) => unreachable!(),
    }
}

impl Spelled for Key {
    ghost spelling = { key_spelling };

    ghost typed = { λ _. ⊤ };

    ghost reading = { key_at };

    fn put(&self, out: &mut Vec<u8>) -> Result<(), NoMemory> {
        let text = self.text().as_bytes();
        (text.len() as u16).put(out)?;
        out.extend_from_slice(text)?;
        Ok(())
    }

    #[tactic(auto, unfolding(crate::specs::Reading::key_at))]
    fn take(alloc: Global, bytes: &[u8]) -> Result<(Key, &[u8]), StateRefusal> {
        let (len, rest) = u16::take(alloc, bytes)?;
        let len = len as usize;
        if len > 256 || rest.len() < len {
            return Err(StateRefusal::Damaged);
        }
        let (front, rest) = rest.split_at(len);
        match std::str::from_utf8(front) {
            Ok(text) => Ok((key_of(alloc, text)?, rest)),
            Err(_) => Err(StateRefusal::Damaged),
        }
    }
}

// The bytes of an id.
fn id_bytes(id: RecordId) -> [u8; 12]
    ensures { result ≡ id_spelling id }
{
    word_and_half(id.commit, id.index)
}

impl Spelled for RecordId {
    ghost spelling = { id_spelling };

    ghost typed = { λ _. ⊤ };

    ghost reading = { id_at };

    fn put(&self, out: &mut Vec<u8>) -> Result<(), NoMemory> {
        out.extend_from_slice(&id_bytes(*self))?;
        Ok(())
    }

    #[tactic(auto, unfolding(crate::specs::Reading::id_at))]
    fn take(alloc: Global, bytes: &[u8]) -> Result<(RecordId, &[u8]), StateRefusal> {
        let (commit, rest) = u64::take(alloc, bytes)?;
        let (index, rest) = u32::take(alloc, rest)?;
        if commit < 1 << 32 && index < 512 {
            Ok((RecordId { commit, index }, rest))
        } else {
            Err(StateRefusal::Damaged)
        }
    }
}

impl InFours for RecordId {
    fn put_four(
        &self,
        second: &RecordId,
        third: &RecordId,
        fourth: &RecordId,
        out: &mut Vec<u8>,
    ) -> Result<(), NoMemory> {
        let four = [
            id_bytes(*self),
            id_bytes(*second),
            id_bytes(*third),
            id_bytes(*fourth),
        ];
        out.extend_from_slice(four.as_flattened())?;
        Ok(())
    }
}

impl Ranked for RecordId {
    ghost use Rattle.mw_types.proofs.OrderLaws.{id_cmp-total};

    ghost rank = { id_cmp };

    fn is_below(&self, other: &RecordId) -> bool {
        self < other
    }

    ghost total = { id_cmp-total };
}

// The bytes of an open window.
fn window_bytes(window: Window) -> [u8; 16]
    ensures { result ≡ window_spelling window }
{
    two_words(window.end, window.count)
}

impl Spelled for Window {
    ghost spelling = { window_spelling };

    ghost typed = { λ _. ⊤ };

    ghost reading = { window_at };

    fn put(&self, out: &mut Vec<u8>) -> Result<(), NoMemory> {
        out.extend_from_slice(&window_bytes(*self))?;
        Ok(())
    }

    #[tactic(auto, unfolding(crate::specs::Reading::window_at))]
    fn take(alloc: Global, bytes: &[u8]) -> Result<(Window, &[u8]), StateRefusal> {
        let (end, rest) = u64::take(alloc, bytes)?;
        let (count, rest) = u64::take(alloc, rest)?;
        if end <= MAX_STAMP && count <= MAX_STAMP {
            Ok((Window { end, count }, rest))
        } else {
            Err(StateRefusal::Damaged)
        }
    }
}

impl InFours for Window {
    fn put_four(
        &self,
        second: &Window,
        third: &Window,
        fourth: &Window,
        out: &mut Vec<u8>,
    ) -> Result<(), NoMemory> {
        let four = [
            window_bytes(*self),
            window_bytes(*second),
            window_bytes(*third),
            window_bytes(*fourth),
        ];
        out.extend_from_slice(four.as_flattened())?;
        Ok(())
    }
}

impl Ranked for Window {
    ghost use Rattle.row_parts.specs.Orders.{window_cmp, window_cmp-total};

    ghost rank = { window_cmp };

    fn is_below(&self, other: &Window) -> bool {
        self.end < other.end
    }

    ghost total = { window_cmp-total };
}

// The bytes of a held total.
fn held_bytes(held: HeldTotal) -> [u8; 16]
    ensures bytes { result ≡ held_spelling held }
    ensures value { FitsSigned w64 held.value }
{
    two_words(held.stamp, held.value.cast_unsigned())
}

impl Spelled for HeldTotal {
    ghost spelling = { held_spelling };

    ghost typed = { λ h. FitsSigned w64 h.value };

    ghost reading = { held_at };

    fn put(&self, out: &mut Vec<u8>) -> Result<(), NoMemory> {
        out.extend_from_slice(&held_bytes(*self))?;
        Ok(())
    }

    #[tactic(auto, unfolding(crate::specs::Reading::held_at))]
    fn take(alloc: Global, bytes: &[u8]) -> Result<(HeldTotal, &[u8]), StateRefusal> {
        let (stamp, rest) = u64::take(alloc, bytes)?;
        let (value, rest) = i64::take(alloc, rest)?;
        if stamp <= MAX_STAMP {
            Ok((HeldTotal { stamp, value }, rest))
        } else {
            Err(StateRefusal::Damaged)
        }
    }
}

impl InFours for HeldTotal {
    fn put_four(
        &self,
        second: &HeldTotal,
        third: &HeldTotal,
        fourth: &HeldTotal,
        out: &mut Vec<u8>,
    ) -> Result<(), NoMemory> {
        let four = [
            held_bytes(*self),
            held_bytes(*second),
            held_bytes(*third),
            held_bytes(*fourth),
        ];
        out.extend_from_slice(four.as_flattened())?;
        Ok(())
    }
}

impl Ranked for HeldTotal {
    ghost use Rattle.row_parts.specs.Orders.{held_cmp, held_cmp-total};

    ghost rank = { held_cmp };

    fn is_below(&self, other: &HeldTotal) -> bool {
        self.stamp < other.stamp
    }

    ghost total = { held_cmp-total };
}

// The bytes of a timer.
fn timer_bytes(timer: Timer) -> [u8; 17]
    ensures bytes { result ≡ timer_spelling timer }
    ensures tag { timer.tag < 2 ^ 64 }
{
    two_words_and_flag(timer.time, timer.tag, timer.late)
}

impl Spelled for Timer {
    ghost spelling = { timer_spelling };

    ghost typed = { λ t. t.tag < 2 ^ 64 };

    ghost reading = { timer_at };

    fn put(&self, out: &mut Vec<u8>) -> Result<(), NoMemory> {
        out.extend_from_slice(&timer_bytes(*self))?;
        Ok(())
    }

    #[tactic(auto, unfolding(crate::specs::Reading::timer_at))]
    fn take(alloc: Global, bytes: &[u8]) -> Result<(Timer, &[u8]), StateRefusal> {
        let (time, rest) = u64::take(alloc, bytes)?;
        let (tag, rest) = u64::take(alloc, rest)?;
        let (late, rest) = bool::take(alloc, rest)?;
        if time <= MAX_STAMP {
            Ok((Timer { tag, time, late }, rest))
        } else {
            Err(StateRefusal::Damaged)
        }
    }
}

impl InFours for Timer {
    fn put_four(
        &self,
        second: &Timer,
        third: &Timer,
        fourth: &Timer,
        out: &mut Vec<u8>,
    ) -> Result<(), NoMemory> {
        let four = [
            timer_bytes(*self),
            timer_bytes(*second),
            timer_bytes(*third),
            timer_bytes(*fourth),
        ];
        out.extend_from_slice(four.as_flattened())?;
        Ok(())
    }
}

impl Ranked for Timer {
    ghost use Rattle.row_parts.specs.Orders.{timer_cmp-total};

    ghost rank = { timer_cmp };

    fn is_below(&self, other: &Timer) -> bool {
        self.time < other.time || self.time == other.time && self.tag < other.tag
    }

    ghost total = { timer_cmp-total };
}

impl Spelled for RowName {
    ghost spelling = { name_spelling };

    ghost typed = { λ name. name.part < 2 ^ 32 };

    ghost reading = { name_at };

    fn put(&self, out: &mut Vec<u8>) -> Result<(), NoMemory> {
        self.part.put(out)?;
        self.key.put(out)?;
        Ok(())
    }

    #[tactic(auto, unfolding(crate::specs::Reading::name_at))]
    fn take(alloc: Global, bytes: &[u8]) -> Result<(RowName, &[u8]), StateRefusal> {
        let (part, rest) = u32::take(alloc, bytes)?;
        let (key, rest) = Key::take(alloc, rest)?;
        Ok((RowName { part, key }, rest))
    }
}

// The bytes of a record that follow its key.
fn bytes_after_key(item: &Record) -> [u8; 17]
    ensures bytes { result ≡ concat (to_be_bytes w64 item.now.stamp
        ∷ signed_spelling item.now.value ∷ flag_spelling item.now.late ∷ []) }
    ensures value { FitsSigned w64 item.now.value }
{
    two_words_and_flag(item.stamp, item.value.cast_unsigned(), item.late)
}

// Reads what follows the key of a record: its stamp, its value, and whether it is late.
#[tactic(auto, unfolding(crate::specs::Reading::after_key_at))]
fn take_after_key(alloc: Global, bytes: &[u8]) -> Result<((u64, (i64, bool)), &[u8]), StateRefusal>
    ensures { Gives (λ x. (x.0, x.1.now)) result (after_key_at bytes.now) }
{
    let (stamp, rest) = u64::take(alloc, bytes)?;
    let (value, rest) = i64::take(alloc, rest)?;
    let (late, rest) = bool::take(alloc, rest)?;
    if stamp <= MAX_STAMP {
        Ok(((stamp, (value, late)), rest))
    } else {
        Err(StateRefusal::Damaged)
    }
}

impl Spelled for Record {
    ghost spelling = { record_spelling };

    ghost typed = { λ r. FitsSigned w64 r.value };

    ghost reading = { record_at };

    fn put(&self, out: &mut Vec<u8>) -> Result<(), NoMemory> {
        self.key.put(out)?;
        out.extend_from_slice(&bytes_after_key(self))?;
        Ok(())
    }

    #[tactic(auto, unfolding(crate::specs::Reading::record_at))]
    fn take(alloc: Global, bytes: &[u8]) -> Result<(Record, &[u8]), StateRefusal> {
        let (key, rest) = Key::take(alloc, bytes)?;
        let ((stamp, (value, late)), rest) = take_after_key(alloc, rest)?;
        let item = Record {
            key,
            stamp,
            value,
            late,
        };
        Ok((item, rest))
    }
}

impl Spelled for Delivery {
    ghost spelling = { delivery_spelling };

    ghost typed = { DeliveryFits };

    ghost reading = { delivery_at };

    fn put(&self, out: &mut Vec<u8>) -> Result<(), NoMemory> {
        self.id.put(out)?;
        self.to.put(out)?;
        self.item.put(out)?;
        Ok(())
    }

    #[tactic(auto, unfolding(crate::specs::Reading::delivery_at))]
    fn take(alloc: Global, bytes: &[u8]) -> Result<(Delivery, &[u8]), StateRefusal> {
        let (id, rest) = RecordId::take(alloc, bytes)?;
        let (to, rest) = RowName::take(alloc, rest)?;
        let (item, rest) = Record::take(alloc, rest)?;
        Ok((Delivery { id, to, item }, rest))
    }
}

impl Ranked for Delivery {
    ghost use Rattle.row_parts.specs.Orders.{delivery_cmp-total};

    ghost rank = { delivery_cmp };

    fn is_below(&self, other: &Delivery) -> bool {
        self.id < other.id
    }

    ghost total = { delivery_cmp-total };
}
