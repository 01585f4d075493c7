//! States that are written to bytes and read from them.
ghost use Rattle.std.specs.Prelude.{◌≡◌, ◌≢◌, ◌++◌, ◌<◌, ◌≤◌, ◌^◌, length, All, Ok, IfOk, IfSome, OnOk, IsErrOf, MatchResult};
ghost use Rattle.mw_types.specs.declared.state.State.{State};
ghost use Rattle.mw_types.specs.declared.state.State.TheVariants.{Count, Spike};
ghost use Rattle.mw_types.specs.Bounds.{IsWithin};
ghost use Rattle.row_parts.specs.Spelling.{list_spelling, state_spelling, FitsBytes, IsSpelledState};
ghost use Rattle.row_parts.specs.Reading.{Gives, ascending_at, injector_at, count_at, spike_at, pass_at, state_of, state_at, whole_state};

use crate::lists::{InFours, Ranked, put_in_fours, put_list, take_ascending, take_list};
use crate::refusal::StateRefusal;
use crate::spelled::Spelled;
use mw_types::{
    Bytes, HeldList, HeldTotal, MAX_STAMP, NoMemory, SharedList, State, Window, WindowList,
};
use std::alloc::Global;

// The greatest number of known values.
const KNOWN_MAX: usize = 64;

// The elements of a list where they lie side by side, as those of a short one do.
fn side_by_side<X: Copy + Drop>(list: &SharedList<X>) -> Option<&[X]>
    ensures { IfSome result (λ run. run.now ≡ list.now) }
{
    if list.is_empty() {
        return Some(&[]);
    }
    let run = list.run_at(0);
    if run.len() == list.len() {
        Some(run)
    } else {
        None
    }
}

// Appends the bytes of a list that may lie in pieces.
fn put_shared<X: InFours + Copy>(out: &mut Vec<u8>, list: &SharedList<X>) -> Result<(), NoMemory>
    requires { length list.now < 2 ^ 32 }
    ensures written { let spelt = list_spelling X.spelling list.now in
        OnOk result (out.new.items ≡ out.old.items ++ spelt) }
    ensures typed { OnOk result (All X.typed list.now) }
{
    match side_by_side(list) {
        Some(run) => put_in_fours(out, run),
        None => put_in_fours(out, &list.flat(*out.allocator())?),
    }
}

// Appends the bytes of a count's state.
fn put_count(out: &mut Vec<u8>, late: u64, windows: &WindowList) -> Result<(), NoMemory>
    requires { length windows.now < 2 ^ 32 }
    ensures { let spelt = state_spelling (Count late windows.now) in
        OnOk result (out.new.items ≡ out.old.items ++ spelt) }
{
    out.push(1)?;
    late.put(out)?;
    put_shared(out, windows)
}

// Appends the bytes of a spike's state.
fn put_spike(out: &mut Vec<u8>, late: u64, held: &HeldList, known: &[i64]) -> Result<(), NoMemory>
    requires held { length held.now < 2 ^ 32 }
    requires known { length known.now ≤ 64 }
    ensures written { let spelt = state_spelling (Spike late held.now known.now) in
        OnOk result (out.new.items ≡ out.old.items ++ spelt) }
    ensures fits { OnOk result (FitsBytes (Spike late held.now known.now)) }
{
    out.push(2)?;
    late.put(out)?;
    put_shared(out, held)?;
    put_list(out, known)?;
    Ok(())
}

/// Appends the bytes of a state. Refuses only where memory ran out, and may then have appended some.
pub fn put_state(out: &mut Vec<u8>, state: &State) -> Result<(), NoMemory>
    requires { IsWithin state.now }
    ensures written { OnOk result (out.new.items ≡ out.old.items ++ state_spelling state.now) }
    ensures fits { OnOk result (FitsBytes state.now) }
{
    match state {
        State::Injector { cursor } => {
            out.push(0)?;
            cursor.put(out)
        }
        State::Count { late, windows } => put_count(out, *late, windows),
        State::Spike { late, held, known } => put_spike(out, *late, held, known.as_slice()),
        State::Pass { late } => {
            out.push(3)?;
            late.put(out)
        }
    }
}

/// The bytes of a state.
pub fn state_bytes(alloc: Global, state: &State) -> Result<Bytes, NoMemory>
    requires { IsWithin state.now }
    ensures spelled { IfOk result (λ bytes. bytes ≡ state_spelling state.now) }
    ensures own { OnOk result (IsSpelledState state.now) }
{
    let mut out = Vec::with_capacity(alloc, 64)?;
    put_state(&mut out, state)?;
    Ok(Bytes::from_vec(out))
}

// Reads what follows the kind of an injector's state.
#[tactic(auto, unfolding(crate::specs::Reading::injector_at))]
fn take_injector(alloc: Global, bytes: &[u8]) -> Result<(State, &[u8]), StateRefusal>
    ensures { Gives (λ x. (x.0, x.1.now)) result (injector_at bytes.now) }
{
    let (cursor, rest) = u32::take(alloc, bytes)?;
    Ok((State::Injector { cursor }, rest))
}

// Reads a list that stands in order from the front, as one whose copies share memory.
fn take_shared<X: Ranked + Copy>(
    alloc: Global,
    bytes: &[u8],
) -> Result<(SharedList<X>, &[u8]), StateRefusal>
    ensures { Gives (λ x. (x.0, x.1.now)) result (ascending_at X.rank X.reading bytes.now) }
{
    let (list, rest) = take_ascending::<X>(alloc, bytes)?;
    let list = SharedList::of(alloc, list.into_vec())?;
    Ok((list, rest))
}

// Reads what follows the kind of a count's state.
#[tactic(auto, unfolding(crate::specs::Reading::count_at))]
fn take_count(alloc: Global, bytes: &[u8]) -> Result<(State, &[u8]), StateRefusal>
    ensures { Gives (λ x. (x.0, x.1.now)) result (count_at bytes.now) }
{
    let (late, rest) = u64::take(alloc, bytes)?;
    let (windows, rest) = take_shared::<Window>(alloc, rest)?;
    if late <= MAX_STAMP {
        Ok((State::Count { late, windows }, rest))
    } else {
        Err(StateRefusal::Damaged)
    }
}

// Reads what follows the kind of a spike's state.
#[tactic(auto, unfolding(crate::specs::Reading::spike_at))]
fn take_spike(alloc: Global, bytes: &[u8]) -> Result<(State, &[u8]), StateRefusal>
    ensures { Gives (λ x. (x.0, x.1.now)) result (spike_at bytes.now) }
{
    let (late, rest) = u64::take(alloc, bytes)?;
    let (held, rest) = take_shared::<HeldTotal>(alloc, rest)?;
    let (known, rest) = take_list::<i64>(alloc, rest)?;
    if late <= MAX_STAMP && known.len() <= KNOWN_MAX {
        Ok((State::Spike { late, held, known }, rest))
    } else {
        Err(StateRefusal::Damaged)
    }
}

// Reads what follows the kind of a pass's state.
#[tactic(auto, unfolding(crate::specs::Reading::pass_at))]
fn take_pass(alloc: Global, bytes: &[u8]) -> Result<(State, &[u8]), StateRefusal>
    ensures { Gives (λ x. (x.0, x.1.now)) result (pass_at bytes.now) }
{
    let (late, rest) = u64::take(alloc, bytes)?;
    if late <= MAX_STAMP {
        Ok((State::Pass { late }, rest))
    } else {
        Err(StateRefusal::Damaged)
    }
}

// Reads what follows a state's kind.
fn take_kind(alloc: Global, kind: u8, bytes: &[u8]) -> Result<(State, &[u8]), StateRefusal>
    ensures { Gives (λ x. (x.0, x.1.now)) result (state_of kind bytes.now) }
{
    match kind {
        0 => take_injector(alloc, bytes),
        1 => take_count(alloc, bytes),
        2 => take_spike(alloc, bytes),
        3 => take_pass(alloc, bytes),
        _ => Err(StateRefusal::Damaged),
    }
}

/// Reads a state from the front, and answers the bytes after it too. Refuses bytes at whose front no
/// state stands.
#[tactic(auto, unfolding(crate::specs::Reading::state_at))]
pub fn take_state(alloc: Global, bytes: &[u8]) -> Result<(State, &[u8]), StateRefusal>
    ensures { Gives (λ x. (x.0, x.1.now)) result (state_at bytes.now) }
{
    match bytes {
        [] => Err(StateRefusal::Damaged),
        [kind, rest @ ..] => take_kind(alloc, *kind, rest),
    }
}

// Reads a state that is all of the bytes.
#[tactic(auto, unfolding(crate::specs::Reading::whole_state))]
fn take_whole(alloc: Global, bytes: &[u8]) -> Result<State, StateRefusal>
    ensures { Gives (λ state. state) result (whole_state bytes.now) }
{
    let (state, rest) = take_state(alloc, bytes)?;
    if rest.is_empty() {
        Ok(state)
    } else {
        Err(StateRefusal::Damaged)
    }
}

/// The state whose bytes these are, all of them. Refuses bytes that are no state's spelling.
pub fn read_state(alloc: Global, bytes: &[u8]) -> Result<State, StateRefusal>
    // What is answered has these bytes.
    ensures found { IfOk result (λ s. IsSpelledState s × (bytes.now ≡ state_spelling s)) }
    // The state that has these bytes is answered, unless memory runs out.
    ensures only { (state : State) → IsSpelledState state → bytes.now ≡ state_spelling state
        → MatchResult result (λ s. s ≡ state) (λ refusal. refusal ≡ StateRefusal.NoMemory) }
    // Damaged is answered only where no state has these bytes.
    ensures damaged { IsErrOf result StateRefusal.Damaged
        → (state : State) → IsSpelledState state → bytes.now ≢ state_spelling state }
{
    take_whole(alloc, bytes)
}
