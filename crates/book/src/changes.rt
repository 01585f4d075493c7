//! What a proposal changes in the row of its entry.
ghost use Rattle.std.specs.Prelude.{◌≡◌, ◌++◌, ◌∷◌, ◌<◌, ◌≤◌, ◌^◌, All, [], IfOk, IfSome, IsTrue, OnOk, Some, false, length, true};
ghost use Rattle.std.specs.Option.{option_map, unwrap_or};
ghost use Rattle.mw_types.specs.declared.TheConstants.{MAX_STAMP};
ghost use Rattle.mw_types.specs.declared.record.Production.{Production};
ghost use Rattle.injector.specs.Sources.{item_at};
ghost use Rattle.topology.specs.Shapes.{parts_of};
ghost use Rattle.row_parts.specs.Contents.{AreTimers, IsId, is_finished, without_timer};
ghost use Rattle.run_history.specs.Cases.{record_of, source_of};
ghost use Rattle.run_history.specs.Made.{deliveries_made};
ghost use Rattle.run_history.specs.Runs.{advanced, fired_in, handled_in, with_timers};
ghost use Rattle.run_history.specs.Fits.{fits};
ghost use Rattle.book.specs.Drafts.{AreOwn, MayDraft, drafted};
ghost use Rattle.book.specs.Proposals.{IsFiring, IsHandling, IsNextLine};

use crate::drafts::Draft;
use crate::entries::{production_of, record_of};
use crate::pending::sent;
use mw_types::{
    Delivery, Duplicate, Effects, NoMemory, Production, Record, RecordId, RowName, State, Timer,
    TimerList,
};
use row_parts::{Own, Row, is_set, set_timer, take_timer};
use run_history::Case;
use std::alloc::Global;
use std::slice::from_ref;

// The record of an injected line, and what the line changes.
#[derive(Drop)]
pub(crate) struct Injected {
    pub(crate) item: Record,
    pub(crate) draft: Draft,
}

// What an injected line changes, and its record.
pub(crate) fn injecting(
    alloc: Global,
    case: &Case,
    name: &RowName,
    row: &Row,
    line: u32,
    commit: u64,
) -> Result<Injected, NoMemory>
    requires line { IsNextLine case.now name.now row.now line }
    requires fit { fits case.now commit name.now row.now ≡ true }
    requires commit { commit < 2 ^ 32 }
    ensures item { let source = source_of case.now name.now.part in IfOk result
        (λ made. option_map record_of (item_at source line) ≡ Some made.item) }
    ensures may { IfOk result (λ made. MayDraft row.now made.draft) }
    ensures left { IfOk result (λ made.
        let item = made.item in
        let production : Production
        = record { key = item.key; stamp = item.stamp; value = item.value } in
        let sent = deliveries_made case.now.topology name.now.part
        (production ∷ []) item.late commit in
        drafted made.draft commit row.now ≡ record row.now {
          state = advanced row.now.state;
          pending = row.now.pending ++ sent;
          last = commit;
        }) }
{
    let item = case.line_record(alloc, name.part, line)?;
    let late = item.late;
    let production = production_of(item);
    let own = Own {
        state: Some(State::Injector { cursor: line + 1 }),
        timers: None,
    };
    let productions = from_ref(&production);
    match sending(alloc, case, name, row, own, None, productions, late, commit) {
        Ok(draft) => Ok(Injected {
            item: record_of(production, late),
            draft,
        }),
        Err(want) => {
            drop(production);
            Err(want)
        }
    }
}

// What a handled record changes.
pub(crate) fn handling(
    alloc: Global,
    case: &Case,
    name: &RowName,
    row: &Row,
    delivery: &Delivery,
    effects: &Effects,
    commit: u64,
) -> Result<Draft, NoMemory>
    requires handling { IsHandling case.now name.now row.now delivery.now effects.now }
    requires fit { fits case.now commit name.now row.now ≡ true }
    requires commit { commit < 2 ^ 32 }
    ensures may { IfOk result (MayDraft row.now) }
    ensures left { let late = delivery.now.item.late in
        let made = effects.now.productions in
        let sent = deliveries_made case.now.topology name.now.part made late commit in
        IfOk result (λ draft. drafted draft commit row.now
        ≡ record (handled_in delivery.now.id effects.now sent row.now) { last = commit }) }
{
    let timers = timers_set(alloc, &row.timers, effects.timers.as_slice())?;
    let own = with_state(alloc, &effects.state, timers)?;
    let made = effects.productions.as_slice();
    let late = delivery.item.late;
    sending(
        alloc,
        case,
        name,
        row,
        own,
        Some(delivery.id),
        made,
        late,
        commit,
    )
}

// What a fired timer changes.
pub(crate) fn firing(
    alloc: Global,
    case: &Case,
    name: &RowName,
    row: &Row,
    timer: Timer,
    effects: &Effects,
    commit: u64,
) -> Result<Draft, NoMemory>
    requires firing { IsFiring case.now name.now row.now timer effects.now }
    requires fit { fits case.now commit name.now row.now ≡ true }
    requires commit { commit < 2 ^ 32 }
    ensures may { IfOk result (MayDraft row.now) }
    ensures left { let made = effects.now.productions in
        let sent = deliveries_made case.now.topology name.now.part made timer.late commit in
        IfOk result (λ draft. drafted draft commit row.now
        ≡ record (fired_in timer effects.now sent row.now) { last = commit }) }
{
    let timers = timers_but(alloc, &row.timers, timer)?;
    let own = with_state(alloc, &effects.state, Some(timers))?;
    let made = effects.productions.as_slice();
    sending(alloc, case, name, row, own, None, made, timer.late, commit)
}

// A copy of a state, with these timers if there are any.
fn with_state(alloc: Global, state: &State, timers: Option<TimerList>) -> Result<Own, NoMemory>
    ensures { IfOk result (λ own. own ≡ record { state = Some state.now; timers = timers }) }
{
    match state.copy(alloc) {
        Ok(state) => Ok(Own {
            state: Some(state),
            timers,
        }),
        Err(want) => {
            drop(timers);
            Err(want)
        }
    }
}

// A draft of this, and of what these productions become.
fn sending(
    alloc: Global,
    case: &Case,
    name: &RowName,
    row: &Row,
    own: Own,
    id: Option<RecordId>,
    made: &[Production],
    late: bool,
    commit: u64,
) -> Result<Draft, NoMemory>
    requires part { name.now.part < parts_of case.now.topology }
    requires few { length made.now ≤ 8 }
    requires stamps { All (λ p. p.stamp ≤ MAX_STAMP) made.now }
    requires commit { commit < 2 ^ 32 }
    requires fit { fits case.now commit name.now row.now ≡ true }
    requires own { AreOwn own }
    requires id { IfSome id IsId }
    requires new { IfSome id (λ id. is_finished id row.now ≡ false) }
    ensures may { IfOk result (MayDraft row.now) }
    ensures made { let shape = case.now.topology in
        let sent = deliveries_made shape name.now.part made.now late commit in
        IfOk result (λ draft. draft ≡ record { own = own; id = id; sent = sent }) }
{
    row.sound();
    match sent(alloc, case, name.part, made, late, commit) {
        Ok(sent) => Ok(Draft { own, id, sent }),
        Err(want) => {
            drop(own);
            Err(want)
        }
    }
}

// The timers but for this one.
fn timers_but(alloc: Global, timers: &TimerList, timer: Timer) -> Result<TimerList, NoMemory>
    requires { AreTimers timers.now }
    ensures left { IfOk result (λ left. left ≡ without_timer timer.tag timer.time timers.now) }
    ensures timers { IfOk result AreTimers }
{
    let mut left = timers.copy(alloc)?;
    take_timer(&mut left, timer.tag, timer.time);
    Ok(left)
}

// The timers once these are set too, or none where that changes none of them.
fn timers_set(
    alloc: Global,
    timers: &TimerList,
    set: &[Timer],
) -> Result<Option<TimerList>, NoMemory>
    requires timers { AreTimers timers.now }
    requires times { All (λ t. t.time ≤ MAX_STAMP) set.now }
    ensures set { IfOk result (λ made.
        unwrap_or made timers.now ≡ with_timers set.now timers.now) }
    ensures timers { IfOk result (λ made. IfSome made AreTimers) }
{
    if are_set(timers.as_slice(), set) {
        return Ok(None);
    }
    let mut made = with_room(alloc, timers.as_slice(), set.len())?;
    set_all(&mut made, set)?;
    Ok(Some(made))
}

// Whether these timers are set already, so that to set them again changes nothing.
fn are_set(timers: &[Timer], set: &[Timer]) -> bool
    requires { AreTimers timers.now }
    ensures { IsTrue result → with_timers set.now timers.now ≡ timers.now }
{
    for timer in set {
        if !is_set(timers, *timer) {
            return false;
        }
    }
    true
}

// These timers, with room for so many more.
fn with_room(alloc: Global, timers: &[Timer], more: usize) -> Result<TimerList, NoMemory>
    ensures { IfOk result (λ list. list ≡ timers.now) }
{
    let mut list = Vec::with_capacity(alloc, timers.len().saturating_add(more))?;
    list.extend_from_slice(timers)?;
    Ok(TimerList::from_vec(list))
}

// Sets timers, one after another.
fn set_all(timers: &mut TimerList, set: &[Timer]) -> Result<(), NoMemory>
    requires timers { AreTimers timers.old }
    requires times { All (λ t. t.time ≤ MAX_STAMP) set.now }
    ensures set { OnOk result (timers.new ≡ with_timers set.now timers.old) }
    ensures timers { AreTimers timers.new }
{
    for timer in set {
        set_timer(timers, *timer)?;
    }
    Ok(())
}
