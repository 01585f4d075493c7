//! Two seats work off the first of two lines, each call of a turn in a turn of its own; between the turns they load and
//! raise marks, one of them under a lease that the other has overtaken.
ghost use Rattle.std.specs.Prelude.{◌≡◌, ◌<◌, ◌∷◌, [], IsSome, None, length, true};
ghost use Rattle.mw_types.specs.declared.delivery.Delivery.{Delivery};
ghost use Rattle.row_parts.specs.Contents.{found_delivery};
ghost use Rattle.run_history.specs.Fits.{fits, suits_part};
ghost use Rattle.book.specs.declared.proposal.Proposal.TheVariants as proposals;
ghost use Rattle.worked_examples.specs.First.{counts, record_at, row_a, window};
ghost use Rattle.worked_examples.specs.Drained.{id_of, injector_row};
ghost use Rattle.worked_examples.specs.Rising.{rise_case};
ghost use Rattle.shared_book.specs.Lists.{IsIn};
ghost use Rattle.shared_book.specs.Turns.{IsHere};
ghost use Rattle.engine_tests.specs.TestSeats.{HasGoneOn, IsAtRest};

use super::example::{counts, none_open, row_a};
use super::starts::shared_among;
use super::turn_calls::{caught_up, claimed, left, loaded, met, purged, raised, settled, written};
use crate::tests::entries::{Told, has_left};
use crate::tests::keepers::blind;
use crate::tests::must;
use crate::tests::two_lines::{key_a, two_line_case};
use book::{Lease, Proposal, Written};
use mw_types::{Delivery, Key, Record, RecordId, RowName, State};
use row_keeper::Keeper;
use row_parts::Row;
use run_history::Case;
use shared_book::{Note, Seat, Shared};
use std::alloc::Global;
use std::process::Abort;

// The first record of entry 1.
const RECORD: RecordId = RecordId {
    commit: 1,
    index: 0,
};

// One seat claims the injector's interval and injects the line, of which then two works are left: its record, and the
// second line. The record is at 10.
const INJECTED: [u64; 4] = [0, 1, 2, 10];

// The other claims the interval of the count, loads the injector's mark, and handles the record: then the window's timer
// is left too. It may raise no mark above what it had loaded of the injector's when it last gave a turn back.
const HANDLED: [u64; 5] = [2, 10, 3, 3, 10];

// The first claims the interval of the count as well, settles the record and raises the injector's mark to the second
// line's watermark. The other loads that, and its stale lease raises nothing; the first may raise the count's mark once
// it has given a turn back behind that. Then it purges the count's row: the timer and the second line are left.
const OVERTAKEN: [u64; 8] = [4, 5, 60, 60, 10, 60, 6, 2];

// What was appended.
const ENTRIES: &[Told] = &[
    Told::Claim(0, 0),
    Told::Inject(0, 0),
    Told::Claim(1, 1),
    Told::Handle(2, 1),
    Told::Claim(0, 1),
    Told::Ack(0, 1),
    Told::Purge(4, 6),
];

// The name of the injector's row.
fn injector_row(alloc: Global) -> RowName
    ensures { result ≡ injector_row }
{
    RowName {
        part: 0,
        key: Key::none(alloc),
    }
}

// That the record was handled, which opens a window.
fn handling(rt: &impl Abort, alloc: Global) -> Proposal
    ensures { let delivery : Delivery = record { id = id_of 1; to = row_a; item = record_at 10 } in
        result ≡ proposals.Handle delivery (counts (window 60 1 ∷ []) 60) }
{
    let delivery = Delivery {
        id: RECORD,
        to: row_a(rt, alloc),
        item: Record {
            key: key_a(rt, alloc),
            stamp: 10,
            value: 1,
            late: false,
        },
    };
    Proposal::Handle {
        delivery,
        effects: counts(rt, alloc),
    }
}

// The record is pending in a row. The test ends where it is not.
fn has_record(rt: &impl Abort, row: &Row)
    ensures { IsSome (found_delivery (id_of 1) row.now.pending) }
{
    if !row.is_pending(RECORD) {
        rt.panic("the record is not pending")
    }
}

// Nothing is pending in a row, and its floor is low. The test ends where that is not so.
fn can_purge(rt: &impl Abort, row: &Row)
    ensures none { row.now.pending ≡ [] }
    ensures low { row.now.floor < 6 }
{
    if !row.pending.is_empty() || row.floor >= 6 {
        rt.panic("the row cannot be purged")
    }
}

// The injector's row settles the record.
fn settle<K: Keeper>(
    rt: &impl Abort,
    alloc: Global,
    shared: &Shared<'_, K>,
    seat: &mut Seat<K>,
    lease: &Lease,
    row: &Row,
) -> u64
    requires case { shared.now.case.now ≡ rise_case }
    requires untold { seat.old.place.me.0.basis.told ≡ None }
    requires rest { let table = shared.now.table.shared in
        IsAtRest table.table_id shared.now.case.now 2 (0 ∷ []) seat.old.place }
    requires held { IsIn lease.now seat.old.place.me.0.leases }
    requires of { lease.now.interval ≡ 0 }
    requires fit { let seen = length seat.old.place.me.0.front in
        fits rise_case seen injector_row row.now ≡ true }
    ensures rest { let table = shared.now.table.shared in
        IsAtRest table.table_id shared.now.case.now 2 (0 ∷ []) seat.new.place }
    ensures on { HasGoneOn seat.old.place.me.0 seat.new.place.me.0 }
{
    has_record(rt, row);
    let name = injector_row(alloc);
    let commit = settled(rt, alloc, shared, seat, lease, &name, row, RECORD);
    drop(name);
    commit
}

// The count's row is purged.
fn purge<K: Keeper>(
    rt: &impl Abort,
    alloc: Global,
    shared: &Shared<'_, K>,
    seat: &mut Seat<K>,
    lease: &Lease,
    row: &Row,
) -> u64
    requires case { shared.now.case.now ≡ rise_case }
    requires untold { seat.old.place.me.0.basis.told ≡ None }
    requires rest { let table = shared.now.table.shared in
        IsAtRest table.table_id shared.now.case.now 2 (0 ∷ []) seat.old.place }
    requires held { IsIn lease.now seat.old.place.me.0.leases }
    requires of { lease.now.interval ≡ 1 }
    requires fit { suits_part rise_case 1 row.now ≡ true }
    ensures rest { let table = shared.now.table.shared in
        IsAtRest table.table_id shared.now.case.now 2 (0 ∷ []) seat.new.place }
    ensures on { HasGoneOn seat.old.place.me.0 seat.new.place.me.0 }
{
    can_purge(rt, row);
    let name = row_a(rt, alloc);
    let commit = purged(rt, alloc, shared, seat, lease, &name, row, 6);
    drop(name);
    commit
}

// A seat injects the line: its lease, and the injector's row.
fn inject<K: Keeper>(
    rt: &impl Abort,
    alloc: Global,
    shared: &Shared<'_, K>,
    seat: &mut Seat<K>,
) -> (Lease, Row)
    requires case { shared.now.case.now ≡ rise_case }
    requires untold { seat.old.place.me.0.basis.told ≡ None }
    requires rest { let table = shared.now.table.shared in
        IsAtRest table.table_id shared.now.case.now 2 (0 ∷ []) seat.old.place }
    ensures rest { let table = shared.now.table.shared in
        IsAtRest table.table_id shared.now.case.now 2 (0 ∷ []) seat.new.place }
    ensures on { HasGoneOn seat.old.place.me.0 seat.new.place.me.0 }
    ensures held { IsIn result.0 seat.new.place.me.0.leases }
    ensures of { result.0.interval ≡ 0 }
    ensures fit { let seen = length seat.new.place.me.0.front in
        fits rise_case seen injector_row result.1 ≡ true }
{
    let lease = claimed(rt, alloc, shared, seat, 0, 0);
    let name = injector_row(alloc);
    let row = Row::new(alloc, State::Injector { cursor: 0 });
    let proposal = Proposal::Inject { line: 0 };
    let injected = written(rt, alloc, shared, seat, &lease, &name, &row, &proposal);
    drop(proposal);
    drop(row);
    drop(name);
    let Written { commit, row } = injected;
    let left = left(rt, shared, seat);
    let mark = raised(shared, seat, &lease, 10);
    must(
        rt,
        [lease.seq(), commit, left, mark] == INJECTED,
        "the line is injected",
    );
    (lease, row)
}

// A seat meets a note of the other, and handles the record: its lease, and the count's row.
fn handle<K: Keeper>(
    rt: &impl Abort,
    alloc: Global,
    shared: &Shared<'_, K>,
    seat: &mut Seat<K>,
    note: Note<K>,
) -> (Lease, Row)
    requires case { shared.now.case.now ≡ rise_case }
    requires note { let table = shared.now.table.shared in
        IsHere table.table_id shared.now.case.now note.place }
    requires untold { seat.old.place.me.0.basis.told ≡ None }
    requires rest { let table = shared.now.table.shared in
        IsAtRest table.table_id shared.now.case.now 2 (1 ∷ []) seat.old.place }
    ensures rest { let table = shared.now.table.shared in
        IsAtRest table.table_id shared.now.case.now 2 (1 ∷ []) seat.new.place }
    ensures on { HasGoneOn seat.old.place.me.0 seat.new.place.me.0 }
    ensures held { IsIn result.0 seat.new.place.me.0.leases }
    ensures of { result.0.interval ≡ 1 }
    ensures fit { suits_part rise_case 1 result.1 ≡ true }
{
    let lease = claimed(rt, alloc, shared, seat, 1, 1);
    met(shared, seat, note);
    let fed = loaded(shared, seat, 0);
    let name = row_a(rt, alloc);
    let row = Row::new(alloc, none_open(alloc));
    let proposal = handling(rt, alloc);
    let handled = written(rt, alloc, shared, seat, &lease, &name, &row, &proposal);
    drop(proposal);
    drop(row);
    drop(name);
    let Written { commit, row } = handled;
    let left = left(rt, shared, seat);
    let mark = raised(shared, seat, &lease, 60);
    must(
        rt,
        [lease.seq(), fed, commit, left, mark] == HANDLED,
        "the record is handled",
    );
    (lease, row)
}

// The first seat goes on with the interval of the count, which it claims, and the other's lease is stale.
fn overtake<K: Keeper>(
    rt: &impl Abort,
    alloc: Global,
    shared: &Shared<'_, K>,
    one: &mut Seat<K>,
    other: &mut Seat<K>,
    leases: (&Lease, &Lease),
    rows: (&Row, &Row),
)
    requires case { shared.now.case.now ≡ rise_case }
    requires untold { one.old.place.me.0.basis.told ≡ None }
    requires other_untold { other.old.place.me.0.basis.told ≡ None }
    requires one { let table = shared.now.table.shared in
        IsAtRest table.table_id shared.now.case.now 2 (0 ∷ []) one.old.place }
    requires other { let table = shared.now.table.shared in
        IsAtRest table.table_id shared.now.case.now 2 (1 ∷ []) other.old.place }
    requires held { IsIn leases.0.now one.old.place.me.0.leases }
    requires of { leases.0.now.interval ≡ 0 }
    requires other_held { IsIn leases.1.now other.old.place.me.0.leases }
    requires sent { let seen = length one.old.place.me.0.front in
        fits rise_case seen injector_row rows.0.now ≡ true }
    requires counted { suits_part rise_case 1 rows.1.now ≡ true }
    ensures one { let table = shared.now.table.shared in
        IsAtRest table.table_id shared.now.case.now 2 (0 ∷ []) one.new.place }
    ensures other { let table = shared.now.table.shared in
        IsAtRest table.table_id shared.now.case.now 2 (1 ∷ []) other.new.place }
{
    let lease = claimed(rt, alloc, shared, one, 0, 1);
    let acked = settle(rt, alloc, shared, one, leases.0, rows.0);
    let source = raised(shared, one, leases.0, 60);
    let fed = loaded(shared, other, 0);
    let stale = raised(shared, other, leases.1, 60);
    caught_up(rt, shared, one);
    let mark = raised(shared, one, &lease, 60);
    let floor = purge(rt, alloc, shared, one, &lease, rows.1);
    let left = left(rt, shared, one);
    let told = [lease.seq(), acked, source, fed, stale, mark, floor, left];
    drop(lease);
    must(rt, told == OVERTAKEN, "the first seat goes on");
}

// Both seats, in their order.
fn take_turns<K: Keeper>(
    rt: &impl Abort,
    alloc: Global,
    shared: &Shared<'_, K>,
    one: &mut Seat<K>,
    other: &mut Seat<K>,
)
    requires case { shared.now.case.now ≡ rise_case }
    requires untold { one.old.place.me.0.basis.told ≡ None }
    requires other_untold { other.old.place.me.0.basis.told ≡ None }
    requires one { let table = shared.now.table.shared in
        IsAtRest table.table_id shared.now.case.now 2 (0 ∷ []) one.old.place }
    requires other { let table = shared.now.table.shared in
        IsAtRest table.table_id shared.now.case.now 2 (1 ∷ []) other.old.place }
    ensures one { let table = shared.now.table.shared in
        IsAtRest table.table_id shared.now.case.now 2 (0 ∷ []) one.new.place }
    ensures other { let table = shared.now.table.shared in
        IsAtRest table.table_id shared.now.case.now 2 (1 ∷ []) other.new.place }
{
    let (source, sent) = inject(rt, alloc, shared, one);
    let note = shared.note(one);
    let (count, counted) = handle(rt, alloc, shared, other, note);
    let (leases, rows) = ((&source, &count), (&sent, &counted));
    overtake(rt, alloc, shared, one, other, leases, rows);
    drop(counted);
    drop(count);
    drop(sent);
    drop(source);
}

// Two seats of a new book, and what stands in it once they are joined.
fn over_two_seats(rt: &impl Abort, alloc: Global, case: &Case)
    requires case { case.now ≡ rise_case }
{
    let keeper = blind(rt, alloc, 7, &[]);
    let (shared, seat) = shared_among(rt, alloc, case, keeper, 8, 2);
    let mut other = seat;
    let mut one = shared.deal(&mut other);
    take_turns(rt, alloc, &shared, &mut one, &mut other);
    shared.join(&mut other, one);
    let book = shared.close(other);
    has_left(rt, &book, ENTRIES, &[60, 60]);
    drop(book);
}

#[test]
fn each_call_of_a_turn(rt: HostRuntime) {
    let case = two_line_case(&rt, rt.alloc());
    over_two_seats(&rt, rt.alloc(), &case);
    drop(case);
}
