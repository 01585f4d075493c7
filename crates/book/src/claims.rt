//! Claims: each gives a new sequencer, and the rows of its interval.
ghost use Rattle.std.specs.Prelude.{◌≡◌, ◌≢◌, ◌<◌, ◌++◌, ◌∷◌, ◌↔◌, [], List, ℕ, length, map, true, All, IfErr, IfOk, IfSome, IsErrOf, MatchResult, OnErr, OnOk, ◌⊎◌};
ghost use Rattle.std.specs.List.{AllByRecursion};
ghost use Rattle.mw_types.specs.Causes.{HasCause};
ghost use Rattle.mw_types.specs.declared.entry.Entry.TheVariants.{Claim};
ghost use Rattle.mw_types.specs.declared.identity.RowName.{RowName};
ghost use Rattle.topology.specs.Rules.{interval_count};
ghost use Rattle.row_parts.specs.Contents.{Contents};
ghost use Rattle.row_parts.specs.Spelling.{spelling_of};
ghost use Rattle.row_keeper.specs.Rows.{AreInOrder, entry_of};
ghost use Rattle.run_history.specs.Legal.{MayClaim};
ghost use Rattle.run_history.specs.Fits.{fits};
ghost use Rattle.book.specs.Lawful.{IsKeepable};
ghost use Rattle.book.specs.Answers.{HasStayed, IsSameBook};
ghost use Rattle.book.specs.Claims.{AreRowsOf, AreWithin, IsDamaged, IsFirstDamage, IsFoundWithin, bytes_named, named, spelled};
ghost use Rattle.book.specs.declared.answers.NamedRow.{NamedRow};
ghost use Rattle.book.specs.declared.refusals.ClaimRefusal.TheVariants as refusals;

use crate::answers::{Claimed, NamedRow, NamedRowList};
use crate::books::Book;
use crate::fitting::fits;
use crate::lease::Lease;
use crate::refusals::ClaimRefusal;
use mw_types::{Duplicate, NoMemory};
use record_codec::{RowRefusal, decode_row};
use row_keeper::{Keeper, KeeperFault, KeptRow, KeptRowList};
use row_parts::Row;
use run_history::Case;
use std::alloc::Global;

impl<'a, K: Keeper> Book<'a, K> {
    /// A worker takes an interval, which makes every earlier lease of it stale.
    ///
    /// The rows that it gets fit their names, lie in the interval and ascend by name. Where a
    /// contract can see the keeper's rows they are those of the history that lie there, and none is
    /// damaged.
    pub fn claim(
        &mut self,
        alloc: Global,
        worker: u32,
        interval: u32,
    ) -> Result<Claimed, ClaimRefusal>
        requires may { MayClaim self.old.case worker interval }

        ensures appended { OnOk result
            (self.new.history ≡ self.old.history ++ Claim worker interval ∷ []) }
        ensures lease { IfOk result (λ claimed.
            claimed.lease ≡ record { interval = interval; seq = length self.old.history }) }
        ensures rows { let old = self.old in IfOk result
            (λ claimed. AreRowsOf old.case old.rows old.history interval claimed.rows) }

        ensures full { IsErrOf result ClaimRefusal.HistoryFull ↔
            (length self.old.history ≡ self.old.limit) }
        ensures damaged { let old = self.old in
            IfErr result (IsDamaged old.case old.rows (length old.history)) }
        ensures keeper_fault { HasCause self.old.faults self.new.faults result
            ClaimRefusal.KeeperFault }
        ensures unchanged { OnErr result (HasStayed self.old self.new) }
        ensures rows_stay { self.new.rows ≡ self.old.rows }
        ensures same { IsSameBook self.old self.new }
    {
        let number = self.core.history.len() as u64;
        if number >= self.core.limit {
            return Err(ClaimRefusal::HistoryFull);
        }
        let rows = self.rows_of(alloc, interval)?;
        self.append_claim(worker, interval)?;
        Ok(Claimed {
            lease: Lease {
                interval,
                seq: number,
            },
            rows,
        })
    }

    // The rows of an interval, as the keeper has them.
    fn rows_of(&mut self, alloc: Global, interval: u32) -> Result<NamedRowList, ClaimRefusal>
        requires there { interval < interval_count self.old.case.topology }
        ensures rows { let old = self.old in
            IfOk result (AreRowsOf old.case old.rows old.history interval) }
        ensures damaged { let old = self.old in
            IfErr result (IsDamaged old.case old.rows (length old.history)) }
        ensures not_full { IsErrOf result ClaimRefusal.HistoryFull → ⊥ }
        ensures keeper_fault { HasCause self.old.faults self.new.faults result
            ClaimRefusal.KeeperFault }
        ensures stayed { HasStayed self.old self.new }
        ensures same { IsSameBook self.old self.new }
    {
        let number = self.core.history.len() as u64;
        let found = self.scan(alloc, interval)?;
        decoded(alloc, self.case, number, found.as_slice())
    }

    // What the keeper has of an interval.
    fn scan(&mut self, alloc: Global, interval: u32) -> Result<KeptRowList, KeeperFault>
        requires there { interval < interval_count self.old.case.topology }
        ensures within { IfOk result
            (λ found. IfSome self.old.rows (IsFoundWithin self.old.case interval found)) }
        ensures covered { IfOk result (AreWithin self.old.case interval) }
        ensures ascending { IfOk result (λ found. AreInOrder (map entry_of found)) }
        ensures stayed { HasStayed self.old self.new }
        ensures same { IsSameBook self.old self.new }
        ensures keeper_fault { HasCause self.old.faults self.new.faults result KeeperFault.Failed }
    {
        let _count = self.case.interval_count();
        let bounds = self.case.bounds(interval);
        self.core.keeper.scan(alloc, bounds)
    }

    // Appends a claim that may come next.
    fn append_claim(&mut self, worker: u32, interval: u32) -> Result<(), NoMemory>
        requires may { MayClaim self.old.case worker interval }
        requires room { length self.old.history < self.old.limit }
        ensures appended { OnOk result
            (self.new.history ≡ self.old.history ++ Claim worker interval ∷ []) }
        ensures history { OnErr result (self.new.history ≡ self.old.history) }
        ensures rows { self.new.rows ≡ self.old.rows }
        ensures faults { self.new.faults ≡ self.old.faults }
        ensures same { IsSameBook self.old self.new }
    {
        self.core.claim(worker, interval)
    }
}

// The rows of these bytes, each of which has to fit its name after a history of this length.
fn decoded(
    alloc: Global,
    case: &Case,
    number: u64,
    found: &[KeptRow],
) -> Result<NamedRowList, ClaimRefusal>
    ensures kept { IfOk result (λ rows.
        AllByRecursion (IsKeepable case.now number) (map named rows)) }
    ensures spelled { IfOk result (λ rows. map bytes_named rows ≡ map entry_of found.now) }
    ensures first { IfErr result (IsFirstDamage case.now number (map entry_of found.now)) }
    ensures only { (rows : List (RowName × Contents)) → AllByRecursion
        (IsKeepable case.now number) rows →
        map entry_of found.now ≡ map spelled rows →
        MatchResult result (λ answered. map named answered ≡ rows)
        (λ why. why ≡ refusals.NoMemory) }
    ensures damaged { (name : RowName) (bytes : List ℕ) → IsErrOf result
        (refusals.RowDamaged name bytes) →
        (row : Contents) → IsKeepable case.now number (name, row) → bytes ≢ spelling_of row }
    ensures not_full { IsErrOf result ClaimRefusal.HistoryFull → ⊥ }
    ensures no_fault { IsErrOf result ClaimRefusal.KeeperFault → ⊥ }
{
    let mut rows = NamedRowList::new(alloc);
    for kept in found {
        match row_named(alloc, case, number, kept) {
            Ok(row) => rows.push(row)?,
            Err(why) => return Err(why),
        }
    }
    Ok(rows)
}

// The row of these bytes, which has to fit its name after a history of this length.
fn row_named(
    alloc: Global,
    case: &Case,
    number: u64,
    kept: &KeptRow,
) -> Result<NamedRow, ClaimRefusal>
    ensures kept { IfOk result (λ r. IsKeepable case.now number (named r)) }
    ensures spelled { IfOk result (λ r. bytes_named r ≡ entry_of kept.now) }
    ensures this { IfErr result (λ why. why ≢ refusals.NoMemory →
        why ≡ refusals.RowDamaged kept.now.name kept.now.bytes) }
    ensures only { (row : Contents) → IsKeepable case.now number (kept.now.name, row) →
        kept.now.bytes ≡ spelling_of row →
        MatchResult result (λ r. named r ≡ (kept.now.name, row)) (λ why. why ≡ refusals.NoMemory) }
    ensures damaged { (name : RowName) (bytes : List ℕ) → IsErrOf result
        (refusals.RowDamaged name bytes) →
        (row : Contents) → IsKeepable case.now number (name, row) → bytes ≢ spelling_of row }
    ensures not_full { IsErrOf result ClaimRefusal.HistoryFull → ⊥ }
    ensures no_fault { IsErrOf result ClaimRefusal.KeeperFault → ⊥ }
{
    match decode_row(alloc, kept.bytes.as_slice()) {
        Ok(row) => fitting(alloc, case, number, kept, row),
        Err(RowRefusal::Damaged) => Err(damaged(alloc, kept)),
        Err(RowRefusal::NoMemory) => Err(ClaimRefusal::NoMemory),
    }
}

// The row that was read, where it fits its name.
fn fitting(
    alloc: Global,
    case: &Case,
    number: u64,
    kept: &KeptRow,
    row: Row,
) -> Result<NamedRow, ClaimRefusal>
    ensures ok { IfOk result (λ r. named r ≡ (kept.now.name, row)) }
    ensures fit { OnOk result (fits case.now number kept.now.name row ≡ true) }
    ensures refused { IfErr result
        (λ why. fits case.now number kept.now.name row ≡ true → why ≡ refusals.NoMemory) }
    ensures damaged { IfErr result
        (λ why. why ≢ refusals.NoMemory → why ≡ refusals.RowDamaged kept.now.name kept.now.bytes) }
{
    if !fits(case, number, &kept.name, &row) {
        drop(row);
        return Err(damaged(alloc, kept));
    }
    match kept.name.copy(alloc) {
        Ok(name) => Ok(NamedRow { name, row }),
        Err(NoMemory) => {
            drop(row);
            Err(ClaimRefusal::NoMemory)
        }
    }
}

// Bytes that are no row that fits their name.
fn damaged(alloc: Global, kept: &KeptRow) -> ClaimRefusal
    ensures { (result ≡ refusals.NoMemory) ⊎
        (result ≡ refusals.RowDamaged kept.now.name kept.now.bytes) }
{
    match kept.copy(alloc) {
        Ok(KeptRow { name, bytes }) => ClaimRefusal::RowDamaged { name, bytes },
        Err(NoMemory) => ClaimRefusal::NoMemory,
    }
}
