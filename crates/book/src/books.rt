//! A book, from its start to its end.
ghost use Rattle.std.specs.Prelude.{◌≡◌, ◌↔◌, ◌≤◌, ◌^◌, ◌+◌, ◌<◌, ℕ, [], length, replicate, IfErr, IfOk, IfSome, MatchResult, None, cond, nat_lt};
ghost use Rattle.mw_types.specs.Causes.{Rose};
ghost use Rattle.run_history.specs.Cases.{intervals_of};
ghost use Rattle.run_history.specs.Legal.{floor_of};
ghost use Rattle.run_history.specs.Runs.{empty_run, run_of};
ghost use Rattle.run_history.specs.Finished.{all_pending, unfinished};
ghost use Rattle.run_history.specs.Inputs.{IsRunnable};
ghost use Rattle.topology.specs.Shapes.{parts_of};
ghost use Rattle.book.specs.Books.{core_of};
ghost use Rattle.book.specs.Lawful.{IsLawful};
ghost use Rattle.book.specs.Marks.{AreSafe, AreUnderLow};
ghost use Rattle.book.specs.Senders.{IsLeastSent};
ghost use Rattle.book.specs.Answers.{IsNotEmpty};
ghost use Rattle.watermark.specs.Marks.{mark_of};
ghost use Rattle.book.specs.Refusing.{start_why_of};

use crate::book_core::Core;
use crate::fitting::lines;
use crate::refusals::{StartRefusal, StartWhy};
use history_laws::case_is_runnable;
use mw_types::{NoMemory, RecordId, RowName};
use row_keeper::{Keeper, KeeperFault, KeptRow};
use run_history::{Case, History};
use std::alloc::Global;
use std::collections::BTreeMap;
use std::marker::Model;

/// The history of one store, behind the sequencer check.
#[derive(Drop)]
pub struct Book<'a, K: Keeper> {
    pub(crate) case: &'a Case,
    pub(crate) core: Core<K>,
}

impl<'a, K: Keeper> Model for Book<'a, K> {
    ghost use Rattle.book.specs.Books.{BookView};
    ghost use Rattle.book.specs.Lawful.{IsLawful};

    ghost Value = { BookView };

    ghost view = { λ b. record {
      case = b.case.now;
      history = b.core.history;
      limit = b.core.limit;
      rows = b.core.rows;
      faults = b.core.faults;
      work = b.core.work;
      unacknowledged = b.core.unacknowledged;
      marks = b.core.marks;
    } };

    ghost invariant = { λ b. IsLawful b.case.now b.core };
}

impl<'a, K: Keeper> Book<'a, K> {
    /// A book over a keeper without rows, in which nothing has happened yet.
    pub fn start(
        alloc: Global,
        case: &'a Case,
        keeper: K,
        limit: u64,
    ) -> Result<Book<'a, K>, StartRefusal<K>>
        requires limit { limit ≤ 2 ^ 32 }

        ensures case { IfOk result (λ book. book.case ≡ case.now) }
        ensures empty { IfOk result (λ book. book.history ≡ []) }
        ensures limit { IfOk result (λ book. book.limit ≡ limit) }
        ensures rows { IfOk result (λ book. book.rows ≡ K.rows keeper) }
        ensures faults { MatchResult result (λ book. K.faults keeper ≤ book.faults)
            (λ refusal. K.faults keeper ≤ K.faults refusal.keeper) }
        ensures marks { IfOk result (λ book.
            book.marks ≡ replicate (length (intervals_of case.now.topology)) 0) }

        ensures not_empty { IfErr result (λ refusal. IsNotEmpty (K.rows keeper) refusal.why) }
        ensures keeper_fault { IfErr result (λ refusal. refusal.why ≡ StartWhy.KeeperFault →
            Rose (K.faults keeper) (K.faults refusal.keeper)) }
        ensures unchanged { IfErr result (λ refusal. K.rows refusal.keeper ≡ K.rows keeper) }
    {
        let mut keeper = keeper;
        case_is_runnable(case);
        let Ok(marks) = first_marks(alloc, case) else {
            return Err(StartRefusal {
                why: StartWhy::NoMemory,
                keeper,
            });
        };
        match keeper.first(alloc) {
            Ok(None) => Ok(begun(alloc, case, keeper, limit, marks)),
            Ok(Some(row)) => Err(StartRefusal {
                why: not_empty(row),
                keeper,
            }),
            Err(fault) => Err(StartRefusal {
                why: refused_first(fault),
                keeper,
            }),
        }
    }

    /// The case whose runs the book keeps.
    pub fn case(&self) -> &'a Case
        ensures case { result.now ≡ self.now.case }
    {
        self.case
    }

    /// What always holds of a book. It does nothing when it runs.
    pub fn sound(&self)
        ensures lawful { IsLawful self.now.case (core_of self.now) }
        ensures under_low { IfSome self.now.rows (λ _. AreUnderLow self.now.case
            (run_of self.now.case.topology self.now.history) self.now.marks) }
    {
        self.history();
        self.marks();
    }

    /// What has happened, and what always holds of a book: the history is fenced, and where a contract
    /// can see the keeper's rows it is legal, they are its rows, and no mark passes work that is left.
    pub fn history(&self) -> &History
        ensures history { result.now ≡ self.now.history }
        ensures lawful { IsLawful self.now.case (core_of self.now) }
    {
        &self.core.history
    }

    /// The least commit number of an entry that made a delivery which is not acknowledged; the number
    /// of the next entry where there is none. Ids below it need not be kept.
    pub fn floor(&self) -> u64
        ensures floor { result ≡ floor_of (run_of self.now.case.topology self.now.history) }
    {
        match self.least_sent() {
            Some((id, _)) => id.commit,
            None => self.core.history.len() as u64,
        }
    }

    /// The least id that is not acknowledged, and the row that sent it: the first that a sender has to
    /// send again. It is pending in that row, which is of a part that is there.
    pub fn least_sent(&self) -> Option<(RecordId, &RowName)>
        ensures least { IfSome result
            (λ sent. let shape = self.now.case.topology in
            IsLeastSent shape (run_of shape self.now.history) sent.0 sent.1.now) }
        ensures part { IfSome result
            (λ sent. sent.1.now.part < parts_of self.now.case.topology) }
        ensures none { (result ≡ None) ↔
            (all_pending (run_of self.now.case.topology self.now.history) ≡ []) }
    {
        self.core.first_sent()
    }

    /// The mark of an interval, in whole microseconds. Where a contract can see the keeper's rows, no
    /// work that is left in the interval, and none above it, is older, as `history` says.
    pub fn mark(&self, interval: u32) -> u64
        requires there { interval < length (intervals_of self.now.case.topology) }
        ensures mark { result ≡ mark_of self.now.marks interval }
    {
        self.core.mark(interval)
    }

    /// The mark of each interval, by its number.
    pub fn marks(&self) -> &[u64]
        ensures marks { result.now ≡ self.now.marks }
        ensures one_each { length self.now.marks ≡ length (intervals_of self.now.case.topology) }

        // Where a contract can see the keeper's rows, each mark is safe, and timers may fire under
        // those of a part.
        ensures safe { IfSome self.now.rows (λ _. AreSafe self.now.case
            (run_of self.now.case.topology self.now.history) self.now.marks) }
        ensures under_low { IfSome self.now.rows (λ _. AreUnderLow self.now.case
            (run_of self.now.case.topology self.now.history) self.now.marks) }
    {
        self.core.marks.as_slice()
    }

    /// How much work is left: deliveries that are not acknowledged, timers that are set, and
    /// injectors with lines left.
    pub fn unfinished(&self) -> u64
        ensures left { IfSome self.now.rows
            (λ _. result ≡ unfinished self.now.case
            (run_of self.now.case.topology self.now.history)) }
    {
        self.core.work
    }

    /// The keeper and the history, at the end.
    pub fn into_parts(self) -> (K, History)
        ensures rows { K.rows result.0 ≡ self.entry.rows }
        ensures faults { K.faults result.0 ≡ self.entry.faults }
        ensures history { result.1 ≡ self.entry.history }
        ensures lawful { IsLawful self.entry.case (core_of self.entry) }
    {
        let Book { case: _, core } = self;
        let Core {
            history,
            keeper,
            limit: _,
            sequencers: _,
            work: _,
            unacknowledged: _,
            marks: _,
            buffer: _,
        } = core;
        (keeper, history)
    }

    /// The case, and all else of the book, which names no lifetime.
    pub fn into_core(self) -> (&'a Case, Core<K>)
        ensures case { result.0.now ≡ self.entry.case }
        ensures core { result.1 ≡ core_of self.entry }
        ensures lawful { IsLawful result.0.now result.1 }
    {
        let Book { case, core } = self;
        (case, core)
    }

    /// The book of a case and all else of it.
    pub fn of(case: &'a Case, core: Core<K>) -> Book<'a, K>
        requires lawful { IsLawful case.now core }
        ensures case { result.case ≡ case.now }
        ensures core { core_of result ≡ core }
    {
        Book { case, core }
    }
}

/// How much work a case begins with: each injector that has a line.
pub fn first_work(case: &Case) -> u64
    ensures { result ≡ unfinished case.now empty_run }
{
    let mut work = 0;
    for part in 0..case.topology.injectors() {
        work = counted(work, lines(case, part));
    }
    work
}

// One more, where an injector has a line.
fn counted(work: u64, lines: u32) -> u64
    requires { work < 2 ^ 32 }
    ensures { result ≡ work + cond (nat_lt 0 lines) 1 0 }
{
    if lines > 0 { work + 1 } else { work }
}

// A mark of 0 for each interval.
fn first_marks(alloc: Global, case: &Case) -> Result<Vec<u64>, NoMemory>
    ensures { IfOk result
        (λ marks. marks.items ≡ replicate (length (intervals_of case.now.topology)) 0) }
{
    let mut marks = Vec::new(alloc);
    for _ in 0..case.interval_count() {
        marks.push(0)?;
    }
    Ok(marks)
}

// A book in which nothing has happened.
fn begun<'a, K: Keeper>(
    alloc: Global,
    case: &'a Case,
    keeper: K,
    limit: u64,
    marks: Vec<u64>,
) -> Book<'a, K>
    requires runnable { IsRunnable case.now }
    requires limit { limit ≤ 2 ^ 32 }
    requires empty { IfSome (K.rows keeper) (λ rows. rows ≡ []) }
    requires marks { marks.items ≡ replicate (length (intervals_of case.now.topology)) 0 }

    ensures case { result.case ≡ case.now }
    ensures core { core_of result ≡ record {
      history = [];
      limit = limit;
      rows = K.rows keeper;
      faults = K.faults keeper;
      work = unfinished case.now empty_run;
      unacknowledged = [];
      marks = marks.items;
    } }
{
    let work = first_work(case);
    Book {
        case,
        core: Core {
            history: History::new(alloc),
            keeper,
            limit,
            sequencers: BTreeMap::new(alloc),
            work,
            unacknowledged: BTreeMap::new(alloc),
            marks,
            buffer: Vec::new(alloc),
        },
    }
}

// The row that a keeper has.
fn not_empty(row: KeptRow) -> StartWhy
    ensures { result ≡ StartWhy.NotEmpty row.name row.bytes }
{
    let KeptRow { name, bytes } = row;
    StartWhy::NotEmpty { name, bytes }
}

// What a keeper's refusal is to a start.
fn refused_first(fault: KeeperFault) -> StartWhy
    ensures { result ≡ start_why_of fault }
{
    match fault {
        KeeperFault::Failed => StartWhy::KeeperFault,
        KeeperFault::NoMemory => StartWhy::NoMemory,
    }
}
