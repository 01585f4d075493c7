//! A history that is followed.
ghost use Rattle.std.specs.Prelude.{◌≡◌, ◌↔◌, ◌<◌, ◌^◌, ◌++◌, ◌∷◌, [], IfOk, IsTrue, length};
ghost use Rattle.run_history.specs.Finished.{IsFinished};
ghost use Rattle.run_history.specs.Runs.{run_of};
ghost use Rattle.history_laws.specs.Writes.{IsLegalAndFenced};
ghost use Rattle.audit.specs.Choices.{IsChosen, MayCome};

use crate::acknowledging::acknowledgement_of;
use crate::claiming::claim_of;
use crate::firing::firing_of;
use crate::handling::handling_of;
use crate::injecting::injection_of;
use crate::kept::Kept;
use crate::purging::purge_of;
use computations::Kinds;
use history_laws::case_is_runnable;
use mw_types::{Entry, NoMemory};
use run_history::{Case, History};
use std::alloc::Global;
use std::marker::Model;
use trace_lines::Choice;

/// A history that is followed entry by entry, and what stands after it.
#[derive(Drop)]
pub struct Standing<'a> {
    case: &'a Case,
    work: Kinds,
    history: History,
    kept: Kept,
}

impl<'a> Model for Standing<'a> {
    ghost use Rattle.audit.specs.Standings.{StandingView};
    ghost use Rattle.audit.specs.Keeping.{IsStanding};

    ghost Value = { StandingView };

    ghost view = { λ s. record { case = s.case.now; history = s.history } };

    ghost invariant = { λ s. IsStanding s.case.now s.work s.history s.kept };
}

impl<'a> Standing<'a> {
    /// The standing of a case in which nothing has happened yet.
    pub fn new(alloc: Global, case: &'a Case) -> Result<Standing<'a>, NoMemory>
        ensures case { IfOk result (λ standing. standing.case ≡ case.now) }
        ensures empty { IfOk result (λ standing. standing.history ≡ []) }
    {
        case_is_runnable(case);
        let work = Kinds::of(alloc, &case.topology)?;
        let kept = Kept::new(alloc, case)?;
        Ok(Standing {
            case,
            work,
            history: History::new(alloc),
            kept,
        })
    }

    /// The history so far, which is legal and fenced.
    pub fn history(&self) -> &History
        ensures history { result.now ≡ self.now.history }
        ensures lawful { IsLegalAndFenced self.now.case self.now.history }
    {
        &self.history
    }

    /// The lawful entry of a choice, or none exactly where no lawful entry has it.
    pub fn entry_of(&self, alloc: Global, choice: &Choice) -> Result<Option<Entry>, NoMemory>
        ensures chosen { IfOk result (IsChosen self.now.case self.now.history choice.now) }
    {
        let case = self.case;
        let history = &self.history;
        let kept = &self.kept;
        match choice {
            Choice::Claim { worker, interval } => Ok(claim_of(case, *worker, *interval)),
            Choice::Inject { part } => injection_of(alloc, case, history, kept, *part),
            Choice::Handle { id } => handling_of(alloc, case, &self.work, history, kept, *id),
            Choice::Fire { row, mark } => {
                firing_of(alloc, case, &self.work, history, kept, row, *mark)
            }
            Choice::Ack { row, id } => acknowledgement_of(alloc, case, history, kept, row, *id),
            Choice::Purge { row, floor } => purge_of(alloc, case, history, kept, row, *floor),
        }
    }

    /// Whether no work is left.
    pub fn is_finished(&self) -> bool
        ensures finished { IsTrue result
            ↔ IsFinished self.now.case (run_of self.now.case.topology self.now.history) }
    {
        self.kept.work == 0
    }

    /// The history so far, at the end.
    pub fn into_history(self) -> History
        ensures history { result ≡ self.entry.history }
        ensures lawful { IsLegalAndFenced self.entry.case self.entry.history }
    {
        let Standing {
            case: _,
            work: _,
            history,
            kept: _,
        } = self;
        history
    }

    /// The standing with this entry too, which may come next. Where there is no memory nothing is
    /// left of it, so that no step has to be taken back.
    pub fn push(self, alloc: Global, entry: Entry) -> Result<Standing<'a>, NoMemory>
        requires next { MayCome self.case self.history entry }
        requires few { length self.history < 2 ^ 32 }
        ensures case { IfOk result (λ after. after.case ≡ self.entry.case) }
        ensures pushed { IfOk result
            (λ after. after.history ≡ self.entry.history ++ entry ∷ []) }
    {
        let Standing {
            case,
            work,
            history,
            kept,
        } = self;
        let mut history = history;
        let mut kept = kept;
        kept.grow(alloc, case, &history, &entry)?;
        history.push(entry)?;
        Ok(Standing {
            case,
            work,
            history,
            kept,
        })
    }
}
