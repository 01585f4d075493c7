//! The steps of a script, done for real.
ghost use Rattle.std.specs.Prelude.{ℕ, ◌≡◌, ◌<◌, ◌≤◌, ◌^◌, Err, IfErr, IfOk, IfSome, None, OnErr, length};
ghost use Rattle.std.specs.Option.{is_some};
ghost use Rattle.mw_types.specs.Causes.{Rose};
ghost use Rattle.book.specs.DeskReasons.{IsDamageOf};
ghost use Rattle.book.specs.OwnDesks.{own_view};
ghost use Rattle.node.specs.Answers.{refusal_of};
ghost use Rattle.node.specs.Workers.{worker_at};
ghost use Rattle.node.specs.Works.{IsWorkOf};
ghost use Rattle.world.specs.scripts.Keeping.{AppendsAtMostOne};
ghost use Rattle.plans.specs.Steps.{IsStep};
ghost use Rattle.world.specs.scripts.Standing.{FitsOwn};
ghost use Rattle.world.specs.scripts.Stepping.{HasActed, HasCauseOf, HasFaulted, IsCausedBy, WouldAppend};
ghost use Rattle.world.specs.drains.Turns.{HasFailed};
ghost use Rattle.world.specs.scripts.WorkerCalls.{ActsOn, HasCalled, HasGoneOn, HasRested, IsAlone, IsFullOn, IsFullStep, IsOfMessages};
ghost use Rattle.world.specs.scripts.WorldStates.{world_of};

use crate::scripts::deliveries::{answered_in_place, receive};
use crate::scripts::flights::{find, lose, repeat, send, take_out};
use crate::scripts::relays::{make_places, note_copied, note_sent, relay, to_pass};
use crate::scripts::worker_calls::{claim, fire, inject, purge, report, resend, write};
use crate::scripts::world::World;
use book::{Book, NoNote};
use computations::Computation;
use node::{Node, NodeFault, Outcome};
use plans::Step;
use row_keeper::Keeper;
use std::alloc::Global;

impl<'a, K: Keeper, C: Computation + Drop> World<'a, K, C> {
    /// Does one step of a script. Where a contract can see the keeper's rows it answers what the
    /// scripted world does, and leaves that world.
    pub fn step(&mut self, alloc: Global, step: &Step) -> Result<Outcome, NodeFault>
        requires step { IsStep self.old.book.case.topology self.old.routes.weaks step.now }

        ensures acted { IfOk result (HasActed step.now self.old self.new) }

        // Over every keeper at most one entry is appended.
        ensures case { self.new.book.case ≡ self.old.book.case }
        ensures routes { self.new.routes ≡ self.old.routes }
        ensures limit { self.new.book.limit ≡ self.old.book.limit }
        ensures tells { is_some self.new.book.rows ≡ is_some self.old.book.rows }
        ensures faults { self.old.book.faults ≤ self.new.book.faults }
        ensures grown { AppendsAtMostOne (world_of self.old) (world_of self.new) }

        // Over every keeper an answer that names a number has its cause: `Committed` and `Claimed`
        // name the entry that was appended, `Stale` a claim that has overtaken a lease of the
        // worker's. `Busy` never comes.
        ensures cause { IfOk result (HasCauseOf step.now self.old self.new) }

        // A fault changes nothing, but that a message which was taken is gone.
        ensures kept { OnErr result (HasFaulted step.now self.old self.new) }
        ensures rows { OnErr result (self.new.book.rows ≡ self.old.book.rows) }

        ensures keeper_fault { result ≡ Err NodeFault.KeeperFault →
            Rose self.old.book.faults self.new.book.faults }
        ensures full { result ≡ Err NodeFault.HistoryFull →
            length self.new.book.history ≡ self.new.book.limit }

        // Where a contract can see the keeper's rows, it is full only where the step would have appended
        // an entry.
        ensures more { result ≡ Err NodeFault.HistoryFull → WouldAppend step.now self.old }
        ensures damaged { IfErr result (λ why.
            IsDamageOf (own_view self.new.book) (refusal_of why)) }
    {
        // Its clauses say what always holds of a book.
        self.book.history();
        let result = self.step_once(alloc, step);
        self.book.history();
        result
    }

    // Does a step, which is one of a worker without a message, or one of messages.
    fn step_once(&mut self, alloc: Global, step: &Step) -> Result<Outcome, NodeFault>
        requires step { IsStep self.old.book.case.topology self.old.routes.weaks step.now }
        ensures acted { IfOk result (HasActed step.now self.old self.new) }
        ensures cause { IfOk result (HasCauseOf step.now self.old self.new) }
        ensures gone { HasGoneOn self.old self.new }
        ensures kept { OnErr result (HasFaulted step.now self.old self.new) }
        ensures failed { IfErr result (HasFailed self.old.book self.new.book) }
        ensures full { IfErr result (IsFullStep step.now self.old) }
    {
        match worker_alone(step) {
            Some(worker) => self.step_alone(alloc, worker, step),
            None => self.step_messages(alloc, step),
        }
    }

    // Does a step of messages.
    fn step_messages(&mut self, alloc: Global, step: &Step) -> Result<Outcome, NodeFault>
        requires step { IsStep self.old.book.case.topology self.old.routes.weaks step.now }
        requires messages { IsOfMessages step.now }
        ensures acted { IfOk result (HasActed step.now self.old self.new) }
        ensures cause { IfOk result (HasCauseOf step.now self.old self.new) }
        ensures gone { HasGoneOn self.old self.new }
        ensures kept { OnErr result (HasFaulted step.now self.old self.new) }
        ensures failed { IfErr result (HasFailed self.old.book self.new.book) }
        ensures full { IfErr result (IsFullStep step.now self.old) }
    {
        match step {
            Step::Send { worker } => self.send(*worker),
            Step::Take { worker, message } => self.take(alloc, *worker, *message),
            Step::Repeat { message } => self.repeat(alloc, *message),
            Step::Lose { message } => Ok(self.lose(*message)),
            Step::Relay { relay, message } => self.relay(*relay, *message),
            Step::Forget { relay } => Ok(self.forget(*relay)),
            _ => unreachable!(),
        }
    }

    // Does a step that a worker does without a message.
    fn step_alone(&mut self, alloc: Global, worker: u32, step: &Step) -> Result<Outcome, NodeFault>
        requires worker { worker < 16 }
        requires step { IsStep self.old.book.case.topology self.old.routes.weaks step.now }
        requires alone { IsAlone worker step.now }
        ensures acted { IfOk result (HasActed step.now self.old self.new) }
        ensures cause { IfOk result (HasCauseOf step.now self.old self.new) }
        ensures gone { HasGoneOn self.old self.new }
        ensures same { OnErr result (world_of self.new ≡ world_of self.old) }
        ensures failed { IfErr result (HasFailed self.old.book self.new.book) }
        ensures full { IfErr result (IsFullStep step.now self.old) }
    {
        let node = &mut self.nodes[worker as usize];
        call_alone(alloc, &mut self.book, &self.work, node, step)
    }

    // A worker sends all that it has to send.
    fn send(&mut self, worker: u32) -> Result<Outcome, NodeFault>
        requires worker { worker < 16 }
        ensures acted { IfOk result (HasActed (Step.Send worker) self.old self.new) }
        ensures cause { IfOk result (HasCauseOf (Step.Send worker) self.old self.new) }
        ensures gone { HasGoneOn self.old self.new }
        ensures same { OnErr result (world_of self.new ≡ world_of self.old) }
        ensures failed { IfErr result (HasFailed self.old.book self.new.book) }
        ensures full { IfErr result (IsFullStep (Step.Send worker) self.old) }
    {
        let count = self.nodes[worker as usize].unsent();
        make_places(&mut self.left, count)?;
        let node = &mut self.nodes[worker as usize];
        let answer = send(&mut self.book, node, &mut self.flight);
        note_sent(&mut self.left, &self.flight, &self.routes);
        answer
    }

    // A worker takes a message, unless that stays in flight.
    fn take(&mut self, alloc: Global, worker: u32, message: u32) -> Result<Outcome, NodeFault>
        requires worker { worker < 16 }
        ensures acted { IfOk result (HasActed (Step.Take worker message) self.old self.new) }
        ensures cause { IfOk result (HasCauseOf (Step.Take worker message) self.old self.new) }
        ensures gone { HasGoneOn self.old self.new }
        ensures gone_or_same { OnErr result
            (HasFaulted (Step.Take worker message) self.old self.new) }
        ensures failed { IfErr result (HasFailed self.old.book self.new.book) }
        ensures full { IfErr result (IsFullStep (Step.Take worker message) self.old) }
    {
        let case = self.book.case();
        let Some(found) = find(&self.flight, message) else {
            return Ok(Outcome::Nothing);
        };
        // It has relays to pass first.
        if to_pass(&self.left, message) > 0 {
            return Ok(Outcome::Nothing);
        }
        let here = &self.nodes[worker as usize];
        if let Some(outcome) = answered_in_place(case, here, found) {
            return Ok(outcome);
        }
        let taken = take_out(&mut self.flight, message);
        let node = &mut self.nodes[worker as usize];
        receive(alloc, &mut self.book, &self.work, node, taken)
    }

    // A message comes once more.
    fn repeat(&mut self, alloc: Global, message: u32) -> Result<Outcome, NodeFault>
        ensures acted { IfOk result (HasActed (Step.Repeat message) self.old self.new) }
        ensures cause { IfOk result (HasCauseOf (Step.Repeat message) self.old self.new) }
        ensures gone { HasGoneOn self.old self.new }
        ensures same { OnErr result (world_of self.new ≡ world_of self.old) }
        ensures failed { IfErr result (HasFailed self.old.book self.new.book) }
        ensures full { IfErr result (IsFullStep (Step.Repeat message) self.old) }
    {
        make_places(&mut self.left, 1)?;
        let answer = repeat(alloc, &mut self.flight, message);
        note_copied(&mut self.left, &self.flight, message);
        answer
    }

    // A message passes a relay.
    fn relay(&mut self, number: u32, message: u32) -> Result<Outcome, NodeFault>
        requires relay { number < self.old.routes.weaks }
        ensures acted { IfOk result (HasActed (Step.Relay number message) self.old self.new) }
        ensures cause { IfOk result (HasCauseOf (Step.Relay number message) self.old self.new) }
        ensures gone { HasGoneOn self.old self.new }
        ensures same { OnErr result (world_of self.new ≡ world_of self.old) }
        ensures failed { IfErr result (HasFailed self.old.book self.new.book) }
        ensures full { IfErr result (IsFullStep (Step.Relay number message) self.old) }
    {
        relay(
            &mut self.flight,
            &mut self.left,
            &mut self.relays,
            &self.routes,
            number,
            message,
        )
    }

    // A relay forgets the ids that it holds.
    fn forget(&mut self, number: u32) -> Outcome
        requires relay { number < self.old.routes.weaks }
        ensures acted { HasActed (Step.Forget number) self.old self.new result }
        ensures cause { HasCauseOf (Step.Forget number) self.old self.new result }
        ensures gone { HasGoneOn self.old self.new }
    {
        self.relays[number as usize].forget();
        Outcome::Crashed
    }

    // A message is lost.
    fn lose(&mut self, message: u32) -> Outcome
        ensures acted { HasActed (Step.Lose message) self.old self.new result }
        ensures cause { HasCauseOf (Step.Lose message) self.old self.new result }
        ensures gone { HasGoneOn self.old self.new }
    {
        lose(&mut self.flight, message)
    }
}

// The worker that does a step without a message. None where the step is of messages.
fn worker_alone(step: &Step) -> Option<u32>
    ensures alone { IfSome result (λ worker. IsAlone worker step.now) }
    ensures messages { result ≡ None → IsOfMessages step.now }
{
    match step {
        Step::Claim {
            worker,
            interval: _,
        } => Some(*worker),
        Step::Inject { worker, part: _ } => Some(*worker),
        Step::Write { worker } => Some(*worker),
        Step::Fire { worker, part: _ } => Some(*worker),
        Step::Report {
            worker,
            interval: _,
        } => Some(*worker),
        Step::Resend { worker } => Some(*worker),
        Step::Purge {
            worker,
            interval: _,
        } => Some(*worker),
        Step::Crash { worker } => Some(*worker),
        Step::Send { worker: _ } => None,
        Step::Take {
            worker: _,
            message: _,
        } => None,
        Step::Repeat { message: _ } => None,
        Step::Lose { message: _ } => None,
        Step::Relay {
            relay: _,
            message: _,
        } => None,
        Step::Forget { relay: _ } => None,
    }
}

// Calls a worker for a step that it does without a message.
fn call_alone<'a, K: Keeper, C: Computation>(
    alloc: Global,
    book: &mut Book<'a, K>,
    work: &C,
    node: &mut Node<NoNote>,
    step: &Step,
) -> Result<Outcome, NodeFault>
    requires fits { FitsOwn book.old node.old }
    requires work { IsWorkOf book.old.case.topology (C.does work.now) }
    requires step { (weaks : ℕ) × IsStep book.old.case.topology weaks step.now }
    requires alone { IsAlone node.old.number step.now }
    ensures called { HasCalled book.old book.new node.old node.new }
    ensures acted { IfOk result (ActsOn step.now book.old node.old book.new node.new) }
    ensures cause { IfOk result (IsCausedBy (worker_at node.old)
        book.old.history book.new.history) }
    ensures rested { OnErr result (HasRested book.old book.new node.old node.new) }
    ensures failed { IfErr result (HasFailed book.old book.new) }
    ensures full { IfErr result (IsFullOn step.now book.old node.old) }
{
    // Its clauses say what always holds of a book.
    book.history();
    match step {
        Step::Claim {
            worker: _,
            interval,
        } => claim(alloc, book, node, *interval),
        Step::Inject { worker: _, part } => inject(alloc, book, node, *part),
        Step::Write { worker: _ } => write(alloc, book, node),
        Step::Fire { worker: _, part } => fire(alloc, book, work, node, *part),
        Step::Report {
            worker: _,
            interval,
        } => report(alloc, book, node, *interval),
        Step::Resend { worker: _ } => resend(alloc, book, node),
        Step::Purge {
            worker: _,
            interval,
        } => purge(alloc, book, node, *interval),
        Step::Crash { worker: _ } => Ok(node.crash()),
        _ => unreachable!(),
    }
}
