//! The event log of a board: the history with its limit, its counts and the routes of its messages. Ledgers and waves
//! are not here.
ghost use Rattle.std.specs.Prelude.{◌≡◌, ◌∷◌, ◌+◌, ◌≤◌, ◌<◌, [], length, max, IsTrue, IsFalse, IfErr, IfOk, IsOk, OnErr, OnOk, None};
ghost use Rattle.tp_base.specs.declared.step.Step.TheVariants as steps;
ghost use Rattle.tp_board.specs.{Counts.{AreFew, counts_at}, EventLogs.HasFew, Numbers.{event, is_done, is_recv, is_send, sending}};
ghost use Rattle.tp_board.specs.{Routes.is_send_between, States.{IsCheckedFor, IsAtPiece, IsPastPiece, full_check, with_event, with_fault}};
ghost use Rattle.tp_board.specs.States.{with_reserved};
ghost use Rattle.tp_wave.specs.{Generations.{generation, present, present_events}, Machine.{IsOf, is_send_numbered, steps_of}, Steps.any};
ghost use Rattle.tp_wave.specs.Steps.{count, is_reopen};

use crate::counts::{Counts, NodeCounts};
use crate::routes::Routes;
use std::alloc::Global;
use std::marker::Model;
use tp_base::{Generation, History, MessageId, NodeId, Refusal, Step};

/// A history within its limit, the first fault, and the counts and routes of the present generation. Contracts see the
/// same as of a board.
#[derive(Drop)]
pub struct EventLog {
    history: History,
    limit: u32,
    reserved: u32,
    fault: Option<Refusal>,
    generation: u32,
    counts: Counts,
    routes: Routes,
}

impl Model for EventLog {
    ghost use Rattle.tp_board.specs.{EventLogs.IsEventLog, States.BoardState};

    ghost Value = { BoardState };

    ghost view = { λ l. record { history = l.history.events; limit = l.limit; reserved = l.reserved; fault = l.fault } };

    ghost invariant = { λ l. IsEventLog l.history l.limit l.reserved l.generation l.counts l.routes };
}

impl EventLog {
    /// Returns a log without events.
    pub fn new(alloc: Global, limit: u32) -> EventLog
        requires { limit ≤ 1048576 }
        ensures { result ≡ record { history = []; limit = limit; reserved = 0; fault = None } }
    {
        EventLog {
            history: History::new(alloc),
            limit,
            reserved: 0,
            fault: None,
            generation: 1,
            counts: Counts::new(),
            routes: Routes::new(alloc),
        }
    }

    /// Reserves a place and memory for `more` events.
    pub fn reserve(&mut self, more: u32) -> Result<(), Refusal>
        ensures ok { OnOk result (self.new ≡ with_reserved (max self.old.reserved more) self.old) }
        ensures places { OnOk result (length self.old.history + more ≤ self.old.limit) }
        ensures refusal { IsCheckedFor (full_check more self.old ∷ []) more self.old result }
        ensures piece { IfErr result (IsPastPiece more self.old) }
        ensures reserved { more ≤ self.old.reserved → IsOk result }
        ensures refused { OnErr result (self.new ≡ self.old) }
    {
        let count = self.history.len();
        if more as usize > self.limit as usize - count {
            return Err(Refusal::HistoryFull(count as u32));
        }
        let reserved = self.reserved.max(more);
        self.history.reserve(reserved as usize)?;
        self.routes.reserve(reserved as usize)?;
        self.reserved = reserved;
        Ok(())
    }

    /// Records an event that sends no message and reopens nothing.
    #[tactic(auto, using(crate::proofs::Naming::names_small))]
    #[inline(always)]
    pub fn add(&mut self, node: NodeId, step: Step) -> Result<(), Refusal>
        requires node { node.0 < 8 }
        requires beside { IsOf node.0 step }
        requires few { HasFew step }
        requires kind { IsFalse (is_send step) × IsFalse (is_reopen step) }
        ensures ok { OnOk result (self.new ≡ with_event (event node.0 step) self.old) }
        ensures places { OnOk result (length self.old.history < 1048576) }
        ensures refusal { IsCheckedFor (full_check 1 self.old ∷ []) 1 self.old result }
        ensures piece { IfErr result (IsAtPiece self.old) }
        ensures reserved { 0 < self.old.reserved → IsOk result }
        ensures refused { OnErr result (self.new ≡ self.old) }
    {
        let count = self.history.len();
        if count >= self.limit as usize {
            return Err(Refusal::HistoryFull(count as u32));
        }
        self.history.reserve(self.reserved.max(1) as usize)?;
        self.history.push_reserved(node, step);
        self.counts.follow(node, &step);
        self.reserved = self.reserved.saturating_sub(1);
        Ok(())
    }

    /// Records the sending of the present generation's next message, and returns its number.
    pub fn add_send(&mut self, from: NodeId, to: NodeId) -> Result<MessageId, Refusal>
        requires from { from.0 < 8 }
        requires to { to.0 < 8 }
        requires few { generation (steps_of self.old.history) < 1048576 }
        ensures number { IfOk result (λ m. m.0 ≡ count is_send (present (steps_of self.old.history))) }
        ensures ok { IfOk result (λ m. self.new
            ≡ with_event (event from.0 (sending (generation (steps_of self.old.history)) from.0 to.0 m.0)) self.old) }
        ensures small { IfOk result (λ m. m.0 < 1048576) }
        ensures fresh { IfOk result (λ m. IsFalse (any (is_send_numbered m.0) (present (steps_of self.old.history)))) }
        ensures places { OnOk result (length self.old.history < 1048576) }
        ensures refusal { IsCheckedFor (full_check 1 self.old ∷ []) 1 self.old result }
        ensures piece { IfErr result (IsPastPiece 1 self.old) }
        ensures reserved { 0 < self.old.reserved → IsOk result }
        ensures refused { OnErr result (self.new ≡ self.old) }
    {
        self.reserve(1)?;
        let message = MessageId(self.routes.len() as u32);
        let step = Step::Send(from, to, message, Generation(self.generation));
        self.history.push_reserved(from, step);
        self.routes.push_reserved(from, to);
        self.counts.follow(from, &step);
        self.reserved -= 1;
        Ok(message)
    }

    /// Records the reopening, in the place that was reserved for it. The next generation begins, without events.
    pub fn reopen(&mut self)
        requires { 0 < self.old.reserved }
        ensures ok { self.new ≡ with_event (event 0 steps.Reopen) self.old }
        ensures places { length self.old.history < 1048576 }
    {
        self.history.push_reserved(NodeId(0), Step::Reopen);
        self.counts = Counts::new();
        self.routes.clear();
        self.generation += 1;
        self.reserved -= 1;
    }

    /// Returns the number of the present generation.
    pub fn generation(&self) -> Generation
        ensures { result.0 ≡ generation (steps_of self.now.history) }
    {
        Generation(self.generation)
    }

    /// Returns the most events that the history can have.
    pub fn limit(&self) -> u32
        ensures { result ≡ self.now.limit }
    {
        self.limit
    }

    /// Returns the number of events.
    pub fn len(&self) -> usize
        ensures number { result ≡ length self.now.history }
        ensures places { length self.now.history + self.now.reserved ≤ self.now.limit }
        ensures limit { self.now.limit ≤ 1048576 }
    {
        self.history.len()
    }

    /// Returns the counts of a node in the present generation.
    pub fn counts(&self, node: NodeId) -> NodeCounts
        requires { node.0 < 8 }
        ensures counts { result ≡ counts_at node.0 (present_events self.now.history) }
        ensures few { AreFew result }
    {
        self.counts.of(node)
    }

    /// Returns the numbers of messages sent, messages received and tasks done in the present generation.
    pub fn totals(&self) -> (u32, u32, u32)
        ensures sent { result.0 ≡ count is_send (present (steps_of self.now.history)) }
        ensures received { result.1 ≡ count is_recv (present (steps_of self.now.history)) }
        ensures done { result.2 ≡ count is_done (present (steps_of self.now.history)) }
    {
        (
            self.routes.len() as u32,
            self.counts.received,
            self.counts.done,
        )
    }

    /// Returns whether this message was sent from the one node to the other in the present generation.
    pub fn gave(&self, from: NodeId, to: NodeId, message: MessageId) -> bool
        ensures { result ≡ any (is_send_between from.0 to.0 message.0) (present (steps_of self.now.history)) }
    {
        self.routes.has(from, to, message)
    }

    /// Sets the fault, unless one was set before.
    pub fn set_fault(&mut self, fault: Refusal)
        ensures { self.new ≡ with_fault fault self.old }
    {
        if self.fault.is_none() {
            self.fault = Some(fault);
        }
    }

    /// Returns the first fault.
    pub fn fault(&self) -> Option<Refusal>
        ensures { result ≡ self.now.fault }
    {
        self.fault
    }

    /// Returns the events.
    pub fn history(&self) -> &History
        ensures { result.now.events ≡ self.now.history }
    {
        &self.history
    }

    /// Returns the events, and drops the rest.
    pub fn into_history(self) -> History
        ensures { result.events ≡ self.history }
    {
        let EventLog {
            history,
            limit: _,
            reserved: _,
            fault: _,
            generation: _,
            counts: _,
            routes: _,
        } = self;
        history
    }
}
