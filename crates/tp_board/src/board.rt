//! The board: what a pool keeps under its board lock, and the calls that record an event.
ghost use Rattle.std.specs.Prelude.{◌≡◌, ◌==◌, ◌≤◌, ◌<◌, ◌+◌, ◌-◌, ◌∷◌, ℕ, [], length, max, slice_index, IsTrue, IfErr, IfOk, IsOk, OnErr};
ghost use Rattle.std.specs.Prelude.{OnOk, None};
ghost use Rattle.tp_board.specs.{Books.first_totals, Names.under_parts, Numbers.{AreWithin, ending, event, is_done, is_plain, is_recv}};
ghost use Rattle.tp_board.specs.{Numbers.{is_send, numbers_after, receiving, sending}, Routes.is_send_between, States.IsCheckedFor};
ghost use Rattle.tp_board.specs.States.{IsAtPiece, IsPastPiece, full_check, with_event, with_fault, with_reserved};
ghost use Rattle.tp_wave.specs.{Cut.IsQuietHistory, Generations.{AreRuns, generation, present, present_events}, Machine.{IsOf, is_send_to}};
ghost use Rattle.tp_wave.specs.{Machine.{pending_at, steps_of, under_way}, Steps.{any, count}, Sums.is_ended};

use crate::books::Totals;
use crate::event_log::EventLog;
use crate::{Accounts, Ledgers, LinkShare, Parts, Shares, Under};
use std::alloc::Global;
use std::marker::Model;
use std::sync::ledger::Share;
use tp_base::{Generation, History, MessageId, NodeId, Refusal, Step};
use tp_wave::Wave;

/// What the lock of a pool's board protects: the history, the books of the ledgers, the wave and the first fault.
///
/// Its invariant: for each generation the history is a run of the counting machine, each book has the number of the
/// present generation, and the wave is in the state to which that run led. Contracts see the events of all generations,
/// newest first, the limit of events, for how many more events a place and memory are reserved, and the fault.
#[derive(Drop)]
pub struct Board<K: Ledgers> {
    pub(crate) nodes: u32,
    pub(crate) event_log: EventLog,
    pub(crate) accounts: Accounts<K>,
    pub(crate) wave: Wave,
}

impl<K: Ledgers> Model for Board<K> {
    ghost use Rattle.tp_board.specs.{Boards.IsBoardOf, States.BoardState};

    ghost Value = { BoardState };

    ghost view = { λ b. b.event_log };

    ghost invariant = { λ b. IsBoardOf K.names.nodes b.nodes b.event_log.history b.accounts b.wave };
}

impl<K: Ledgers> Board<K> {
    /// Returns a board with an empty history.
    pub(crate) fn new(alloc: Global, nodes: u32, limit: u32, accounts: Accounts<K>) -> Board<K>
        requires nodes { (nodes ≡ K.names.nodes) × (1 ≤ nodes) × (nodes ≤ 8) }
        requires limit { limit ≤ 1048576 }
        requires accounts { accounts ≡ first_totals }
        ensures { result ≡ record { history = []; limit = limit; reserved = 0; fault = None } }
    {
        Board {
            nodes,
            event_log: EventLog::new(alloc, limit),
            accounts,
            wave: Wave::new(nodes),
        }
    }

    /// Returns the number of nodes of the pool.
    pub fn nodes(&self) -> u32
        ensures number { result ≡ K.names.nodes }
        ensures few { (1 ≤ result) × (result ≤ 8) }
    {
        self.nodes
    }

    /// Returns the number of the present generation: the first is 1, and each reopening adds one. There are at most 131,073,
    /// because each that ended has at least eight of the 1,048,576 events that fit.
    pub fn generation(&self) -> Generation
        ensures number { result.0 ≡ generation (steps_of self.now.history) }
        ensures small { result.0 < 131074 }
    {
        self.event_log.generation()
    }

    /// Returns the most events that the history can have, over all generations.
    pub fn limit(&self) -> u32
        ensures { result ≡ self.now.limit }
    {
        self.event_log.limit()
    }

    /// Returns the number of events, over all generations.
    pub fn len(&self) -> usize
        ensures number { result ≡ length self.now.history }
        ensures small { result ≤ 1048576 }
    {
        self.event_log.len()
    }

    /// Returns whether there are no events.
    pub fn is_empty(&self) -> bool
        ensures { result ≡ (length self.now.history == 0) }
    {
        self.event_log.history().is_empty()
    }

    /// Returns the events of all generations; those of each generation are a run.
    pub fn history(&self) -> &History
        ensures events { result.now.events ≡ self.now.history }
        ensures run { AreRuns K.names.nodes self.now.history }
    {
        self.event_log.history()
    }

    /// Returns the events of all generations, those of each a run, and drops the rest.
    pub fn into_history(self) -> History
        ensures events { result.events ≡ self.history }
        ensures run { AreRuns K.names.nodes self.history }
    {
        let Board {
            nodes: _,
            event_log,
            accounts: _,
            wave: _,
        } = self;
        event_log.into_history()
    }

    /// Returns the first fault that was set.
    pub fn fault(&self) -> Option<Refusal>
        ensures { result ≡ self.now.fault }
    {
        self.event_log.fault()
    }

    /// Sets the fault, unless one was set before.
    pub fn set_fault(&mut self, fault: Refusal)
        ensures { self.new ≡ with_fault fault self.old }
    {
        self.event_log.set_fault(fault);
    }

    /// Returns the number of the next message: how many were sent before it in the present generation.
    pub fn next_message(&self) -> MessageId
        ensures { result.0 ≡ count is_send (present (steps_of self.now.history)) }
    {
        MessageId(self.event_log.totals().0)
    }

    /// Returns whether this message was sent from the one node to the other in the present generation. Takes O(1) time.
    pub fn gave(&self, from: NodeId, to: NodeId, message: MessageId) -> bool
        ensures sent { result ≡ any (is_send_between from.0 to.0 message.0) (present (steps_of self.now.history)) }
        ensures to { IsTrue result → IsTrue (any (is_send_to to.0 message.0) (present (steps_of self.now.history))) }
    {
        self.event_log.gave(from, to, message)
    }

    /// Reserves a place and memory for `more` events, so that the next ones are not refused for lack of either.
    ///
    /// Refused with `HistoryFull` if fewer places are free; `NoMemory` if memory has to grow and the allocation fails.
    /// It may have to grow if fewer than `more` places are left in the last piece of 1,024 events, or in the last piece
    /// of 1,024 messages.
    pub fn reserve(&mut self, more: u32) -> Result<(), Refusal>
        ensures ok { OnOk result (self.new ≡ with_reserved (max self.old.reserved more) self.old) }
        ensures places { OnOk result (length self.old.history + more ≤ self.old.limit) }
        ensures refusal { IsCheckedFor (full_check more self.old ∷ []) more self.old result }
        ensures piece { IfErr result (IsPastPiece more self.old) }
        ensures reserved { more ≤ self.old.reserved → IsOk result }
        ensures refused { OnErr result (self.new ≡ self.old) }
    {
        self.event_log.reserve(more)
    }

    /// Shows that a node's numbers agree with the present generation. Changes nothing.
    pub fn audit(&mut self, shares: &mut Shares<K>)
        ensures same { (self.new ≡ self.old) × (shares.new ≡ shares.old) }
        ensures node { shares.old.node < K.names.nodes }
        ensures pending { shares.old.pending ≡ pending_at shares.old.node (present_events self.old.history) }
        ensures within { AreWithin (length self.old.history) shares.old }
        ensures places { (length self.old.history + self.old.reserved ≤ self.old.limit) × (self.old.limit ≤ 1048576) }
        ensures run { AreRuns K.names.nodes self.old.history }
    {
        // Only this call shows how many places there are. Its result is not used, so it costs no instruction.
        let _count = self.event_log.len();
        self.accounts.audit(shares);
    }

    /// Shows that a link has no more messages in flight than the present generation. Changes nothing.
    pub fn audit_link(&mut self, link: &mut LinkShare<K>)
        ensures same { (self.new ≡ self.old) × (link.new ≡ link.old) }
        ensures under { link.old.under ≤ under_way (present (steps_of self.old.history)) }
        ensures small { link.old.under ≤ 1048576 }
    {
        self.accounts.audit_link(link);
    }

    /// Returns a node's pending number.
    pub(crate) fn pending(&mut self, shares: &mut Shares<K>) -> u32
        ensures same { (self.new ≡ self.old) × (shares.new ≡ shares.old) }
        ensures number { result ≡ shares.old.pending }
        ensures agrees { shares.old.pending ≡ pending_at shares.old.node (present_events self.old.history) }
        ensures small { shares.old.pending ≤ 1048577 }
    {
        self.accounts.audit(shares);
        self.event_log.counts(shares.node()).pending
    }

    /// Returns the share of no link.
    pub(crate) fn no_links(&mut self) -> Share<Under<K>>
        ensures same { self.new ≡ self.old }
        ensures none { (result.parts ≡ 0) × (result.amount ≡ 0) }
        ensures few { (1 ≤ K.names.nodes) × (K.names.nodes ≤ 8) }
    {
        self.accounts.no_links()
    }

    /// Returns the totals of the present generation, given all shares.
    pub(crate) fn close(self, pending: u32, parts: Parts<K>, under: Share<Under<K>>) -> Totals
        requires nodes { parts.parts ≡ K.names.nodes }
        requires links { under.parts + 1 ≡ under_parts K.names.nodes }
        ensures pending { result.pending ≡ pending }
        ensures sent { (result.sent ≡ parts.sent) × (result.sent ≡ count is_send (present (steps_of self.history))) }
        ensures received { (result.received ≡ parts.received) × (result.received ≡ count is_recv (present (steps_of self.history))) }
        ensures under { (result.under ≡ under.amount) × (result.under ≡ under_way (present (steps_of self.history))) }
        ensures done { (result.done ≡ parts.done) × (result.done ≡ count is_done (present (steps_of self.history))) }
        ensures balance { result.sent ≡ result.received + result.under }
        ensures ended { result.ended ≡ is_ended K.names.nodes (present (steps_of self.history)) }
        ensures quiet { IsTrue result.ended → IsQuietHistory K.names.nodes (present_events self.history) }
        ensures fault { result.fault ≡ self.fault }
        ensures history { result.history.events ≡ self.history }
        ensures run { AreRuns K.names.nodes self.history }
        ensures few { length self.history ≤ 1048576 }
    {
        let (sent, received, done) = self.event_log.totals();
        let ended = self.accounts.is_ended();
        let fault = self.event_log.fault();
        let Board {
            nodes: _,
            event_log,
            accounts,
            wave: _,
        } = self;
        accounts.close(parts, under);
        Totals {
            pending,
            sent,
            received,
            under: sent - received,
            done,
            ended,
            fault,
            history: event_log.into_history(),
        }
    }

    /// Records a step of a node that names no message.
    ///
    /// Refused with `HistoryFull` if the history has reached its limit; `NoMemory` if memory has to grow, as it may at
    /// each 1,024th event, and the allocation fails.
    #[inline(always)]
    pub fn append(&mut self, step: Step, shares: &mut Shares<K>) -> Result<(), Refusal>
        requires lawful { IsTrue (is_plain step) × IsOf shares.old.node step × (0 < shares.old.pending) }
        ensures ok { OnOk result (self.new ≡ with_event (event shares.old.node step) self.old) }
        ensures shares { OnOk result (shares.new ≡ numbers_after step shares.old) }
        ensures within { OnOk result (AreWithin 1048576 shares.new) }
        ensures refusal { IsCheckedFor (full_check 1 self.old ∷ []) 1 self.old result }
        ensures piece { IfErr result (IsAtPiece self.old) }
        ensures reserved { 0 < self.old.reserved → IsOk result }
        ensures refused { OnErr result ((self.new ≡ self.old) × (shares.new ≡ shares.old)) }
    {
        self.event_log.add(shares.node(), step)?;
        self.accounts.follow(&step, shares);
        Ok(())
    }

    /// Records the sending of the next message of the present generation over a link of the node, and returns its
    /// number: how many messages were sent before it.
    ///
    /// Refused with `HistoryFull` if the history has reached its limit; `NoMemory` if memory has to grow, as it may at
    /// each 1,024th event or message, and the allocation fails.
    pub fn append_send(
        &mut self,
        shares: &mut Shares<K>,
        link: &mut LinkShare<K>,
    ) -> Result<MessageId, Refusal>
        requires active { 0 < shares.old.pending }
        requires of_link { link.old.from ≡ shares.old.node }
        ensures number { IfOk result (λ m. m.0 ≡ count is_send (present (steps_of self.old.history))) }
        ensures small { IfOk result (λ m. m.0 < 1048576) }
        ensures ok { IfOk result (λ m. self.new
            ≡ with_event (event shares.old.node (sending (generation (steps_of self.old.history)) shares.old.node link.old.to m.0))
            self.old) }
        ensures shares { OnOk result (shares.new ≡ record shares.old { sent = shares.old.sent + 1 }) }
        ensures within { OnOk result (AreWithin 1048576 shares.new) }
        ensures link { OnOk result (link.new ≡ record link.old { under = link.old.under + 1 }) }
        ensures refusal { IsCheckedFor (full_check 1 self.old ∷ []) 1 self.old result }
        ensures piece { IfErr result (IsPastPiece 1 self.old) }
        ensures reserved { 0 < self.old.reserved → IsOk result }
        ensures refused { OnErr result ((self.new ≡ self.old) × (shares.new ≡ shares.old) × (link.new ≡ link.old)) }
    {
        let node = shares.node();
        let to = link.to();
        let generation = self.event_log.generation();
        let message = self.event_log.add_send(node, to)?;
        let step = Step::Send(node, to, message, generation);
        self.accounts.follow(&step, shares);
        self.accounts.follow_link(&step, link);
        Ok(message)
    }

    /// Records the receipt of a message that was sent to the node in the present generation and is in flight on the
    /// link.
    ///
    /// Refused with `HistoryFull` if the history has reached its limit; `NoMemory` if memory has to grow, as it may at
    /// each 1,024th event, and the allocation fails.
    pub fn append_recv(
        &mut self,
        message: MessageId,
        shares: &mut Shares<K>,
        link: &mut LinkShare<K>,
    ) -> Result<(), Refusal>
        requires few { message.0 < 1048576 }
        requires sent { IsTrue (any (is_send_to shares.old.node message.0) (present (steps_of self.old.history))) }
        requires under_way { 0 < link.old.under }
        requires of_link { link.old.to ≡ shares.old.node }
        ensures ok { OnOk result (self.new
            ≡ with_event (event shares.old.node (receiving (generation (steps_of self.old.history)) shares.old.node message.0)) self.old) }
        ensures shares { OnOk result (shares.new
            ≡ record shares.old { pending = shares.old.pending + 1; received = shares.old.received + 1 }) }
        ensures within { OnOk result (AreWithin 1048576 shares.new) }
        ensures link { OnOk result (link.new ≡ record link.old { under = link.old.under - 1 }) }
        ensures refusal { IsCheckedFor (full_check 1 self.old ∷ []) 1 self.old result }
        ensures piece { IfErr result (IsAtPiece self.old) }
        ensures reserved { 0 < self.old.reserved → IsOk result }
        ensures refused { OnErr result ((self.new ≡ self.old) × (shares.new ≡ shares.old) × (link.new ≡ link.old)) }
    {
        let node = shares.node();
        let step = Step::Recv(node, message, self.event_log.generation());
        self.event_log.add(node, step)?;
        self.accounts.follow(&step, shares);
        self.accounts.follow_link(&step, link);
        Ok(())
    }

    /// Records the end of a message's action in the present generation.
    ///
    /// Refused with `HistoryFull` if the history has reached its limit; `NoMemory` if memory has to grow, as it may at
    /// each 1,024th event, and the allocation fails.
    pub fn append_end(&mut self, message: MessageId, shares: &mut Shares<K>) -> Result<(), Refusal>
        requires few { message.0 < 1048576 }
        requires active { 0 < shares.old.pending }
        ensures ok { OnOk result (self.new
            ≡ with_event (event shares.old.node (ending (generation (steps_of self.old.history)) shares.old.node message.0)) self.old) }
        ensures shares { OnOk result (shares.new ≡ record shares.old { pending = shares.old.pending - 1 }) }
        ensures within { OnOk result (AreWithin 1048576 shares.new) }
        ensures refusal { IsCheckedFor (full_check 1 self.old ∷ []) 1 self.old result }
        ensures piece { IfErr result (IsAtPiece self.old) }
        ensures reserved { 0 < self.old.reserved → IsOk result }
        ensures refused { OnErr result ((self.new ≡ self.old) × (shares.new ≡ shares.old)) }
    {
        let node = shares.node();
        let step = Step::MessageEnd(node, message, self.event_log.generation());
        self.event_log.add(node, step)?;
        self.accounts.follow(&step, shares);
        Ok(())
    }
}
