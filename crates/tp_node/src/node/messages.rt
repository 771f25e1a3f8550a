//! The calls of a node that send, receive and deliver messages.
ghost use Rattle.std.specs.Prelude.{◌≡◌, ◌≤◌, ◌<◌, ◌+◌, [], ◌∷◌, false, Some, None, slice_get, IfOk, IsTrue, MatchOption, OnErr, OnOk};
ghost use Rattle.tp_base.specs.Checks.{first_refusal};
ghost use Rattle.tp_board.specs.{Calls.{IsChecked, IsCheckedWith, Appends}, Numbers.{is_send, receiving, sending}};
ghost use Rattle.{tp_graph.specs.Carried.IsFeed, tp_wave.specs.{Generations.present, Machine.{is_send_to, steps_of}, Steps.{any, count}}};
ghost use Rattle.tp_node.specs.{Actions.{has_message, without_message}, Calls.{Receives, Rests}, Feeds.{HasFeed, next_feed_of, next_home}};
ghost use Rattle.tp_node.specs.{Feeds.passed_on, Nodes.{HasBrought, after, delivered_with, ending_of, event_of, putting_at, with_actions}};
ghost use Rattle.tp_node.specs.{Nodes.with_sent, PoolLinks.{generation_of, message_on, with_message}, Refused.deliver_checks};
ghost use Rattle.{tp_node.specs.Refused.{message_checks, receive_checks, send_checks}, tp_store.specs.Content.refusal_of_deliver};

use crate::node::Node;
use crate::node::tasks::make_room;
use crate::pool_link::PoolLink;
use crate::work::Finished;
use tp_base::{MessageId, Refusal};
use tp_board::{Board, Ledgers};
use tp_graph::{Comparable, Feed, Graph, Message, Parcel};

impl<G: Graph, K: Ledgers> Node<G, K> {
    /// Sends the next feed of a task that runs here to the node at the end of a link, and returns the number of the
    /// message. That is how many messages were sent before it in the present generation; the message carries it.
    ///
    /// Refused with `WrongLife` if the finished task does not run here; `HistoryFull` if the history has reached its
    /// limit; `NoMemory`.
    pub fn send(
        &mut self,
        pool_link: &mut PoolLink<G, K>,
        board: &mut Board<K>,
        finished: &mut Finished<G>,
    ) -> Result<MessageId, Refusal>
        requires graph { finished.old.graph ≡ self.old.graph }
        requires next { HasFeed (G.meaning self.old.graph) finished.old }
        requires from_here { pool_link.old.from ≡ self.old.numbers.node }
        requires there { next_home (G.meaning self.old.graph) finished.old self.old.nodes ≡ pool_link.old.to }
        ensures number { IfOk result (λ m. m.0 ≡ count is_send (present (steps_of board.old.history))) }
        ensures event { IfOk result (λ m.
            Appends (event_of self.old (sending (generation_of board.old) self.old.numbers.node pool_link.old.to m.0)
            ∷ []) board.old board.new) }
        ensures sent { IfOk result (λ m. self.new
            ≡ after (sending (generation_of board.old) self.old.numbers.node pool_link.old.to m.0) (with_sent self.old.state) self.old) }
        ensures last { IfOk result (λ m. pool_link.new
            ≡ with_message
            (message_on pool_link.old self.old.graph (generation_of board.old) m.0 (next_feed_of (G.meaning self.old.graph) finished.old)
            finished.old.value) pool_link.old) }
        ensures passed { OnOk result (finished.new ≡ passed_on finished.old) }
        ensures refusal { IsChecked (send_checks self.old board.old finished.old.task) result }
        ensures refused { OnErr result (Appends [] board.old board.new × (self.new ≡ self.old) × (pool_link.new ≡ pool_link.old)
            × (finished.new ≡ finished.old)) }
    {
        self.check_runs(finished.task())?;
        board.reserve(1)?;
        let value = finished.value().clone()?;
        board.audit(&mut self.shares);
        let feed = finished.next_feed();
        let number = pool_link.put(board, &mut self.shares, self.graph, feed, value)?;
        let Ok(()) = self.local.send() else {
            unreachable!()
        };
        finished.pass_on();
        Ok(number)
    }

    /// Delivers the value of a received message to its task, and then closes the action of the message: two events. The
    /// action has to be open with this feed. The task belongs to this node; it is inserted if it is unknown, and else
    /// supplied. The action is closed in the present generation, even if the parcel is of an earlier one whose number
    /// is open again with this feed.
    ///
    /// Refused, and the parcel returned, with `TaskKnown` if the target has begun or is done; `SlotTaken` if its slot
    /// has its value; `HistoryFull` if the history has room for fewer than two more events; `StoreFull` if the target
    /// is unknown and 65,536 tasks are not done; `NoMemory`.
    pub fn deliver(
        &mut self,
        board: &mut Board<K>,
        parcel: Parcel<G>,
    ) -> Result<(), (Refusal, Parcel<G>)>
        requires graph { parcel.graph ≡ self.old.graph }
        requires brought { HasBrought (G.meaning self.old.graph) self.old parcel }
        ensures events { OnOk result
            (Appends (event_of self.old (ending_of (generation_of board.old) parcel.number.0 self.old)
            ∷ event_of self.old (putting_at (G.meaning self.old.graph) parcel.feed self.old) ∷ []) board.old board.new) }
        ensures delivered { OnOk result (self.new
            ≡ delivered_with (G.meaning self.old.graph) parcel.feed parcel.value (generation_of board.old) parcel.number.0 self.old) }
        ensures refusal { IsCheckedWith (deliver_checks (G.meaning self.old.graph) self.old board.old parcel.feed) parcel result }
        ensures refused { OnErr result (Appends [] board.old board.new × (self.new ≡ self.old)) }
    {
        let feed = parcel.feed();
        let _ = &self.local; // the open action is pending
        if let Err(refusal) = self.room_to_deliver(board, feed) {
            return Err((refusal, parcel));
        }
        let (graph, from, to) = (parcel.graph(), parcel.from(), parcel.to());
        let (number, generation) = (parcel.number(), parcel.generation());
        match self.put(board, feed, parcel.into_value()) {
            Ok(()) => {
                self.end(board, number);
                Ok(())
            }
            Err((refusal, value)) => {
                let parcel = Parcel::new(graph, number, generation, from, to, feed, value);
                Err((refusal, parcel))
            }
        }
    }
}

impl<G: Comparable, K: Ledgers> Node<G, K> {
    /// Receives the oldest message of a link to this node, or returns `None` if the link is empty. The message is
    /// counted, and its action opens with the feed that it brings.
    ///
    /// Refused, if there is a message, which stays on the link: `WrongLife` if termination was announced; `Stranger` if
    /// the message is of another graph or of another generation, if the board never gave its number to this pair of
    /// nodes in the present generation, or if the action of that number is open here; `HistoryFull` if the history has
    /// reached its limit; `NoMemory`.
    pub fn receive(
        &mut self,
        pool_link: &mut PoolLink<G, K>,
        board: &mut Board<K>,
    ) -> Result<Option<Parcel<G>>, Refusal>
        requires to_here { pool_link.old.to ≡ self.old.numbers.node }
        ensures none { pool_link.old.messages ≡ [] → result ≡ Ok None }
        ensures received { IfOk result (λ parcel.
            MatchOption parcel ((pool_link.old.messages ≡ []) × Rests self.old self.new board.old board.new
            × (pool_link.new ≡ pool_link.old)) (Receives self.old self.new board.old board.new pool_link.old pool_link.new)) }
        ensures brought { IfOk result (λ parcel. MatchOption parcel (Unit {0}) (HasBrought (G.meaning self.new.graph) self.new)) }
        ensures refusal { MatchOption (slice_get pool_link.old.messages 0) (Unit {0}) (λ m.
            IsChecked (receive_checks self.old board.old pool_link.old (G.eq m.graph self.old.graph) m) result) }
        ensures refused { OnErr result (Appends [] board.old board.new × (self.new ≡ self.old) × (pool_link.new ≡ pool_link.old)) }
    {
        let Some(message) = pool_link.front() else {
            return Ok(None);
        };
        let number = message.number();
        let feed = message.feed();
        self.check_message(pool_link, board, message)?;
        board.reserve(1)?;
        board.audit(&mut self.shares);
        self.local.receive(number, feed)?;
        let message = pool_link.take(board, &mut self.shares);
        Ok(Some(message.receive()))
    }

    /// Checks whether a message of a link can be received, apart from places and memory.
    fn check_message(
        &self,
        pool_link: &PoolLink<G, K>,
        board: &Board<K>,
        message: &Message<G>,
    ) -> Result<(), Refusal>
        ensures refusal { MatchOption
            (first_refusal (message_checks self.now board.now pool_link.now (G.eq message.now.graph self.now.graph) message.now))
            (result ≡ Ok tt) (λ e. result ≡ Err e) }
        ensures graph { OnOk result (message.now.graph ≡ self.now.graph) }
        ensures generation { OnOk result (message.now.generation.0 ≡ generation_of board.now) }
        ensures sent { OnOk result
            (IsTrue (any (is_send_to pool_link.now.to message.now.number.0) (present (steps_of board.now.history)))) }
        ensures closed { OnOk result ((self.now.state.ended ≡ false) × (has_message self.now.state.actions message.now.number.0 ≡ false)) }
    {
        if self.local.is_over() {
            return Err(Refusal::WrongLife);
        }
        let number = message.number();
        let is_same = message.graph() == self.graph;
        let is_present = message.generation() == board.generation();
        let was_given = board.gave(pool_link.from(), pool_link.to(), number);
        if !is_same || !is_present || !was_given || self.local.has_message(number) {
            return Err(Refusal::Stranger);
        }
        Ok(())
    }
}

// The parts of these calls.
impl<G: Graph, K: Ledgers> Node<G, K> {
    /// Reserves what a delivery needs: room for the value, and for both events.
    fn room_to_deliver(&self, board: &mut Board<K>, feed: Feed) -> Result<(), Refusal>
        requires active { 0 < self.now.numbers.pending }
        requires feed { IsFeed (G.meaning self.now.graph) feed }
        ensures reserved { OnOk result (2 ≤ board.new.reserved) }
        ensures free { OnOk result
            (refusal_of_deliver self.now.state.store feed.target ((G.meaning self.now.graph).arity feed.target.0) feed.slot
            ≡ None) }
        ensures refusal { IsChecked (deliver_checks (G.meaning self.now.graph) self.now board.old feed) result }
        ensures same { Appends [] board.old board.new }
    {
        let is_full = self.check_put(feed)?;
        make_room(board, 2, is_full)
    }

    /// Closes the action of a message, in the place that was reserved for its event.
    fn end(&mut self, board: &mut Board<K>, message: MessageId)
        requires reserved { 0 < board.old.reserved }
        requires few { message.0 < 1048576 }
        requires open { IsTrue (has_message self.old.state.actions message.0) }
        ensures event { Appends (event_of self.old (ending_of (generation_of board.old) message.0 self.old) ∷ []) board.old board.new }
        ensures ended { self.new
            ≡ after (ending_of (generation_of board.old) message.0 self.old)
            (with_actions (without_message self.old.state.actions message.0) self.old.state) self.old }
    {
        let Ok(()) = board.append_end(message, &mut self.shares) else {
            unreachable!()
        };
        let Ok(()) = self.local.end(message) else {
            unreachable!()
        };
    }
}
