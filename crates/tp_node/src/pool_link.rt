//! A link of a pool: a queue of messages together with its share of the messages in flight.
ghost use Rattle.std.specs.Prelude.{◌≡◌, ◌+◌, ◌<◌, ◌≤◌, ◌↔◌, [], ◌∷◌, ◌++◌, drop, length, option_copied, slice_get, IfErr, IfOk, IsOk};
ghost use Rattle.{std.specs.Prelude.{OnErr, OnOk, Some, IsTrue}, tp_graph.specs.{Carried.{Carried, IsFeed}, Values.value_of}};
ghost use Rattle.tp_board.specs.{Calls.{IsChecked, Appends}, Numbers.{event, is_send, numbers_after, receiving, sending}};
ghost use Rattle.tp_board.specs.States.{full_check};
ghost use Rattle.tp_node.specs.PoolLinks.{IsOnWay, empty_pool_link, generation_of, link_of, message_on, with_message};
ghost use Rattle.tp_wave.specs.{Generations.present, Machine.{is_send_to, steps_of, under_way}, Steps.{any, count}};

use std::alloc::Global;
use std::marker::Model;
use tp_base::{MessageId, NodeId, Refusal};
use tp_board::{Board, Ledgers, LinkShare, Shares};
use tp_graph::{Feed, Graph, Link, Message, Value};

/// A link of messages from one node to another, with its share of the messages in flight. Its invariant: the share is
/// the number of its messages, and each message goes from the one node to the other, to which the target of its feed
/// belongs. Contracts see its two nodes and its messages, oldest first.
#[derive(Drop)]
pub struct PoolLink<G: Graph, K: Ledgers> {
    link: Link<Message<G>>,
    share: LinkShare<K>,
}

impl<G: Graph, K: Ledgers> Model for PoolLink<G, K> {
    ghost use Rattle.tp_node.specs.PoolLinks.{IsPoolLink, PoolLinkState};

    ghost Value = { PoolLinkState G };

    ghost view = { λ w. record { from = w.share.from; to = w.share.to; messages = w.link.messages } };

    ghost invariant = { λ w. IsPoolLink (λ graph. G.meaning graph) K.names.nodes w.link w.share };
}

impl<G: Graph, K: Ledgers> PoolLink<G, K> {
    /// Returns a link without messages. It allocates nothing.
    pub fn new(alloc: Global, share: LinkShare<K>) -> Self
        requires { share.under ≡ 0 }
        ensures { result ≡ empty_pool_link share }
    {
        let link = Link::new(alloc, share.from(), share.to());
        PoolLink { link, share }
    }

    /// Returns the node that sends on the link.
    pub fn from(&self) -> NodeId
        ensures number { result.0 ≡ self.now.from }
        ensures below { self.now.from < K.names.nodes }
    {
        self.share.from()
    }

    /// Returns the node that receives from the link.
    pub fn to(&self) -> NodeId
        ensures number { result.0 ≡ self.now.to }
        ensures below { self.now.to < K.names.nodes }
    {
        self.share.to()
    }

    /// Returns the number of messages in flight on the link.
    pub fn len(&self) -> usize
        ensures { result ≡ length self.now.messages }
    {
        self.link.len()
    }

    /// Returns the oldest message, which stays on the link, or `None` if there is none.
    pub fn front(&self) -> Option<&Message<G>>
        ensures { option_copied result ≡ slice_get self.now.messages 0 }
    {
        self.link.front()
    }

    /// Replaces the oldest message and returns it. If the link is empty, the new message is returned as the error. It
    /// allocates nothing, and the number of messages stays the same. The message may be of another graph or pool.
    pub fn replace_front(&mut self, message: Message<G>) -> Result<Message<G>, Message<G>>
        requires of_pair { (message.from.0 ≡ self.old.from) × (message.to.0 ≡ self.old.to) }
        requires home { (G.meaning message.graph).home message.feed.target.0 K.names.nodes ≡ self.old.to }
        ensures ends { (self.new.from ≡ self.old.from) × (self.new.to ≡ self.old.to) }
        ensures ok { IsOk result ↔ (0 < length self.old.messages) }
        ensures first { IfOk result (λ oldest. self.old.messages ≡ oldest ∷ drop 1 self.old.messages) }
        ensures replaced { OnOk result (self.new.messages ≡ message ∷ drop 1 self.old.messages) }
        ensures refused { IfErr result (λ e. e ≡ message) }
        ensures kept { OnErr result (self.new ≡ self.old) }
        ensures number { length self.new.messages ≡ length self.old.messages }
    {
        self.link.replace_front(message)
    }

    /// Shows that no more messages are in flight on the link than in the present generation. Changes nothing.
    pub(crate) fn audit(&mut self, board: &mut Board<K>)
        ensures same { (self.new ≡ self.old) × (board.new ≡ board.old) }
        ensures under { length self.old.messages ≤ under_way (present (steps_of board.old.history)) }
    {
        board.audit_link(&mut self.share);
    }

    /// Returns the share, and drops the messages.
    pub fn into_share(self) -> LinkShare<K>
        ensures { result ≡ link_of self }
    {
        let PoolLink { link: _, share } = self;
        share
    }

    /// Sends the value that a feed waits for. The message gets the next number of the present generation.
    ///
    /// Refused with `HistoryFull` if the history has reached its limit; `NoMemory` if memory has to grow and the
    /// allocation fails.
    pub(crate) fn put(
        &mut self,
        board: &mut Board<K>,
        shares: &mut Shares<K>,
        graph: G,
        feed: Feed,
        value: Value,
    ) -> Result<MessageId, Refusal>
        requires active { 0 < shares.old.pending }
        requires of_pool_link { self.old.from ≡ shares.old.node }
        requires right { value_of (G.meaning graph) feed.producer.0 ≡ Some value }
        requires fed { IsFeed (G.meaning graph) feed }
        requires there { (G.meaning graph).home feed.target.0 K.names.nodes ≡ self.old.to }
        ensures number { IfOk result (λ m. m.0 ≡ count is_send (present (steps_of board.old.history))) }
        ensures sent { IfOk result (λ m.
            Appends (event shares.old.node (sending (generation_of board.old) shares.old.node self.old.to m.0) ∷ []) board.old board.new) }
        ensures shares { IfOk result (λ m. shares.new
            ≡ numbers_after (sending (generation_of board.old) shares.old.node self.old.to m.0) shares.old) }
        ensures last { IfOk result (λ m. self.new
            ≡ with_message (message_on self.old graph (generation_of board.old) m.0 feed value) self.old) }
        ensures refusal { IsChecked (full_check 1 board.old ∷ []) result }
        ensures refused { OnErr result (Appends [] board.old board.new × (shares.new ≡ shares.old) × (self.new ≡ self.old)) }
    {
        board.reserve(1)?;
        self.link.reserve(1)?;
        let (from, to) = (self.share.from(), self.share.to());
        let generation = board.generation();
        let Ok(number) = board.append_send(shares, &mut self.share) else {
            unreachable!()
        };
        self.link.put_reserved(Message::new(graph, number, generation, from, to, feed, value));
        Ok(number)
    }

    /// Removes and returns the oldest message, which was sent to the node in the present generation, in the place that
    /// was reserved for its event.
    pub(crate) fn take(&mut self, board: &mut Board<K>, shares: &mut Shares<K>) -> Message<G>
        requires reserved { 0 < board.old.reserved }
        requires to_node { self.old.to ≡ shares.old.node }
        requires some { 0 < length self.old.messages }
        requires sent { (m : Carried G) → slice_get self.old.messages 0 ≡ Some m
            → IsTrue (any (is_send_to self.old.to m.number.0) (present (steps_of board.old.history))) }
        ensures first { self.old.messages ≡ result ∷ self.new.messages }
        ensures on_way { IsOnWay (G.meaning result.graph) K.names.nodes self.old.from self.old.to result }
        ensures ends { (self.new.from ≡ self.old.from) × (self.new.to ≡ self.old.to) }
        ensures received { Appends (event shares.old.node (receiving (generation_of board.old) shares.old.node result.number.0)
            ∷ []) board.old board.new }
        ensures shares { shares.new ≡ numbers_after (receiving (generation_of board.old) shares.old.node result.number.0) shares.old }
    {
        let Some(message) = self.link.get() else {
            unreachable!()
        };
        let Ok(()) = board.append_recv(message.number(), shares, &mut self.share) else {
            unreachable!()
        };
        message
    }
}
