//! The shares of nodes and links in a pool's ledgers.
ghost use Rattle.std.specs.Prelude.{◌≡◌, ◌≢◌, ◌<◌, ◌+◌, ◌-◌};
ghost use Rattle.tp_board.specs.Numbers.{empty_link, empty_parts, first_numbers};

use crate::names::{Done, Ledgers, Received, Sent, Under};
use crate::pending::PendingOf;
use std::marker::Model;
use std::sync::ledger::Share;
use tp_base::NodeId;

/// One node's shares of the pool's ledgers. Contracts see the node and its numbers.
#[derive(Drop)]
pub struct Shares<K: Ledgers> {
    pub(crate) pending: PendingOf<K>,
    pub(crate) sent: Share<Sent<K>>,
    pub(crate) received: Share<Received<K>>,
    pub(crate) done: Share<Done<K>>,
}

impl<K: Ledgers> Model for Shares<K> {
    ghost use Rattle.std.specs.Prelude.{◌≡◌, ◌<◌};
    ghost use Rattle.tp_board.specs.Numbers.{ShareNumbers};

    ghost Value = { ShareNumbers };

    ghost view = { λ s. record {
      node = s.pending.node;
      pending = s.pending.amount;
      sent = s.sent.amount;
      received = s.received.amount;
      done = s.done.amount;
    } };

    ghost invariant = { λ s. (s.pending.node < K.names.nodes) × (s.sent.parts ≡ 1) × (s.received.parts ≡ 1) × (s.done.parts ≡ 1) };
}

impl<K: Ledgers> Shares<K> {
    /// Returns a node's first shares.
    pub(crate) fn new(pending: PendingOf<K>, parts: Parts<K>) -> Shares<K>
        requires pending { (pending.node < K.names.nodes) × (pending.amount ≡ 1) }
        requires parts { parts ≡ empty_parts 1 }
        ensures { result ≡ first_numbers pending.node }
    {
        let Parts {
            sent,
            received,
            done,
        } = parts;
        Shares {
            pending,
            sent,
            received,
            done,
        }
    }

    /// Returns the shares except the pending one, which is dropped.
    pub fn into_parts(self) -> Parts<K>
        ensures { result ≡ record { parts = 1; sent = self.sent; received = self.received; done = self.done } }
    {
        let Shares {
            pending: _,
            sent,
            received,
            done,
        } = self;
        Parts {
            sent,
            received,
            done,
        }
    }

    /// Returns the node.
    pub fn node(&self) -> NodeId
        ensures number { result.0 ≡ self.now.node }
        ensures below { self.now.node < K.names.nodes }
    {
        NodeId(self.pending.node())
    }
}

/// Shares of the ledgers in which each node has a part. Contracts see how many nodes' parts they are, and the numbers.
#[derive(Drop)]
pub struct Parts<K: Ledgers> {
    pub(crate) sent: Share<Sent<K>>,
    pub(crate) received: Share<Received<K>>,
    pub(crate) done: Share<Done<K>>,
}

impl<K: Ledgers> Model for Parts<K> {
    ghost use Rattle.std.specs.Prelude.{◌≡◌};
    ghost use Rattle.tp_board.specs.Numbers.{PartNumbers};

    ghost Value = { PartNumbers };

    ghost view = { λ p. record { parts = p.sent.parts; sent = p.sent.amount; received = p.received.amount; done = p.done.amount } };

    ghost invariant = { λ p. (p.received.parts ≡ p.sent.parts) × (p.done.parts ≡ p.sent.parts) };
}

impl<K: Ledgers> Parts<K> {
    /// Splits off one node's first shares.
    pub(crate) fn split_off(&mut self) -> Parts<K>
        requires { (0 < self.old.parts) × (self.old ≡ empty_parts self.old.parts) }
        ensures one { result ≡ empty_parts 1 }
        ensures left { self.new ≡ empty_parts (self.old.parts - 1) }
    {
        Parts {
            sent: self.sent.split_off(1, 0),
            received: self.received.split_off(1, 0),
            done: self.done.split_off(1, 0),
        }
    }

    /// Joins the shares of other nodes.
    pub fn merge(&mut self, other: Parts<K>)
        ensures { self.new
            ≡ record {
              parts = self.old.parts + other.parts;
              sent = self.old.sent + other.sent;
              received = self.old.received + other.received;
              done = self.old.done + other.done;
            } }
    {
        let Parts {
            sent,
            received,
            done,
        } = other;
        self.sent.merge(sent);
        self.received.merge(received);
        self.done.merge(done);
    }
}

/// A link's share of the messages in flight. Contracts see its two nodes and the number.
#[derive(Drop)]
pub struct LinkShare<K: Ledgers> {
    from: NodeId,
    to: NodeId,
    pub(crate) under: Share<Under<K>>,
}

impl<K: Ledgers> Model for LinkShare<K> {
    ghost use Rattle.std.specs.Prelude.{◌≡◌, ◌≢◌, ◌<◌};
    ghost use Rattle.tp_board.specs.Numbers.{LinkNumbers};

    ghost Value = { LinkNumbers };

    ghost view = { λ l. record { from = l.from.0; to = l.to.0; under = l.under.amount } };

    ghost invariant = { λ l. (l.from.0 < K.names.nodes) × (l.to.0 < K.names.nodes) × (l.from.0 ≢ l.to.0) × (l.under.parts ≡ 1) };
}

impl<K: Ledgers> LinkShare<K> {
    /// Returns the share of an empty link.
    pub(crate) fn new(from: NodeId, to: NodeId, under: Share<Under<K>>) -> LinkShare<K>
        requires nodes { (from.0 < K.names.nodes) × (to.0 < K.names.nodes) × (from.0 ≢ to.0) }
        requires share { (under.parts ≡ 1) × (under.amount ≡ 0) }
        ensures { result ≡ empty_link from.0 to.0 }
    {
        LinkShare { from, to, under }
    }

    /// Returns the node that sends on the link.
    pub fn from(&self) -> NodeId
        ensures number { result.0 ≡ self.now.from }
        ensures below { self.now.from < K.names.nodes }
    {
        self.from
    }

    /// Returns the node that receives from the link, which is another one.
    pub fn to(&self) -> NodeId
        ensures number { result.0 ≡ self.now.to }
        ensures below { self.now.to < K.names.nodes }
        ensures apart { self.now.from ≢ self.now.to }
    {
        self.to
    }

    /// Returns the share of the messages in flight, and drops the rest.
    pub fn into_share(self) -> Share<Under<K>>
        ensures { (result.parts ≡ 1) × (result.amount ≡ self.under) }
    {
        let LinkShare {
            from: _,
            to: _,
            under,
        } = self;
        under
    }
}
