//! A link: the queue of the messages in flight from one node to another.
ghost use Rattle.std.specs.Prelude.{◌≡◌, ◌==◌, ◌+◌, ◌<◌, ◌≤◌, ◌↔◌, ℕ, [], ◌∷◌, ◌++◌, length, option_to_list, option_copied, slice_get};
ghost use Rattle.std.specs.Prelude.{drop, IsOk, IsSome, IfErr, IfOk, OnOk, OnErr};
ghost use Rattle.tp_base.specs.declared.Refusal.TheVariants.{NoMemory};
ghost use Rattle.tp_graph.specs.Link.{IsUnchanged};

use crate::routed::Routed;
use std::alloc::{AllocError, Global};
use std::collections::VecDeque;
use std::marker::Model;
use tp_base::{NodeId, Refusal};

/// The messages in flight from one node to another, first in, first out. Contracts see its two ends, the list of its
/// messages, oldest first, and its room: how many more messages can be put before memory has to grow.
#[derive(Drop)]
pub struct Link<M: Routed> {
    from: NodeId,
    to: NodeId,
    messages: VecDeque<M>,
}

impl<M: Routed> Model for Link<M> {
    ghost use Rattle.std.specs.{Prelude.◌-◌, VecDeque.{deque_len, deque_capacity}};
    ghost use Rattle.tp_graph.specs.Link.{Line};

    ghost Value = { Line M };

    ghost view = { λ l. record {
      from = l.from.0;
      to = l.to.0;
      messages = l.messages.items;
      room = deque_capacity l.messages - deque_len l.messages;
    } };
}

impl<M: Routed> Link<M> {
    /// Returns a link without messages. It allocates nothing.
    pub fn new(alloc: Global, from: NodeId, to: NodeId) -> Self
        ensures from { result.from ≡ from.0 }
        ensures to { result.to ≡ to.0 }
        ensures empty { result.messages ≡ [] }
    {
        Link {
            from,
            to,
            messages: VecDeque::new(alloc),
        }
    }

    /// Returns the node that sends on the link.
    pub fn from(&self) -> NodeId
        ensures { result.0 ≡ self.now.from }
    {
        self.from
    }

    /// Returns the node that receives from the link.
    pub fn to(&self) -> NodeId
        ensures { result.0 ≡ self.now.to }
    {
        self.to
    }

    /// Returns the number of messages in flight.
    pub fn len(&self) -> usize
        ensures { result ≡ length self.now.messages }
    {
        self.messages.len()
    }

    /// Returns whether no message is in flight.
    pub fn is_empty(&self) -> bool
        ensures { result ≡ (length self.now.messages == 0) }
    {
        self.messages.is_empty()
    }

    /// Reserves room for `additional` more messages. The room never shrinks, even if the allocation fails.
    pub fn reserve(&mut self, additional: usize) -> Result<(), AllocError>
        ensures kept { IsUnchanged self.old self.new }
        ensures room { OnOk result (additional ≤ self.new.room) }
        ensures keeps { self.old.room ≤ self.new.room }
        ensures grows { OnErr result (self.old.room < additional) }
    {
        self.messages.reserve(additional)
    }

    /// Puts a message at the end. The caller has reserved room for it, so nothing is allocated.
    pub fn put_reserved(&mut self, message: M)
        requires of_pair { (M.sender message ≡ self.old.from) × (M.receiver message ≡ self.old.to) }
        requires room { 0 < self.old.room }
        ensures ends { (self.new.from ≡ self.old.from) × (self.new.to ≡ self.old.to) }
        ensures last { self.new.messages ≡ self.old.messages ++ message ∷ [] }
        ensures room { self.new.room + 1 ≡ self.old.room }
    {
        self.messages.push_back_reserved(message);
    }

    /// Puts a message at the end, and allocates if there is no room. Refused with `NoMemory` if there is no room and
    /// the allocation fails; the message is returned with the refusal.
    pub fn put(&mut self, message: M) -> Result<(), (Refusal, M)>
        requires of_pair { (M.sender message ≡ self.old.from) × (M.receiver message ≡ self.old.to) }
        ensures ends { (self.new.from ≡ self.old.from) × (self.new.to ≡ self.old.to) }
        ensures last { OnOk result (self.new.messages ≡ self.old.messages ++ message ∷ []) }
        ensures refused { IfErr result (λ e. (e.0 ≡ NoMemory) × (e.1 ≡ message)) }
        ensures kept { OnErr result (self.new.messages ≡ self.old.messages) }
        ensures keeps { self.old.room ≤ self.new.room + 1 }
        ensures grows { OnErr result (self.old.room ≡ 0) }
    {
        if self.reserve(1).is_err() {
            return Err((Refusal::NoMemory, message));
        }
        self.put_reserved(message);
        Ok(())
    }

    /// Removes and returns the oldest message, or returns `None` if there is none.
    pub fn get(&mut self) -> Option<M>
        ensures ends { (self.new.from ≡ self.old.from) × (self.new.to ≡ self.old.to) }
        ensures first { self.old.messages ≡ option_to_list result ++ self.new.messages }
        ensures some { IsSome result ↔ (0 < length self.old.messages) }
        ensures keeps { self.old.room ≤ self.new.room }
    {
        self.messages.pop_front()
    }

    /// Replaces the oldest message and returns it. If the link is empty, the new message is returned as the error. It
    /// allocates nothing, and the number of messages stays the same.
    pub fn replace_front(&mut self, message: M) -> Result<M, M>
        requires of_pair { (M.sender message ≡ self.old.from) × (M.receiver message ≡ self.old.to) }
        ensures ends { (self.new.from ≡ self.old.from) × (self.new.to ≡ self.old.to) }
        ensures ok { IsOk result ↔ (0 < length self.old.messages) }
        ensures first { IfOk result (λ oldest. self.old.messages ≡ oldest ∷ drop 1 self.old.messages) }
        ensures replaced { OnOk result (self.new.messages ≡ message ∷ drop 1 self.old.messages) }
        ensures refused { IfErr result (λ e. e ≡ message) }
        ensures kept { OnErr result (self.new.messages ≡ self.old.messages) }
        ensures number { length self.new.messages ≡ length self.old.messages }
        ensures room { self.new.room ≡ self.old.room }
    {
        let Some(oldest) = self.messages.pop_front() else {
            return Err(message);
        };
        self.messages.push_front_reserved(message);
        Ok(oldest)
    }

    /// Returns the oldest message, which stays on the link, or `None` if there is none.
    pub fn front(&self) -> Option<&M>
        ensures { option_copied result ≡ slice_get self.now.messages 0 }
    {
        self.messages.front()
    }
}
