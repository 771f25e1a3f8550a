//! The open actions of a node, which keep it from being idle.
ghost use Rattle.std.specs.Prelude.{◌≡◌, ◌+◌, ◌<◌, ◌≤◌, if◌then◌else◌, false, IsTrue, OnOk, OnErr};
ghost use Rattle.std.specs.FinSet as set;
ghost use Rattle.tp_node.specs.Actions.{first_actions, open_count, opening_count, without_opening, with_named, without_named};
ghost use Rattle.tp_node.specs.Actions.{with_message, without_message, has_message};

use crate::feeds::FeedMap;
use crate::numbers::NumberSet;
use std::alloc::{AllocError, Global};
use std::marker::Model;
use tp_base::{ActionId, MessageId};
use tp_graph::Feed;

/// The actions that are open at a node: the opening one, named ones, and those of received messages, each with the feed
/// that the message brought.
#[derive(Drop)]
pub(crate) struct OpenActions {
    opening: bool,
    named: NumberSet,
    messages: FeedMap,
}

impl Model for OpenActions {
    ghost use Rattle.tp_node.specs.Actions.{Actions, actions_code};

    ghost Value = { Actions };

    ghost coded = { actions_code };

    ghost view = { λ a. record { opening = a.opening; named = a.named; messages = a.messages } };
}

impl OpenActions {
    /// Returns the actions of a new node: only the opening one is open. It allocates nothing.
    #[tactic(auto, using(crate::proofs::Finite::len_empty, crate::proofs::Finite::feeds_empty))]
    pub(crate) fn new(alloc: Global) -> Self
        ensures first { result ≡ first_actions }
        ensures counted { open_count result ≡ 1 }
        ensures opening { opening_count result ≡ 1 }
    {
        OpenActions {
            opening: true,
            named: NumberSet::new(alloc),
            messages: FeedMap::new(alloc),
        }
    }

    /// Returns whether the opening action is open.
    pub(crate) fn is_opening(&self) -> bool
        ensures open { result ≡ self.now.opening }
        ensures counted { opening_count self.now ≡ (if result then 1 else 0) }
        ensures among { opening_count self.now ≤ open_count self.now }
    {
        self.opening
    }

    /// Returns whether a named action is open.
    #[tactic(auto, using(crate::proofs::Finite::len_some))]
    pub(crate) fn has_named(&self, action: ActionId) -> bool
        ensures open { result ≡ set.contains self.now.named action.0 }
        ensures counted { IsTrue result → opening_count self.now < open_count self.now }
    {
        self.named.contains(action.0)
    }

    /// Returns whether the action of a message is open.
    #[tactic(auto, using(crate::proofs::Finite::feeds_some))]
    pub(crate) fn has_message(&self, message: MessageId) -> bool
        ensures open { result ≡ has_message self.now message.0 }
        ensures counted { IsTrue result → opening_count self.now < open_count self.now }
    {
        self.messages.contains(message.0)
    }

    /// Closes the opening action.
    pub(crate) fn close_opening(&mut self)
        requires { IsTrue self.old.opening }
        ensures closed { self.new ≡ without_opening self.old }
        ensures counted { open_count self.new + 1 ≡ open_count self.old }
        ensures opening { opening_count self.new ≡ 0 }
    {
        self.opening = false;
    }

    /// Opens a named action, which allocates.
    #[tactic(auto, using(crate::proofs::Finite::len_with))]
    pub(crate) fn open_named(&mut self, action: ActionId) -> Result<(), AllocError>
        requires { set.contains self.old.named action.0 ≡ false }
        ensures opened { OnOk result (self.new ≡ with_named self.old action.0) }
        ensures counted { OnOk result (open_count self.new ≡ open_count self.old + 1) }
        ensures opening { opening_count self.new ≡ opening_count self.old }
        ensures kept { OnErr result (self.new ≡ self.old) }
    {
        self.named.insert(action.0)
    }

    /// Closes a named action.
    #[tactic(auto, using(crate::proofs::Finite::len_without))]
    pub(crate) fn close_named(&mut self, action: ActionId)
        requires { IsTrue (set.contains self.old.named action.0) }
        ensures closed { self.new ≡ without_named self.old action.0 }
        ensures counted { open_count self.new + 1 ≡ open_count self.old }
        ensures opening { opening_count self.new ≡ opening_count self.old }
    {
        self.named.remove(action.0);
    }

    /// Opens the action of a message that brought a feed, which allocates.
    #[tactic(auto, using(crate::proofs::Finite::feeds_with))]
    pub(crate) fn open_message(&mut self, message: MessageId, feed: Feed) -> Result<(), AllocError>
        requires { has_message self.old message.0 ≡ false }
        ensures opened { OnOk result (self.new ≡ with_message self.old message.0 feed) }
        ensures counted { OnOk result (open_count self.new ≡ open_count self.old + 1) }
        ensures opening { opening_count self.new ≡ opening_count self.old }
        ensures kept { OnErr result (self.new ≡ self.old) }
    {
        self.messages.insert(message.0, feed)
    }

    /// Closes the action of a message.
    #[tactic(auto, using(crate::proofs::Finite::feeds_without))]
    pub(crate) fn close_message(&mut self, message: MessageId)
        requires { IsTrue (has_message self.old message.0) }
        ensures closed { self.new ≡ without_message self.old message.0 }
        ensures counted { open_count self.new + 1 ≡ open_count self.old }
        ensures opening { opening_count self.new ≡ opening_count self.old }
    {
        self.messages.remove(message.0);
    }
}
