//! A map from numbers to feeds.
ghost use Rattle.std.specs.Prelude.{◌≡◌, Some, OnOk, OnErr};
ghost use Rattle.std.specs.FinMap as finite;

use std::alloc::{AllocError, Global};
use std::collections::BTreeMap;
use std::marker::Model;
use tp_graph::Feed;

/// Feeds by number. Each call but `new` takes O(log n) time.
#[derive(Drop)]
pub(crate) struct FeedMap {
    feeds: BTreeMap<u32, Feed>,
}

impl Model for FeedMap {
    ghost use Rattle.{std.specs.{Coded.coded_ℕ, Ordering.nat_cmp}, tp_graph.specs.declared.feed.Feed.Feed as FeedSeen};
    ghost use Rattle.tp_node.specs.Actions.{feed_code};
    ghost use Rattle.std.specs.FinMap as finite;

    ghost Value = { finite.FinMap nat_cmp FeedSeen };

    ghost coded = { finite.code coded_ℕ feed_code };

    ghost view = { λ m. finite.from_entries m.feeds.entries };
}

impl FeedMap {
    /// Returns the empty map. It allocates nothing.
    pub(crate) fn new(alloc: Global) -> Self
        ensures { result ≡ finite.empty }
    {
        FeedMap {
            feeds: BTreeMap::new(alloc),
        }
    }

    /// Returns whether there is a feed of the number.
    pub(crate) fn contains(&self, number: u32) -> bool
        ensures { result ≡ finite.contains_key self.now number }
    {
        self.feeds.contains_key(&number)
    }

    /// Inserts the feed of a number, which allocates.
    pub(crate) fn insert(&mut self, number: u32, feed: Feed) -> Result<(), AllocError>
        ensures put { OnOk result (self.new ≡ finite.insert self.old number feed) }
        ensures kept { OnErr result (self.new ≡ self.old) }
    {
        self.feeds.insert(number, feed)?;
        Ok(())
    }

    /// Removes the feed of a number.
    pub(crate) fn remove(&mut self, number: u32)
        ensures { self.new ≡ finite.remove self.old number }
    {
        self.feeds.remove(&number);
    }
}
