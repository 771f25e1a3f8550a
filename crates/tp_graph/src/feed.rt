//! Feeds: the edges of a task graph, with their two ends.
ghost use Rattle.std.specs.Prelude.{◌≡◌, ◌<◌, ℤ, List, Some};
ghost use Rattle.tp_graph.specs.{Carried.{feed_at, IsFeed}, Values.{value_of, IsInput}};

use crate::graph::Graph;
use tp_base::TaskId;

/// A feed: it passes the value of a producer to a slot of another task.
#[derive(Clone, Copy, Debug, PartialEq, Eq)]
pub struct Feed {
    /// The task that computes the value.
    pub producer: TaskId,
    /// The task that waits for it.
    pub target: TaskId,
    /// The slot there, counted from 0.
    pub slot: u8,
}

/// Returns the feed number `turn` of a task: its producer, target and slot.
pub fn feed_of<G: Graph>(graph: &G, task: TaskId, turn: u32) -> Feed
    requires known { task.0 < (G.meaning graph.now).tasks }
    requires within { turn < (G.meaning graph.now).feeds task.0 }
    ensures same { result ≡ feed_at (G.meaning graph.now) task.0 turn }
    ensures right { IsFeed (G.meaning graph.now) result }
    ensures input { (value : List ℤ) → value_of (G.meaning graph.now) task.0 ≡ Some value
        → IsInput (G.meaning graph.now) result.target.0 result.slot value }
{
    let (target, slot) = graph.feed(task, turn);
    Feed {
        producer: task,
        target,
        slot,
    }
}
