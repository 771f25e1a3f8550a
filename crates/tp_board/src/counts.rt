//! The numbers that are counted along with a history, so that nothing has to scan it.
ghost use Rattle.std.specs.Prelude.{◌≡◌, ◌≤◌, ◌<◌, ◌^◌, ◌∷◌, List, [], length};
ghost use Rattle.tp_base.specs.History.{Event};
ghost use Rattle.tp_board.specs.{Counts.{AreCountsOf, counts_after, counts_at, AreFew}, Numbers.{event, is_done, is_recv, plus_if}};
ghost use Rattle.tp_wave.specs.Machine.{IsOf};

use tp_base::{NodeId, Step};

/// The numbers of one node.
#[derive(Clone, Copy)]
pub struct NodeCounts {
    /// Its unfinished tasks and open actions.
    pub pending: u32,
    /// The messages it has sent.
    pub sent: u32,
    /// The messages it has received.
    pub received: u32,
}

impl NodeCounts {
    /// Returns the numbers after one more step of the node.
    #[inline(always)]
    fn after(self, step: &Step) -> NodeCounts
        requires few { AreFew self }
        ensures { result ≡ counts_after step.now self }
    {
        match step {
            Step::Insert(..) | Step::ActionOpen(..) => NodeCounts {
                pending: self.pending + 1,
                ..self
            },
            Step::Done(..) | Step::ActionClose(..) | Step::Ready(..) | Step::MessageEnd(..) =>
                NodeCounts {
                    pending: self.pending.saturating_sub(1),
                    ..self
                },
            Step::Send(..) => NodeCounts {
                sent: self.sent + 1,
                ..self
            },
            Step::Recv(..) => NodeCounts {
                pending: self.pending + 1,
                received: self.received + 1,
                ..self
            },
            _ => self,
        }
    }
}

/// The numbers counted along with a history.
#[derive(Drop)]
pub struct Counts {
    /// The numbers of each node.
    pub nodes: [NodeCounts; 8],
    /// The number of messages received.
    pub received: u32,
    /// The number of tasks done.
    pub done: u32,
}

impl Counts {
    /// Returns the numbers of the empty history, in which each node's opening action is open.
    pub fn new() -> Counts
        ensures { AreCountsOf [] result }
    {
        Counts {
            nodes: [NodeCounts {
                pending: 1,
                sent: 0,
                received: 0,
            }; 8],
            received: 0,
            done: 0,
        }
    }

    /// Returns the numbers of a node.
    pub fn of(&self, node: NodeId) -> NodeCounts
        requires { node.0 < 8 }
        ensures { (h : List Event) → AreCountsOf h self.now → result ≡ counts_at node.0 h }
    {
        self.nodes[node.0 as usize]
    }

    /// Counts one more event.
    #[inline(always)]
    pub fn follow(&mut self, node: NodeId, step: &Step)
        requires node { node.0 < 8 }
        requires few { (h : List Event) × AreCountsOf h self.old × (length h ≤ 1048576) }
        ensures { (h : List Event) → AreCountsOf h self.old → IsOf node.0 step.now → AreCountsOf (event node.0 step.now ∷ h) self.new }
    {
        let i = node.0 as usize;
        self.nodes[i] = self.nodes[i].after(step);
        self.received = count_received(step, self.received);
        self.done = count_done(step, self.done);
    }
}

/// Adds one if the step receives a message.
#[inline(always)]
fn count_received(step: &Step, received: u32) -> u32
    requires { received ≤ 1048576 }
    ensures { result ≡ plus_if (is_recv step.now) received }
{
    match step {
        Step::Recv(..) => received + 1,
        _ => received,
    }
}

/// Adds one if the step ends a task.
#[inline(always)]
fn count_done(step: &Step, done: u32) -> u32
    requires { done ≤ 1048576 }
    ensures { result ≡ plus_if (is_done step.now) done }
{
    match step {
        Step::Done(..) => done + 1,
        _ => done,
    }
}
