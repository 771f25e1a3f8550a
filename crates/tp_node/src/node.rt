//! The node of a pool: its type with its invariant, and the calls that only read it.
ghost use Rattle.std.specs.Prelude.{◌≡◌, ◌≤◌, ◌<◌, length, IsTrue};
ghost use Rattle.tp_wave.specs.Generations.{AreRuns, present_events};
ghost use Rattle.{tp_board.specs.Numbers.first_numbers, tp_graph.specs.Left.AreResults, tp_store.specs.Content.counts_of};
ghost use Rattle.tp_node.specs.{Locals.{pending_here, standing}, Nodes.{AgreesWith, counted_of, first_node}};

mod actions;
mod begins;
mod control;
mod messages;
mod tasks;
mod unshared;

use crate::Local;
use std::alloc::Global;
use std::marker::Model;
use tp_base::{NodeId, TaskId};
use tp_board::{Board, Ledgers, Shares};
use tp_graph::{Graph, Value};
use tp_monitor::TaskpoolState;
use tp_store::Counts;
pub(crate) use unshared::UnsharedNode;

/// A node of a pool: what the node's lock protects.
///
/// Its invariant: its pending number is the number of its unfinished tasks and open actions; what it has sent, received
/// and done are the numbers of its shares; each task in it belongs to this node; and each value in it is the one that
/// the graph defines, or what is left of it. Contracts see its graph, the number of nodes of the pool, its own state,
/// and the numbers of its shares.
#[derive(Drop)]
pub struct Node<G: Graph, K: Ledgers> {
    graph: G,
    nodes: u32,
    // All tasks of this node without inputs and with a lower number were inserted.
    next: u32,
    local: Local,
    shares: Shares<K>,
    alloc: Global,
}

impl<G: Graph, K: Ledgers> Model for Node<G, K> {
    ghost use Rattle.tp_node.specs.Nodes.{IsNode, NodeState, node_code};

    ghost Value = { NodeState G };

    ghost coded = { node_code G.code };

    ghost view = { λ n. record { graph = n.graph; nodes = n.nodes; state = n.local; numbers = n.shares } };

    ghost invariant = { λ n.
        IsNode K.names.nodes (G.meaning n.graph) (record { graph = n.graph; nodes = n.nodes; state = n.local; numbers = n.shares })
        n.next };
}

impl<G: Graph, K: Ledgers> Node<G, K> {
    /// Returns a new node of a pool of `nodes` nodes. Its opening action is open. It allocates nothing.
    pub fn new(alloc: Global, graph: G, nodes: u32, shares: Shares<K>) -> Self
        requires pool { (nodes ≡ K.names.nodes) × (1 ≤ nodes) × (nodes ≤ 8) }
        requires first { shares ≡ first_numbers shares.node }
        ensures { result ≡ first_node graph nodes shares.node }
    {
        Node {
            graph,
            nodes,
            next: 0,
            local: Local::new(alloc),
            shares,
            alloc,
        }
    }

    /// Returns the node's number.
    pub fn number(&self) -> NodeId
        ensures number { result.0 ≡ self.now.numbers.node }
        ensures below { self.now.numbers.node < self.now.nodes }
    {
        self.shares.node()
    }

    /// Returns the number of nodes of its pool.
    pub fn nodes(&self) -> u32
        ensures number { result ≡ self.now.nodes }
        ensures pool { result ≡ K.names.nodes }
        ensures few { (1 ≤ result) × (result ≤ 8) }
    {
        self.nodes
    }

    /// Returns the graph that its pool computes.
    pub fn graph(&self) -> G
        ensures { result ≡ self.now.graph }
    {
        self.graph
    }

    /// Returns the pending number: unfinished tasks and open actions together.
    pub fn pending(&self) -> u32
        ensures counted { result ≡ pending_here self.now.state }
        ensures share { result ≡ self.now.numbers.pending }
    {
        self.local.pending()
    }

    /// Returns the number of messages the node has sent.
    pub fn sent(&self) -> u32
        ensures counted { result ≡ self.now.state.sent }
        ensures share { result ≡ self.now.numbers.sent }
    {
        self.local.sent()
    }

    /// Returns the number of messages the node has received.
    pub fn received(&self) -> u32
        ensures counted { result ≡ self.now.state.received }
        ensures share { result ≡ self.now.numbers.received }
    {
        self.local.received()
    }

    /// Returns the numbers of its tasks that wait, are ready, and run.
    pub fn counts(&self) -> Counts
        ensures { result ≡ counts_of self.now.state.store }
    {
        self.local.counts()
    }

    /// Returns its done tasks in the order in which they were done, each with its value if the graph keeps it, and else
    /// without numbers.
    pub fn results(&self) -> &[(TaskId, Value)]
        ensures same { result.now ≡ self.now.state.store.results }
        ensures share { length result.now ≡ self.now.numbers.done }
        ensures right { AreResults (G.meaning self.now.graph) result.now }
    {
        self.local.results()
    }

    /// Returns the state of the pool at this node.
    pub fn state(&self) -> TaskpoolState
        ensures { result ≡ standing self.now.state }
    {
        self.local.state()
    }

    /// Shows that the node agrees with the history: its pending number is that of the present generation's run. Changes
    /// nothing.
    pub fn audit(&mut self, board: &mut Board<K>)
        ensures same { (self.new ≡ self.old) × (board.new ≡ board.old) }
        ensures agrees { AgreesWith (present_events board.old.history) self.old }
        ensures run { AreRuns self.old.nodes board.old.history }
    {
        board.audit(&mut self.shares);
    }

    /// Returns its shares and its results, and drops the rest.
    pub fn into_parts(self) -> (Shares<K>, Vec<(TaskId, Value)>)
        ensures shares { result.0 ≡ self.numbers }
        ensures results { result.1.items ≡ self.state.store.results }
        ensures counted { result.0 ≡ counted_of self }
        ensures right { AreResults (G.meaning self.graph) self.state.store.results }
    {
        let Node {
            graph: _,
            nodes: _,
            next: _,
            local,
            shares,
            alloc: _,
        } = self;
        (shares, local.into_results())
    }
}
