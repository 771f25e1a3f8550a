//! A node without its shares, which a reopening takes away and gives back.
ghost use Rattle.std.specs.Prelude.{◌≡◌, ◌≤◌};
ghost use Rattle.{tp_graph.specs.Left.AreResults, tp_node.specs.Nodes.{IsOfPool, anew}};

use crate::Local;
use crate::node::Node;
use std::alloc::Global;
use std::marker::Model;
use tp_base::{NodeId, TaskId};
use tp_board::{Board, Ended, Ledgers, Shares};
use tp_graph::{Graph, Value};

/// A node at the beginning of its generation, while its shares are elsewhere. Contracts see it as the node with its
/// first shares.
#[derive(Drop)]
pub(crate) struct UnsharedNode<G: Graph> {
    graph: G,
    nodes: u32,
    number: NodeId,
    local: Local,
    alloc: Global,
}

impl<G: Graph> Model for UnsharedNode<G> {
    ghost use Rattle.std.specs.Prelude.{◌≡◌};
    ghost use Rattle.tp_node.specs.{Locals.{first_state, pending_here}, Nodes.{NodeState, first_node, node_code}};

    ghost Value = { NodeState G };

    ghost coded = { node_code G.code };

    ghost view = { λ b. first_node b.graph b.nodes b.number.0 };

    ghost invariant = { λ b. (b.local ≡ first_state) × (pending_here b.local ≡ 1) };
}

impl<G: Graph, K: Ledgers> Node<G, K> {
    /// Splits a node whose termination is announced into its shares, its results, and the node of the next generation.
    pub(crate) fn apart(
        self,
        ended: &mut Ended<K>,
        board: &mut Board<K>,
    ) -> (Shares<K>, Vec<(TaskId, Value)>, UnsharedNode<G>)
        ensures board { board.new ≡ board.old }
        ensures shares { result.0 ≡ self.numbers }
        ensures results { result.1.items ≡ self.state.store.results }
        ensures unshared { result.2 ≡ anew self }
        ensures pool { IsOfPool K.names.nodes result.2 }
        ensures right { AreResults (G.meaning self.graph) self.state.store.results }
    {
        let mut node = self;
        node.quiet_under(ended, board);
        let Node {
            graph,
            nodes,
            next: _,
            mut local,
            shares,
            alloc,
        } = node;
        let results = local.reopen(alloc);
        let unshared = UnsharedNode {
            graph,
            nodes,
            number: shares.node(),
            local,
            alloc,
        };
        (shares, results, unshared)
    }
}

impl<G: Graph> UnsharedNode<G> {
    /// Returns the node with its first shares.
    pub(crate) fn with_shares<K: Ledgers>(self, shares: Shares<K>) -> Node<G, K>
        requires pool { IsOfPool K.names.nodes self }
        requires first { shares ≡ self.numbers }
        ensures { result ≡ self }
    {
        let UnsharedNode {
            graph,
            nodes,
            number: _,
            local,
            alloc,
        } = self;
        Node {
            graph,
            nodes,
            next: 0,
            local,
            shares,
            alloc,
        }
    }
}
