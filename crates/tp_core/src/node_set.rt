//! A set of nodes.
ghost use Rattle.std.specs.Prelude.{◌≡◌, ◌==◌, ◌<◌, ℕ, true, false, nat_lt, if◌then◌else◌, length};

use tp_base::NodeId;

/// A set of nodes with numbers from 0 to 7.
#[derive(Clone, Copy, Debug, PartialEq, Eq)]
pub struct NodeSet {
    at: [bool; 8],
    ghost size: { length at ≡ 8 },
}

#[tactic(auto, unfolding(crate::specs::NodeSet::has))]
impl NodeSet {
    ghost use Rattle.tp_core.specs.NodeSet.{has};

    /// Returns the empty set.
    #[tactic(auto, using(crate::proofs::Lemmas::eight_same), unfolding(crate::specs::NodeSet::has))]
    pub fn new() -> Self
        ensures { (i : ℕ) → has result i ≡ false }
    {
        NodeSet { at: [false; 8] }
    }

    /// Returns whether the node is in the set.
    pub fn has(&self, node: NodeId) -> bool
        requires { node.0 < 8 }
        ensures { result ≡ has self.now node.0 }
    {
        self.at[node.0 as usize]
    }

    /// Returns whether a node of any number is in the set.
    pub fn contains(&self, node: NodeId) -> bool
        ensures { result ≡ has self.now node.0 }
    {
        match self.at.get(node.0 as usize) {
            Some(is_in) => *is_in,
            None => false,
        }
    }

    /// Returns the set with the node added.
    #[tactic(auto, using(crate::proofs::Lemmas::written), unfolding(crate::specs::NodeSet::has))]
    pub fn with(mut self, node: NodeId) -> Self
        requires { node.0 < 8 }
        ensures { (i : ℕ) → has result i ≡ (if node.0 == i then true else has self i) }
    {
        self.at[node.0 as usize] = true;
        self
    }

    /// Returns the set without the node.
    #[tactic(auto, using(crate::proofs::Lemmas::written), unfolding(crate::specs::NodeSet::has))]
    pub fn without(mut self, node: NodeId) -> Self
        requires { node.0 < 8 }
        ensures { (i : ℕ) → has result i ≡ (if node.0 == i then false else has self i) }
    {
        self.at[node.0 as usize] = false;
        self
    }
}
