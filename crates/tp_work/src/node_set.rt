//! Sets of nodes.
use tp_base::NodeId;

/// A set of nodes: bit k is set if node k is in it. A pool has at most 8 nodes.
#[derive(Clone, Copy, PartialEq, Eq)]
pub(crate) struct NodeSet {
    bits: u32,
}

impl NodeSet {
    /// Returns the empty set.
    pub const fn new() -> Self {
        NodeSet { bits: 0 }
    }

    #[inline(always)]
    pub fn is_empty(self) -> bool {
        self.bits == 0
    }

    #[inline(always)]
    pub fn has(self, node: NodeId) -> bool {
        self.bits & bit(node) != 0
    }

    #[inline(always)]
    pub fn add(&mut self, node: NodeId) {
        self.bits |= bit(node);
    }

    #[inline(always)]
    pub fn remove(&mut self, node: NodeId) {
        self.bits &= !bit(node);
    }

    /// Adds the nodes of another set, and empties that set.
    #[inline(always)]
    pub fn take_all(&mut self, from: &mut NodeSet) {
        self.bits |= from.bits;
        from.bits = 0;
    }
}

#[inline(always)]
fn bit(node: NodeId) -> u32 {
    1u32.wrapping_shl(node.0)
}
