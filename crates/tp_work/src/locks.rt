//! The locks of a pool, in their order, and how a thread waits for one that is held.
ghost use Rattle.std.specs.Prelude.{◌≡◌, ◌≤◌, ◌<◌, ◌+◌, [], IfErr, IfOk, OnOk, vec_capacity, vec_len};
ghost use Rattle.tp_base.specs.declared.refusal.Refusal.TheVariants.{NoMemory, NoNode};
ghost use Rattle.tp_work.specs.Places as places;
ghost use Rattle.tp_work.specs.{Outcomes.IsMisplaced, Places.{AreInOrder, AreLinksInOrder, AreOf}};

use crate::backoff::{lock_between_naps, lock_contended, lock_with_backoff};
use crate::hints::{KnownHints, NodeHints};
use crate::oversubscription::Oversubscription;
use crate::run_queue::RunQueue;
use std::alloc::{AllocError, Global};
use std::sync::{Mutex, MutexGuard, Wait};
use tp_base::{NodeId, Refusal};
use tp_board::{Board, Ended, Ledgers};
use tp_graph::{Comparable, Graph, is_same};
use tp_node::{Node, Pool, PoolLink};

/// The locks of a pool. To avoid deadlock they are acquired in this order: a node's, a link's, the board's, and then one
/// leaf: a node's hints, the oversubscription, the failed task or the progress. The token's is acquired alone.
#[derive(Drop)]
pub(crate) struct Locks<G: Graph, K: Ledgers> {
    /// The nodes, in rising order.
    pub node_slots: Vec<NodeSlot<G, K>>,
    /// The links, by sender and then by receiver.
    pub link_slots: Vec<Mutex<PoolLink<G, K>>>,
    /// The board.
    pub board: Mutex<Board<K>>,
    /// The termination token, once termination was announced to each node.
    pub token: Mutex<Option<Ended<K>>>,
    /// How many workers are awake.
    pub oversubscription: Oversubscription,
}

/// The slot of a node: its lock, and its hints, which save acquiring that lock; no contract depends on them.
#[derive(Drop)]
pub(crate) struct NodeSlot<G: Graph, K: Ledgers> {
    /// The node, and the work that waits there.
    pub locked: Mutex<LockedNode<G, K>>,
    /// What its idle workers poll, and where they sleep.
    pub hints: NodeHints,
}

/// What a node's lock protects.
#[derive(Drop)]
pub(crate) struct LockedNode<G: Graph, K: Ledgers> {
    /// The node, and the work that waits there.
    pub run_queue: RunQueue<G, K>,
    /// What its workers know about its hints.
    pub known: KnownHints,
}

/// Empty lists with room for the parts of a pool, as they are or under locks.
#[derive(Drop)]
pub(crate) struct Room<N, W> {
    nodes: Vec<N>,
    links: Vec<W>,
}

impl<N: Drop, W: Drop> Room<N, W> {
    /// Reserves room for this many nodes and links. Refused if an allocation fails.
    pub fn new(alloc: Global, nodes: usize, links: usize) -> Result<Self, AllocError>
        ensures nodes { IfOk result (λ r. (r.nodes.items ≡ []) × (nodes ≤ vec_capacity r.nodes)) }
        ensures links { IfOk result (λ r. (r.links.items ≡ []) × (links ≤ vec_capacity r.links)) }
    {
        Ok(Room {
            nodes: Vec::with_capacity(alloc, nodes)?,
            links: Vec::with_capacity(alloc, links)?,
        })
    }
}

impl<G: Graph, K: Ledgers> Locks<G, K> {
    /// Puts the parts of a pool under locks, in the room that was reserved for them.
    pub fn new(
        alloc: Global,
        pool: Pool<G, K>,
        oversubscription: Oversubscription,
        room: Room<NodeSlot<G, K>, Mutex<PoolLink<G, K>>>,
    ) -> Self
        requires nodes { (room.nodes.items ≡ []) × (vec_len pool.nodes ≤ vec_capacity room.nodes) }
        requires links { (room.links.items ≡ []) × (vec_len pool.links ≤ vec_capacity room.links) }
        ensures nodes { vec_len result.node_slots ≡ vec_len pool.nodes }
        ensures links { vec_len result.link_slots ≡ vec_len pool.links }
    {
        let Pool {
            nodes,
            links,
            board,
        } = pool;
        let Room {
            nodes: mut node_slots,
            links: mut link_slots,
        } = room;
        lock_nodes(alloc, nodes, &mut node_slots);
        lock_links(links, &mut link_slots);
        Locks {
            node_slots,
            link_slots,
            board: Mutex::new(board),
            token: Mutex::new(None),
            oversubscription,
        }
    }

    /// Acquires the lock of a node for one of its workers, which naps before it blocks: that saves processor time. If
    /// there are more workers than processors it does not nap: other workers sleep so that this one can go on.
    #[inline(always)]
    pub fn lock_node<'l, R: Wait>(
        &self,
        rt: &R,
        node_slot: &'l NodeSlot<G, K>,
    ) -> MutexGuard<'l, LockedNode<G, K>> {
        match node_slot.locked.try_lock() {
            Some(guard) => guard,
            None if self.oversubscription.has_surplus() => lock_contended(rt, &node_slot.locked),
            None => lock_between_naps(rt, &node_slot.locked),
        }
    }

    /// Stops all workers, including those that sleep. The caller holds none of the locks.
    pub fn stop<R: Wait>(&self, rt: &R) {
        for node_slot in &self.node_slots {
            lock_with_backoff(rt, &node_slot.locked).known.is_stopped = true;
            node_slot.hints.stop(rt);
        }
    }

    /// Adds a node that has sent messages to the hints of the receiving node, and wakes a worker there unless each
    /// processor has a worker that is awake, and that node too.
    pub fn report_messages<R: Wait>(&self, rt: &R, from: NodeId, node_slot: &NodeSlot<G, K>) {
        let least = self.oversubscription.least_sleepers();
        node_slot.hints.add_sender(rt, from, least);
    }

    /// Wakes workers of nodes that have work, before a worker sleeps: while each processor had a worker that was awake,
    /// none was woken for that work.
    pub fn wake_elsewhere<R: Wait>(&self, rt: &R) {
        for node_slot in &self.node_slots {
            let least = self.oversubscription.least_sleepers();
            node_slot.hints.wake_for_work(rt, least);
        }
    }

    /// Counts a control step of a node there, and at the parent and the children of the node in the tree of the waves: it
    /// enables steps of these nodes only. Wakes a worker at each of them but the node itself, where the caller goes on.
    pub fn wake_tree_neighbours<R: Wait>(&self, rt: &R, node: NodeId) {
        let place = node.0 as usize;
        for near in [
            place,
            place.saturating_sub(1) / 2,
            2 * place + 1,
            2 * place + 2,
        ] {
            let least = if near == place { u32::MAX } else { 1 };
            if let Some(node_slot) = self.node_slots.get(near) {
                node_slot.hints.add_control_step(rt, least);
            }
        }
    }

    /// Takes the parts out of their locks, in the room that was reserved for them, and the termination token if it is
    /// there.
    pub fn into_pool(self, room: Room<Node<G, K>, PoolLink<G, K>>) -> (Pool<G, K>, Option<Ended<K>>)
        requires nodes { (room.nodes.items ≡ []) × (vec_len self.node_slots ≤ vec_capacity room.nodes) }
        requires links { (room.links.items ≡ []) × (vec_len self.link_slots ≤ vec_capacity room.links) }
        ensures nodes { vec_len result.0.nodes ≡ vec_len self.node_slots }
        ensures links { vec_len result.0.links ≡ vec_len self.link_slots }
    {
        let Locks {
            node_slots,
            link_slots,
            board,
            token,
            oversubscription: _,
        } = self;
        let Room {
            mut nodes,
            mut links,
        } = room;
        unlock_nodes(node_slots, &mut nodes);
        unlock_links(link_slots, &mut links);
        let pool = Pool {
            nodes,
            links,
            board: board.into_inner(),
        };
        (pool, token.into_inner())
    }
}

/// Puts the parts of a pool under locks, and reserves room to take them out again.
pub(crate) fn lock_pool<G: Graph, K: Ledgers>(
    alloc: Global,
    pool: Pool<G, K>,
    oversubscription: Oversubscription,
) -> Result<(Locks<G, K>, Room<Node<G, K>, PoolLink<G, K>>), Refusal>
    ensures nodes { IfOk result (λ r. (vec_len r.0.node_slots ≡ vec_len pool.nodes) × (r.1.nodes.items ≡ [])
        × (vec_len r.0.node_slots ≤ vec_capacity r.1.nodes)) }
    ensures links { IfOk result (λ r. (vec_len r.0.link_slots ≡ vec_len pool.links) × (r.1.links.items ≡ [])
        × (vec_len r.0.link_slots ≤ vec_capacity r.1.links)) }
    ensures refusal { IfErr result (λ e. e ≡ NoMemory) }
{
    let (locked, room) = two_rooms(alloc, pool.nodes.len(), pool.links.len())?;
    Ok((Locks::new(alloc, pool, oversubscription, locked), room))
}

/// Reserves room for this many nodes and links, twice.
fn two_rooms<S: Drop, L: Drop, N: Drop, W: Drop>(
    alloc: Global,
    nodes: usize,
    links: usize,
) -> Result<(Room<S, L>, Room<N, W>), AllocError>
    ensures locked_nodes { IfOk result (λ r. (r.0.nodes.items ≡ []) × (nodes ≤ vec_capacity r.0.nodes)) }
    ensures locked_links { IfOk result (λ r. (r.0.links.items ≡ []) × (links ≤ vec_capacity r.0.links)) }
    ensures nodes { IfOk result (λ r. (r.1.nodes.items ≡ []) × (nodes ≤ vec_capacity r.1.nodes)) }
    ensures links { IfOk result (λ r. (r.1.links.items ≡ []) × (links ≤ vec_capacity r.1.links)) }
{
    Ok((
        Room::new(alloc, nodes, links)?,
        Room::new(alloc, nodes, links)?,
    ))
}

fn lock_nodes<G: Graph, K: Ledgers>(
    alloc: Global,
    nodes: Vec<Node<G, K>>,
    node_slots: &mut Vec<NodeSlot<G, K>>,
)
    requires { (node_slots.old.items ≡ []) × (vec_len nodes ≤ vec_capacity node_slots.old) }
    ensures { vec_len node_slots.new ≡ vec_len nodes }
{
    for node in nodes {
        node_slots.push_reserved(NodeSlot {
            locked: Mutex::new(LockedNode {
                run_queue: RunQueue::new(alloc, node),
                known: KnownHints::new(),
            }),
            hints: NodeHints::new(),
        });
    }
}

fn lock_links<G: Graph, K: Ledgers>(
    links: Vec<PoolLink<G, K>>,
    link_slots: &mut Vec<Mutex<PoolLink<G, K>>>,
)
    requires { (link_slots.old.items ≡ []) × (vec_len links ≤ vec_capacity link_slots.old) }
    ensures { vec_len link_slots.new ≡ vec_len links }
{
    for pool_link in links {
        link_slots.push_reserved(Mutex::new(pool_link));
    }
}

fn unlock_nodes<G: Graph, K: Ledgers>(node_slots: Vec<NodeSlot<G, K>>, nodes: &mut Vec<Node<G, K>>)
    requires { (nodes.old.items ≡ []) × (vec_len node_slots ≤ vec_capacity nodes.old) }
    ensures { vec_len nodes.new ≡ vec_len node_slots }
{
    for node_slot in node_slots {
        nodes.push_reserved(node_slot.locked.into_inner().run_queue.into_node());
    }
}

fn unlock_links<G: Graph, K: Ledgers>(
    link_slots: Vec<Mutex<PoolLink<G, K>>>,
    links: &mut Vec<PoolLink<G, K>>,
)
    requires { (links.old.items ≡ []) × (vec_len link_slots ≤ vec_capacity links.old) }
    ensures { vec_len links.new ≡ vec_len link_slots }
{
    for link_slot in link_slots {
        links.push_reserved(link_slot.into_inner());
    }
}

/// Checks that each part of a pool is at its place.
///
/// Refused with `NoNode` if a node or a link is not; `Stranger` if a node is of another graph.
pub(crate) fn check_places<G: Comparable, K: Ledgers>(
    pool: &Pool<G, K>,
    graph: &G,
) -> Result<(), Refusal>
    ensures nodes { OnOk result (AreInOrder pool.now.nodes.items) }
    ensures graph { OnOk result (AreOf graph.now pool.now.nodes.items) }
    ensures links { OnOk result (AreLinksInOrder K.names.nodes pool.now.links.items) }
    ensures refusal { IfErr result IsMisplaced }
{
    check_nodes(&pool.nodes, graph)?;
    check_links(&pool.links, pool.board.nodes())
}

fn check_nodes<G: Comparable, K: Ledgers>(nodes: &[Node<G, K>], graph: &G) -> Result<(), Refusal>
    ensures order { OnOk result (AreInOrder nodes.now) }
    ensures graph { OnOk result (AreOf graph.now nodes.now) }
    ensures refusal { IfErr result IsMisplaced }
{
    for (place, node) in nodes.iter().enumerate() {
        if node.number().0 as usize != place {
            return Err(Refusal::NoNode);
        }
        if !is_same(&node.graph(), graph) {
            return Err(Refusal::Stranger);
        }
    }
    Ok(())
}

fn check_links<G: Graph, K: Ledgers>(links: &[PoolLink<G, K>], nodes: u32) -> Result<(), Refusal>
    requires { (nodes ≡ K.names.nodes) × (1 ≤ nodes) × (nodes ≤ 8) }
    ensures order { OnOk result (AreLinksInOrder nodes links.now) }
    ensures refusal { IfErr result (λ e. e ≡ NoNode) }
{
    for (place, pool_link) in links.iter().enumerate() {
        let (from, to) = (pool_link.from(), pool_link.to());
        if from == to || link_place(from.0, to.0, nodes) != place {
            return Err(Refusal::NoNode);
        }
    }
    Ok(())
}

/// Returns the index of the link from one node to another of `nodes` nodes.
pub(crate) fn link_place(from: u32, to: u32, nodes: u32) -> usize
    requires ends { (from < nodes) × (to < nodes) }
    requires few { nodes ≤ 8 }
    ensures { result ≡ places.link_place nodes from to }
{
    let before = if from < to { to - 1 } else { to };
    from as usize * (nodes as usize - 1) + before as usize
}

/// Checks that a link goes from one node to another.
pub(crate) fn check_pool_link<G: Graph, K: Ledgers>(
    pool_link: &PoolLink<G, K>,
    from: NodeId,
    to: NodeId,
) -> Result<(), Refusal>
    ensures from { OnOk result (pool_link.now.from ≡ from.0) }
    ensures to { OnOk result (pool_link.now.to ≡ to.0) }
{
    if pool_link.from() != from {
        return Err(Refusal::NoNode);
    }
    if pool_link.to() != to {
        return Err(Refusal::NoNode);
    }
    Ok(())
}
