//! Reopening a pool, which begins its next generation.
ghost use Rattle.std.specs.{List.{All, flat_map}, Prelude.{◌≡◌, ◌≤◌, ◌<◌, ◌+◌, ◌^◌, [], ◌∷◌, ◌++◌, IfErr, IfOk, IsTrue, MatchOption}};
ghost use Rattle.std.specs.{Prelude.{OnErr, OnOk, length, map, sum_by, vec_capacity, vec_len}, Result.result_err};
ghost use Rattle.{tp_base.specs.Checks.first_refusal, tp_node.specs.{Calls.IsCheckedWithBoth, Nodes.{IsOfPool, anew}}};
ghost use Rattle.tp_board.specs.{Calls.{IsChecked, Appends}, Fresh.HasRoom, Numbers.event, States.{full_check, with_event}};
ghost use Rattle.tp_graph.specs.Left.{AreResults};
ghost use Rattle.tp_wave.specs.{Cut.IsQuietHistory, Generations.{present, present_events}, Machine.steps_of, Sums.is_ended};
ghost use Rattle.tp_base.specs.declared.step.Step.TheVariants as steps;

use crate::node::{Node, UnsharedNode};
use crate::pool::Pool;
use crate::pool_link::PoolLink;
use std::alloc::{AllocError, Global};
use tp_base::{Refusal, TaskId};
use tp_board::{Board, Ended, Fresh, Ledgers, Shares};
use tp_graph::{Graph, Value};

/// A pool whose next generation has begun, and the results of the one that ended.
#[derive(Drop)]
pub struct Reopened<G: Graph, K: Ledgers> {
    /// The pool, in whose present generation nothing has happened.
    pub pool: Pool<G, K>,
    /// The results of the generation that ended, node by node: each task with what is left of its value.
    pub results: Vec<(TaskId, Value)>,
}

impl<G: Graph, K: Ledgers> Pool<G, K> {
    /// Reopens a pool, given the termination token of the present generation: the next generation begins, and the
    /// results of the one that ended are returned. Each node is as [`open_pool`](crate::open_pool) makes it, with its
    /// own graph; the links are the same, without messages. The history continues with one event, the reopening, and a
    /// fault that was set stays. Termination is first announced to each node to which it was not.
    ///
    /// Refused, and the unchanged pool and the token returned, with `HistoryFull` if the history has reached its limit;
    /// `NoMemory` if memory has to grow and the allocation fails.
    pub fn reopen(
        self,
        alloc: Global,
        ended: Ended<K>,
    ) -> Result<Reopened<G, K>, (Refusal, Pool<G, K>, Ended<K>)>
        requires nodes { vec_len self.nodes ≡ K.names.nodes }
        ensures nodes { IfOk result (λ r. r.pool.nodes.items ≡ map anew self.nodes.items) }
        ensures links { IfOk result (λ r. r.pool.links.items ≡ self.links.items) }
        ensures empty { OnOk result (All (λ w. w.messages ≡ []) self.links.items) }
        ensures event { IfOk result (λ r. Appends (event 0 steps.Reopen ∷ []) self.board r.pool.board) }
        ensures results { IfOk result (λ r. r.results.items ≡ flat_map (λ n. n.state.store.results) self.nodes.items) }
        ensures right { IfOk result (λ r. (g : G) → All (λ n. n.graph ≡ g) self.nodes.items → AreResults (G.meaning g) r.results.items) }
        ensures ended { OnOk result (IsTrue (is_ended K.names.nodes (present (steps_of self.board.history)))) }
        ensures quiet { OnOk result (IsQuietHistory K.names.nodes (present_events self.board.history)) }
        ensures refused { IsCheckedWithBoth (full_check 1 self.board ∷ []) self ended result }
    {
        let mut pool = self;
        match room_for(alloc, &pool.nodes, &mut pool.board) {
            Ok(room) => Ok(begin_anew(pool, ended, room)),
            Err(refusal) => Err((refusal, pool, ended)),
        }
    }
}

/// Empty lists with room for all that a reopening makes.
#[derive(Drop)]
struct ReopeningRoom<G: Graph, K: Ledgers> {
    fresh: Fresh<K>,
    shares: Vec<Shares<K>>,
    unshared: Vec<UnsharedNode<G>>,
    nodes: Vec<Node<G, K>>,
    results: Vec<(TaskId, Value)>,
}

/// Reserves memory for the reopening of a pool, and a place for its event. A refused call leaves the board unchanged.
fn room_for<G: Graph, K: Ledgers>(
    alloc: Global,
    nodes: &Vec<Node<G, K>>,
    board: &mut Board<K>,
) -> Result<ReopeningRoom<G, K>, Refusal>
    ensures fresh { IfOk result (λ r. HasRoom K.names.nodes r.fresh) }
    ensures shares { IfOk result (λ r. (r.shares.items ≡ []) × (K.names.nodes ≤ vec_capacity r.shares)) }
    ensures unshared { IfOk result (λ r. (r.unshared.items ≡ []) × (K.names.nodes ≤ vec_capacity r.unshared)) }
    ensures anew { IfOk result (λ r. (r.nodes.items ≡ []) × (K.names.nodes ≤ vec_capacity r.nodes)) }
    ensures results { IfOk result (λ r. (r.results.items ≡ [])
        × (sum_by (λ n. length n.state.store.results) nodes.now.items ≤ vec_capacity r.results)) }
    ensures reserved { OnOk result (0 < board.new.reserved) }
    ensures same { Appends [] board.old board.new }
    ensures refusal { IsChecked (full_check 1 board.old ∷ []) result }
    ensures refused { OnErr result (board.new ≡ board.old) }
{
    check_full(board)?;
    let room = lists_for(alloc, nodes, board.nodes())?;
    board.reserve(1)?;
    Ok(room)
}

/// Checks whether the history has room for one more event.
fn check_full<K: Ledgers>(board: &Board<K>) -> Result<(), Refusal>
    ensures { result_err result ≡ first_refusal (full_check 1 board.now ∷ []) }
{
    let length = board.len();
    if (board.limit() as usize) <= length {
        return Err(Refusal::HistoryFull(length as u32));
    }
    Ok(())
}

/// Returns empty lists with room for the parts of `count` nodes.
fn lists_for<G: Graph, K: Ledgers>(
    alloc: Global,
    nodes: &Vec<Node<G, K>>,
    count: u32,
) -> Result<ReopeningRoom<G, K>, AllocError>
    ensures fresh { IfOk result (λ r. HasRoom count r.fresh) }
    ensures shares { IfOk result (λ r. (r.shares.items ≡ []) × (count ≤ vec_capacity r.shares)) }
    ensures unshared { IfOk result (λ r. (r.unshared.items ≡ []) × (count ≤ vec_capacity r.unshared)) }
    ensures anew { IfOk result (λ r. (r.nodes.items ≡ []) × (count ≤ vec_capacity r.nodes)) }
    ensures results { IfOk result (λ r. (r.results.items ≡ [])
        × (sum_by (λ n. length n.state.store.results) nodes.now.items ≤ vec_capacity r.results)) }
{
    let Some(results) = count_results(nodes) else {
        return Err(AllocError);
    };
    Ok(ReopeningRoom {
        fresh: Fresh::new(alloc, count)?,
        shares: Vec::with_capacity(alloc, count as usize)?,
        unshared: Vec::with_capacity(alloc, count as usize)?,
        nodes: Vec::with_capacity(alloc, count as usize)?,
        results: Vec::with_capacity(alloc, results)?,
    })
}

/// Returns the number of results of all nodes, or `None` if it is 2^64 or more.
pub fn count_results<G: Graph, K: Ledgers>(nodes: &[Node<G, K>]) -> Option<usize>
    ensures { MatchOption result (2 ^ 64 ≤ sum_by (λ n. length n.state.store.results) nodes.now) (λ count. count
        ≡ sum_by (λ n. length n.state.store.results) nodes.now) }
{
    let mut count = 0usize;
    for node in nodes {
        count = count.checked_add(node.results().len())?;
    }
    Some(count)
}

/// Reopens the pool, in the memory that was reserved.
fn begin_anew<G: Graph, K: Ledgers>(
    pool: Pool<G, K>,
    ended: Ended<K>,
    room: ReopeningRoom<G, K>,
) -> Reopened<G, K>
    requires count { vec_len pool.nodes ≡ K.names.nodes }
    requires reserved { 0 < pool.board.reserved }
    requires fresh { HasRoom K.names.nodes room.fresh }
    requires shares { (room.shares.items ≡ []) × (K.names.nodes ≤ vec_capacity room.shares) }
    requires unshared { (room.unshared.items ≡ []) × (K.names.nodes ≤ vec_capacity room.unshared) }
    requires anew { (room.nodes.items ≡ []) × (K.names.nodes ≤ vec_capacity room.nodes) }
    requires room_for_results { (room.results.items ≡ [])
        × (sum_by (λ n. length n.state.store.results) pool.nodes.items ≤ vec_capacity room.results) }
    ensures nodes { result.pool.nodes.items ≡ map anew pool.nodes.items }
    ensures links { result.pool.links.items ≡ pool.links.items }
    ensures empty { All (λ w. w.messages ≡ []) pool.links.items }
    ensures event { Appends (event 0 steps.Reopen ∷ []) pool.board result.pool.board }
    ensures results { result.results.items ≡ flat_map (λ n. n.state.store.results) pool.nodes.items }
    ensures right { (g : G) → All (λ n. n.graph ≡ g) pool.nodes.items → AreResults (G.meaning g) result.results.items }
    ensures ended { IsTrue (is_ended K.names.nodes (present (steps_of pool.board.history))) }
    ensures quiet { IsQuietHistory K.names.nodes (present_events pool.board.history) }
{
    let Pool {
        nodes,
        mut links,
        mut board,
    } = pool;
    let (nodes, results) = reopen_nodes(nodes, &mut board, ended, room);
    audit_links(&mut links, &mut board);
    Reopened {
        pool: Pool {
            nodes,
            links,
            board,
        },
        results,
    }
}

/// Reopens the nodes of a pool, whose board is borrowed.
fn reopen_nodes<G: Graph, K: Ledgers>(
    nodes: Vec<Node<G, K>>,
    board: &mut Board<K>,
    ended: Ended<K>,
    room: ReopeningRoom<G, K>,
) -> (Vec<Node<G, K>>, Vec<(TaskId, Value)>)
    requires count { vec_len nodes ≡ K.names.nodes }
    requires reserved { 0 < board.old.reserved }
    requires fresh { HasRoom K.names.nodes room.fresh }
    requires shares { (room.shares.items ≡ []) × (K.names.nodes ≤ vec_capacity room.shares) }
    requires unshared { (room.unshared.items ≡ []) × (K.names.nodes ≤ vec_capacity room.unshared) }
    requires anew { (room.nodes.items ≡ []) × (K.names.nodes ≤ vec_capacity room.nodes) }
    requires room_for_results { (room.results.items ≡ [])
        × (sum_by (λ n. length n.state.store.results) nodes.items ≤ vec_capacity room.results) }
    ensures nodes { result.0.items ≡ map anew nodes.items }
    ensures board { board.new ≡ with_event (event 0 steps.Reopen) board.old }
    ensures results { result.1.items ≡ flat_map (λ n. n.state.store.results) nodes.items }
    ensures right { (g : G) → All (λ n. n.graph ≡ g) nodes.items → AreResults (G.meaning g) result.1.items }
    ensures ended { IsTrue (is_ended K.names.nodes (present (steps_of board.old.history))) }
    ensures quiet { IsQuietHistory K.names.nodes (present_events board.old.history) }
{
    let ReopeningRoom {
        fresh,
        mut shares,
        mut unshared,
        nodes: mut anew,
        mut results,
    } = room;
    let mut ended = ended;
    take_apart(
        nodes,
        &mut ended,
        board,
        &mut shares,
        &mut unshared,
        &mut results,
    );
    let shares = board.reopen(shares, fresh, ended);
    put_together(unshared, shares, &mut anew);
    (anew, results)
}

/// Splits all nodes into their parts, in order.
fn take_apart<G: Graph, K: Ledgers>(
    nodes: Vec<Node<G, K>>,
    ended: &mut Ended<K>,
    board: &mut Board<K>,
    shares: &mut Vec<Shares<K>>,
    unshared: &mut Vec<UnsharedNode<G>>,
    results: &mut Vec<(TaskId, Value)>,
)
    requires empty { (shares.old.items ≡ []) × (unshared.old.items ≡ []) × (results.old.items ≡ []) }
    requires shares { vec_len nodes ≤ vec_capacity shares.old }
    requires unshared { vec_len nodes ≤ vec_capacity unshared.old }
    requires results { sum_by (λ n. length n.state.store.results) nodes.items ≤ vec_capacity results.old }
    ensures board { board.new ≡ board.old }
    ensures shares { shares.new.items ≡ map (λ n. n.numbers) nodes.items }
    ensures unshared { unshared.new.items ≡ map anew nodes.items }
    ensures pool { All (IsOfPool K.names.nodes) unshared.new.items }
    ensures results { results.new.items ≡ flat_map (λ n. n.state.store.results) nodes.items }
    ensures right { (g : G) → All (λ n. n.graph ≡ g) nodes.items → AreResults (G.meaning g) results.new.items }
{
    for node in nodes {
        let (share, more, left) = node.apart(ended, board);
        shares.push_reserved(share);
        unshared.push_reserved(left);
        put_behind(results, more);
    }
}

/// Appends the results of a node to others, in the room for them.
fn put_behind(results: &mut Vec<(TaskId, Value)>, more: Vec<(TaskId, Value)>)
    requires { vec_len results.old + vec_len more ≤ vec_capacity results.old }
    ensures items { results.new.items ≡ results.old.items ++ more.items }
    ensures len { vec_len results.new ≡ vec_len results.old + vec_len more }
    ensures room { vec_capacity results.old ≤ vec_capacity results.new }
{
    let mut more = more;
    let Ok(()) = results.append(&mut more) else {
        unreachable!()
    };
}

/// Joins the nodes with their first shares.
fn put_together<G: Graph, K: Ledgers>(
    unshared: Vec<UnsharedNode<G>>,
    shares: Vec<Shares<K>>,
    nodes: &mut Vec<Node<G, K>>,
)
    requires pool { All (IsOfPool K.names.nodes) unshared.items }
    requires first { shares.items ≡ map (λ n. n.numbers) unshared.items }
    requires room { (nodes.old.items ≡ []) × (vec_len unshared ≤ vec_capacity nodes.old) }
    ensures { nodes.new.items ≡ unshared.items }
{
    let mut shares = shares.into_iter();
    for left in unshared {
        let Some(share) = shares.next() else {
            unreachable!()
        };
        nodes.push_reserved(left.with_shares(share));
    }
}

/// Shows that no message is on any link, if nothing has happened in the present generation. Changes nothing.
fn audit_links<G: Graph, K: Ledgers>(links: &mut [PoolLink<G, K>], board: &mut Board<K>)
    requires { present (steps_of board.old.history) ≡ [] }
    ensures same { (links.new ≡ links.old) × (board.new ≡ board.old) }
    ensures empty { All (λ w. w.messages ≡ []) links.old }
{
    for pool_link in links.iter_mut() {
        pool_link.audit(board);
    }
}
