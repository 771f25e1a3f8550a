//! The report of a pool: the sums over its nodes and links, and what its board kept.
ghost use Rattle.std.specs.{List.{All, flat_map}, Prelude.{◌≡◌, ◌<◌, ◌≤◌, ◌+◌, ◌-◌, ◌*◌, ◌++◌, ◌∷◌, [], IfErr, IfOk, length, map, sum_by}};
ghost use Rattle.{std.specs.Prelude.{vec_capacity, vec_len}, tp_work.specs.Reports.{AreOfTheRun, IsGathered, IsOfItsRun, nodes_announced}};
ghost use Rattle.{tp_base.specs.declared.refusal.Refusal.TheVariants.NoMemory, tp_node.specs.{Nodes.counted_of, PoolLinks.link_of}};
ghost use Rattle.tp_graph.specs.Left.{AreResults};

use std::alloc::{AllocError, Global};
use tp_base::{History, Refusal, TaskId};
use tp_board::{Books, Ledgers, LinkShare, Shares, close_books};
use tp_graph::{Graph, Value};
use tp_monitor::TaskpoolState;
use tp_node::{Node, Pool, PoolLink, count_results};

/// The report of a pool.
#[derive(Drop)]
pub struct Report {
    /// Unfinished tasks and open actions, over all nodes.
    pub pending: u32,
    /// Messages sent, over all nodes.
    pub sent: u32,
    /// Messages received, over all nodes.
    pub received: u32,
    /// Messages in flight, over all links.
    pub under: u32,
    /// Tasks done, over all nodes.
    pub done: u32,
    /// Whether termination was detected.
    pub ended: bool,
    /// The number of nodes to which termination was announced.
    pub announced: u32,
    /// The first fault.
    pub fault: Option<Refusal>,
    /// The results of all nodes: each task with what is left of its value.
    pub results: Vec<(TaskId, Value)>,
    /// The events of the pool.
    pub history: History,
}

/// Takes a pool apart and returns its report: the sums over its nodes and links, and what its board kept.
///
/// Refused with `NoMemory` if an allocation fails; the pool is then returned.
pub fn finish<G: Graph, K: Ledgers>(
    alloc: Global,
    pool: Pool<G, K>,
) -> Result<Report, (Refusal, Pool<G, K>)>
    requires nodes { vec_len pool.nodes ≡ K.names.nodes }
    requires links { vec_len pool.links ≡ K.names.nodes * (K.names.nodes - 1) }
    ensures gathered { IfOk result (IsGathered pool.nodes.items pool.links.items pool.board) }
    ensures of_its_run { IfOk result (IsOfItsRun K.names.nodes) }
    ensures each_node { IfOk result (AreOfTheRun pool.nodes.items) }
    ensures right { IfOk result (λ r. (g : G) → All (λ n. n.graph ≡ g) pool.nodes.items → AreResults (G.meaning g) r.results.items) }
    ensures refused { IfErr result (λ e. e ≡ (NoMemory, pool)) }
{
    match room_for(alloc, &pool.nodes, &pool.links) {
        Ok(room) => Ok(gather(pool, room)),
        Err(_) => Err((Refusal::NoMemory, pool)),
    }
}

/// Empty lists with room for all that is gathered.
#[derive(Drop)]
struct ReportRoom<K: Ledgers> {
    shares: Vec<Shares<K>>,
    links: Vec<LinkShare<K>>,
    results: Vec<(TaskId, Value)>,
}

fn room_for<G: Graph, K: Ledgers>(
    alloc: Global,
    nodes: &Vec<Node<G, K>>,
    links: &Vec<PoolLink<G, K>>,
) -> Result<ReportRoom<K>, AllocError>
    ensures shares { IfOk result (λ r. (r.shares.items ≡ []) × (vec_len nodes.now ≤ vec_capacity r.shares)) }
    ensures links { IfOk result (λ r. (r.links.items ≡ []) × (vec_len links.now ≤ vec_capacity r.links)) }
    ensures results { IfOk result (λ r. (r.results.items ≡ [])
        × (sum_by (λ n. length n.state.store.results) nodes.now.items ≤ vec_capacity r.results)) }
{
    let Some(count) = count_results(nodes) else {
        return Err(AllocError);
    };
    Ok(ReportRoom {
        shares: Vec::with_capacity(alloc, nodes.len())?,
        links: Vec::with_capacity(alloc, links.len())?,
        results: Vec::with_capacity(alloc, count)?,
    })
}

fn gather<G: Graph, K: Ledgers>(pool: Pool<G, K>, room: ReportRoom<K>) -> Report
    requires nodes { vec_len pool.nodes ≡ K.names.nodes }
    requires links { vec_len pool.links ≡ K.names.nodes * (K.names.nodes - 1) }
    requires room_for_shares { (room.shares.items ≡ []) × (vec_len pool.nodes ≤ vec_capacity room.shares) }
    requires room_for_links { (room.links.items ≡ []) × (vec_len pool.links ≤ vec_capacity room.links) }
    requires room_for_results { (room.results.items ≡ [])
        × (sum_by (λ n. length n.state.store.results) pool.nodes.items ≤ vec_capacity room.results) }
    ensures gathered { IsGathered pool.nodes.items pool.links.items pool.board result }
    ensures of_its_run { IsOfItsRun K.names.nodes result }
    ensures each_node { AreOfTheRun pool.nodes.items result }
    ensures right { (g : G) → All (λ n. n.graph ≡ g) pool.nodes.items → AreResults (G.meaning g) result.results.items }
{
    let Pool {
        nodes,
        links: pool_links,
        board,
    } = pool;
    let ReportRoom {
        mut shares,
        mut links,
        mut results,
    } = room;
    // Only this call of the board shows that there are at most 8 nodes. Its result is not used, so it costs no
    // instruction.
    let _nodes = board.nodes();
    let announced = count_told(&nodes);
    take_nodes(nodes, &mut shares, &mut results);
    take_pool_links(pool_links, &mut links);
    let totals = close_books(Books {
        board,
        shares,
        links,
    });
    Report {
        pending: totals.pending,
        sent: totals.sent,
        received: totals.received,
        under: totals.under,
        done: totals.done,
        ended: totals.ended,
        announced,
        fault: totals.fault,
        results,
        history: totals.history,
    }
}

/// Returns the number of nodes to which termination was announced.
pub(crate) fn count_told<G: Graph, K: Ledgers>(nodes: &[Node<G, K>]) -> u32
    requires { length nodes.now ≤ 8 }
    ensures { result ≡ nodes_announced nodes.now }
{
    let mut told = 0;
    for node in nodes {
        if node.state() == TaskpoolState::Terminated {
            told += 1;
        }
    }
    told
}

/// Returns the shares and the results of all nodes, in order.
fn take_nodes<G: Graph, K: Ledgers>(
    nodes: Vec<Node<G, K>>,
    shares: &mut Vec<Shares<K>>,
    results: &mut Vec<(TaskId, Value)>,
)
    requires empty { (shares.old.items ≡ []) × (results.old.items ≡ []) }
    requires shares { vec_len nodes ≤ vec_capacity shares.old }
    requires results { sum_by (λ n. length n.state.store.results) nodes.items ≤ vec_capacity results.old }
    ensures shares { shares.new.items ≡ map counted_of nodes.items }
    ensures results { results.new.items ≡ flat_map (λ n. n.state.store.results) nodes.items }
    ensures right { (g : G) → All (λ n. n.graph ≡ g) nodes.items → AreResults (G.meaning g) results.new.items }
{
    for node in nodes {
        take_node(node, shares, results);
    }
}

/// Returns the shares and the results of a node.
fn take_node<G: Graph, K: Ledgers>(
    node: Node<G, K>,
    shares: &mut Vec<Shares<K>>,
    results: &mut Vec<(TaskId, Value)>,
)
    requires shares { vec_len shares.old < vec_capacity shares.old }
    requires results { vec_len results.old + length node.state.store.results ≤ vec_capacity results.old }
    ensures shares { shares.new.items ≡ shares.old.items ++ counted_of node ∷ [] }
    ensures results { results.new.items ≡ results.old.items ++ node.state.store.results }
    ensures right { AreResults (G.meaning node.graph) node.state.store.results }
    ensures room { (vec_capacity shares.new ≡ vec_capacity shares.old) × (vec_capacity results.old ≤ vec_capacity results.new) }
{
    let (share, mut more) = node.into_parts();
    shares.push_reserved(share);
    let Ok(()) = results.append(&mut more) else {
        unreachable!()
    };
}

/// Returns the shares of all links, in order.
fn take_pool_links<G: Graph, K: Ledgers>(
    pool_links: Vec<PoolLink<G, K>>,
    links: &mut Vec<LinkShare<K>>,
)
    requires empty { links.old.items ≡ [] }
    requires room { vec_len pool_links ≤ vec_capacity links.old }
    ensures { links.new.items ≡ map link_of pool_links.items }
{
    for pool_link in pool_links {
        links.push_reserved(pool_link.into_share());
    }
}
