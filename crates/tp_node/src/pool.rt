//! Opening a pool: its nodes, its links and its board.
ghost use Rattle.std.specs.{List.All, Prelude.{◌≡◌, ◌≤◌, [], map, vec_len, IfErr, IfOk, None}};
ghost use Rattle.{tp_base.specs.declared.refusal.Refusal.TheVariants.NoMemory, tp_board.specs.Numbers.{first_links, first_numbers}};
ghost use Rattle.tp_node.specs.{Nodes.first_node, PoolLinks.empty_pool_link, Pools.{first_nodes, first_pool_links}};

use crate::node::Node;
use crate::pool_link::PoolLink;
use std::alloc::{AllocError, Global};
use tp_base::Refusal;
use tp_board::{Blanks, Board, Books, Ledgers, LinkShare, Shares, open_books};
use tp_graph::Graph;

/// A pool owned by one thread: its nodes, its links and its board.
#[derive(Drop)]
pub struct Pool<G: Graph, K: Ledgers> {
    /// The nodes, in rising order.
    pub nodes: Vec<Node<G, K>>,
    /// The links, by sender and then by receiver.
    pub links: Vec<PoolLink<G, K>>,
    /// What the board's lock protects.
    pub board: Board<K>,
}

/// Opens a pool of 1 to 8 nodes that computes a graph, with a history of at most `limit` events, 1,048,576 or fewer.
/// The ledgers of its parts belong together.
///
/// Refused with `NoMemory` if an allocation fails. The blank ledgers are lost then.
pub fn open_pool<G: Graph, K: Ledgers>(
    alloc: Global,
    blanks: Blanks,
    graph: G,
    nodes: u32,
    limit: u32,
) -> Result<Pool<G, K>, Refusal>
    requires names { blanks ≡ K.names }
    requires nodes { (blanks.nodes ≡ nodes) × (1 ≤ nodes) × (nodes ≤ 8) }
    requires limit { limit ≤ 1048576 }
    ensures nodes { IfOk result (λ p. p.nodes.items ≡ first_nodes graph nodes) }
    ensures links { IfOk result (λ p. p.links.items ≡ first_pool_links nodes) }
    ensures board { IfOk result (λ p. p.board ≡ record { history = []; limit = limit; reserved = 0; fault = None }) }
    ensures refusal { IfErr result (λ e. e ≡ NoMemory) }
{
    let Books {
        board,
        shares,
        links,
    } = open_books::<K>(alloc, blanks, nodes, limit)?;
    let (nodes, links) = open_parts(alloc, graph, nodes, shares, links)?;
    Ok(Pool {
        nodes,
        links,
        board,
    })
}

/// Makes the nodes from first shares, and the links from the shares of empty links.
fn open_parts<G: Graph, K: Ledgers>(
    alloc: Global,
    graph: G,
    count: u32,
    shares: Vec<Shares<K>>,
    links: Vec<LinkShare<K>>,
) -> Result<(Vec<Node<G, K>>, Vec<PoolLink<G, K>>), AllocError>
    requires pool { (count ≡ K.names.nodes) × (1 ≤ count) × (count ≤ 8) }
    requires first { All (λ s. s ≡ first_numbers s.node) shares.items }
    requires empty { All (λ l. l.under ≡ 0) links.items }
    ensures nodes { IfOk result (λ parts. parts.0.items ≡ map (λ s. first_node graph count s.node) shares.items) }
    ensures links { IfOk result (λ parts. parts.1.items ≡ map empty_pool_link links.items) }
{
    let nodes = open_nodes(alloc, graph, count, shares)?;
    Ok((nodes, open_pool_links(alloc, links)?))
}

/// Makes the nodes from first shares.
fn open_nodes<G: Graph, K: Ledgers>(
    alloc: Global,
    graph: G,
    count: u32,
    shares: Vec<Shares<K>>,
) -> Result<Vec<Node<G, K>>, AllocError>
    requires pool { (count ≡ K.names.nodes) × (1 ≤ count) × (count ≤ 8) }
    requires first { All (λ s. s ≡ first_numbers s.node) shares.items }
    ensures { IfOk result (λ nodes. nodes.items ≡ map (λ s. first_node graph count s.node) shares.items) }
{
    let mut nodes = Vec::new(alloc);
    for share in shares {
        nodes.push(Node::new(alloc, graph, count, share))?;
    }
    Ok(nodes)
}

/// Makes the links from the shares of empty links.
fn open_pool_links<G: Graph, K: Ledgers>(
    alloc: Global,
    links: Vec<LinkShare<K>>,
) -> Result<Vec<PoolLink<G, K>>, AllocError>
    requires empty { All (λ l. l.under ≡ 0) links.items }
    ensures { IfOk result (λ pool_links. pool_links.items ≡ map empty_pool_link links.items) }
{
    let mut pool_links = Vec::new(alloc);
    for share in links {
        pool_links.push(PoolLink::new(alloc, share))?;
    }
    Ok(pool_links)
}
