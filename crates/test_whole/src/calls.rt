//! The calls of a node that allocate: one whose allocation fails changes nothing, and succeeds when it is repeated.

ghost use Rattle.std.specs.Prelude.{◌≡◌, IfOk, MatchOption};
ghost use Rattle.tp_node.specs.Nodes.{HasBrought};

use pool_samples::Reduce;
use std::alloc::Global;
use tp_base::{ActionId, Refusal};
use tp_board::{Board, Ended, Ledgers};
use tp_graph::{Comparable, Graph, Parcel, is_same};
use tp_node::{Finished, Node, PoolLink, Turn, Work};
use tp_store::Counts;

/// The content of a node and the board: what is pending, sent and received, the counts of tasks, and the numbers of results,
/// of events and of the next message.
type Held = (u32, u32, u32, Counts, usize, usize, u32);

fn held<G: Graph, K: Ledgers>(node: &Node<G, K>, board: &Board<K>) -> Held {
    (
        node.pending(),
        node.sent(),
        node.received(),
        node.counts(),
        node.results().len(),
        board.len(),
        board.next_message().0,
    )
}

/// Makes a call of a node, and makes it again if an allocation failed and nothing was changed.
macro_rules! again {
    ($rt:ident, $node:ident.$method:ident($board:ident $(, $argument:expr)?)) => {
        again!($rt, concat!("Node::", stringify!($method)), $node, $board, $node.$method($board $(, $argument)?))
    };
    ($rt:expr, $name:expr, $node:expr, $board:expr, $call:expr) => {{
        let before = held($node, $board);
        match $call {
            Err(Refusal::NoMemory) => {
                say($rt, $name);
                if held($node, $board) != before {
                    return Err(Refusal::Missing);
                }
                $call?
            }
            made => made?,
        }
    }};
}

pub(crate) fn say<R: Eprint>(rt: &R, name: &str) {
    let _ = eprintln!(rt; "refused: {name}");
}

/// Inserts all tasks of a node without inputs, and closes its opening action.
pub(crate) fn seed_all<K: Ledgers, R: Eprint>(
    rt: &R,
    node: &mut Node<Reduce, K>,
    board: &mut Board<K>,
) -> Result<(), Refusal> {
    for _ in 0..16 {
        if !again!(rt, node.seed(board)) {
            again!(rt, node.ready(board));
            return Ok(());
        }
    }
    Err(Refusal::Missing)
}

/// Opens a named action and closes it.
pub(crate) fn act<K: Ledgers, R: Eprint>(
    rt: &R,
    node: &mut Node<Reduce, K>,
    board: &mut Board<K>,
) -> Result<(), Refusal> {
    again!(rt, node.action_open(board, ActionId(4)));
    again!(rt, node.action_close(board, ActionId(4)));
    Ok(())
}

/// A node's turn: it receives a message, runs a task, or makes a control step. Returns the termination token once
/// termination is detected.
pub(crate) fn turn_of<K: Ledgers, R: Eprint>(
    rt: &R,
    alloc: Global,
    node: &mut Node<Reduce, K>,
    into: &mut PoolLink<Reduce, K>,
    out: &mut PoolLink<Reduce, K>,
    board: &mut Board<K>,
) -> Result<Option<Ended<K>>, Refusal> {
    if receive_one(rt, node, into, board)? || run_one(rt, alloc, node, out, board)? {
        return Ok(None);
    }
    match again!(rt, node.control_turn(board)) {
        Turn::Over(ended) => Ok(Some(ended)),
        Turn::Idle | Turn::Moved => Ok(None),
    }
}

/// Receives a message and delivers its value.
pub(crate) fn receive_one<K: Ledgers, R: Eprint>(
    rt: &R,
    node: &mut Node<Reduce, K>,
    pool_link: &mut PoolLink<Reduce, K>,
    board: &mut Board<K>,
) -> Result<bool, Refusal> {
    let Some(parcel) = again!(
        rt,
        "Node::receive",
        node,
        board,
        receive(node, pool_link, board)
    ) else {
        return Ok(false);
    };
    deliver(node, board, parcel)
}

/// Delivers the value of a parcel. If an allocation failed and nothing was changed, the pool is run again from its
/// beginning.
fn deliver<G: Graph, K: Ledgers>(
    node: &mut Node<G, K>,
    board: &mut Board<K>,
    parcel: Parcel<G>,
) -> Result<bool, Refusal>
    requires graph { parcel.graph ≡ node.old.graph }
    requires brought { HasBrought (G.meaning node.old.graph) node.old parcel }
{
    let before = held(node, board);
    match node.deliver(board, parcel) {
        Ok(()) => Ok(true),
        Err((Refusal::NoMemory, _)) if held(node, board) != before => Err(Refusal::Missing),
        Err((refusal, _)) => Err(refusal),
    }
}

/// Receives a message from a link that leads here.
pub(crate) fn receive<G: Comparable, K: Ledgers>(
    node: &mut Node<G, K>,
    pool_link: &mut PoolLink<G, K>,
    board: &mut Board<K>,
) -> Result<Option<Parcel<G>>, Refusal>
    ensures graph { IfOk result (λ parcel. MatchOption parcel (Unit {0}) (λ it. it.graph ≡ node.new.graph)) }
    ensures brought { IfOk result (λ parcel. MatchOption parcel (Unit {0}) (HasBrought (G.meaning node.new.graph) node.new)) }
{
    if pool_link.to() != node.number() {
        return Err(Refusal::NoNode);
    }
    node.receive(pool_link, board)
}

/// Begins a task, runs it, passes its one feed on and records it as done.
pub(crate) fn run_one<K: Ledgers, R: Eprint>(
    rt: &R,
    alloc: Global,
    node: &mut Node<Reduce, K>,
    pool_link: &mut PoolLink<Reduce, K>,
    board: &mut Board<K>,
) -> Result<bool, Refusal> {
    let Some(work) = again!(rt, node.begin(board)) else {
        return Ok(false);
    };
    let mut finished = perform(rt, alloc, work)?;
    again!(
        rt,
        "Node::feed or Node::send",
        node,
        board,
        pass_on(node, pool_link, board, &mut finished)
    );
    record_again(rt, node, board, finished)
}

/// Runs the body of a task, and again if an allocation failed.
fn perform<R: Eprint>(
    rt: &R,
    alloc: Global,
    work: Work<Reduce>,
) -> Result<Finished<Reduce>, Refusal> {
    let work = match work.perform(alloc) {
        Ok(finished) => return Ok(finished),
        Err((_, work)) => work,
    };
    say(rt, "Work::perform");
    match work.perform(alloc) {
        Ok(finished) => Ok(finished),
        Err((refusal, _)) => Err(refusal),
    }
}

/// Records a finished task as done, and again if an allocation failed and nothing was changed.
fn record_again<K: Ledgers, R: Eprint>(
    rt: &R,
    node: &mut Node<Reduce, K>,
    board: &mut Board<K>,
    finished: Finished<Reduce>,
) -> Result<bool, Refusal> {
    let before = held(node, board);
    match record(node, board, finished) {
        Ok(()) => Ok(true),
        Err((Refusal::NoMemory, finished)) if held(node, board) == before => {
            say(rt, "Node::done");
            match record(node, board, finished) {
                Ok(()) => Ok(true),
                Err((refusal, _)) => Err(refusal),
            }
        }
        Err((refusal, _)) => Err(refusal),
    }
}

/// Passes the next feed on, to a task of the node or over the link.
fn pass_on<G: Comparable, K: Ledgers>(
    node: &mut Node<G, K>,
    pool_link: &mut PoolLink<G, K>,
    board: &mut Board<K>,
    finished: &mut Finished<G>,
) -> Result<(), Refusal> {
    let graph = node.graph();
    if !is_same(&finished.graph(), &graph) || pool_link.from() != node.number() {
        return Err(Refusal::Stranger);
    }
    let _passed = finished.fed();
    if finished.all_fed() {
        return Ok(());
    }
    let feed = finished.next_feed();
    let home = graph.home(feed.target, node.nodes());
    if home == node.number() {
        return node.feed(board, finished);
    }
    if home != pool_link.to() {
        return Err(Refusal::NoNode);
    }
    node.send(pool_link, board, finished)?;
    Ok(())
}

/// Records a task as done after all its feeds were passed on.
fn record<G: Comparable, K: Ledgers>(
    node: &mut Node<G, K>,
    board: &mut Board<K>,
    finished: Finished<G>,
) -> Result<(), (Refusal, Finished<G>)> {
    if !is_same(&finished.graph(), &node.graph()) || !finished.all_fed() {
        return Err((Refusal::Stranger, finished));
    }
    node.done(board, finished)
}
