//! How a worker passes on the feeds of a finished task, in as few critical sections as possible.
ghost use Rattle.std.specs.Prelude.{◌≡◌, ◌<◌, ◌≤◌, IfOk, MatchOption, OnOk};
ghost use Rattle.tp_work.specs.Feeds.{GoesTo, IsFarther, IsSameNode};
ghost use Rattle.tp_node.specs.Feeds.{HasFeed};
ghost use Rattle.tp_node.specs.Feeds as feeds;

use crate::backoff::lock_with_backoff;
use crate::gate::Gate;
use crate::locks::{NodeSlot, check_pool_link, link_place};
use crate::worker::Worker;
use std::sync::{MutexGuard, Wait};
use tp_base::{NodeId, Refusal};
use tp_board::{Board, Ledgers};
use tp_graph::{Comparable, Graph, is_same};
use tp_node::{Finished, Node, PoolLink};

/// What passing on a task's feeds leaves: the guard of the board's lock, and the node to which messages were sent that
/// are to be reported after it is released.
#[derive(Drop)]
struct Passed<'a, G: Graph, K: Ledgers> {
    board: MutexGuard<'a, Board<K>>,
    receiver: Option<&'a NodeSlot<G, K>>,
}

impl<'a, G: Comparable, K: Ledgers, A: Gate, R: Wait> Worker<'a, G, K, A, R> {
    /// Passes on the feeds of the finished task in flight, if there is one, and records the task as done. One critical
    /// section of the board's lock covers all consecutive feeds that stay at the node, the one that was sent to another
    /// node just before them, and the record. The task is moved out only for the record, so that it is moved once.
    pub fn pass_on(
        &self,
        here: &mut Node<G, K>,
        in_flight: &mut Option<Finished<G>>,
    ) -> Result<(), Refusal>
        requires { here.old.graph ≡ self.now.graph }
        ensures { here.new.graph ≡ here.old.graph }
    {
        let Some(finished) = in_flight else {
            return Ok(());
        };
        if !is_same(&finished.graph(), &self.graph) {
            return Err(Refusal::Stranger);
        }
        let Passed {
            mut board,
            receiver,
        } = self.pass_feeds(here, finished)?;
        let Some(finished) = in_flight.take() else {
            return Ok(());
        };
        let done = record_done(here, &mut board, finished);
        drop(board);
        if let Some(node_slot) = receiver {
            self.locks
                .report_messages(self.rt, here.number(), node_slot);
        }
        done
    }

    /// Passes on all feeds of a finished task. Returns the guard of the board's lock of the last of them, which is
    /// still held.
    fn pass_feeds(
        &self,
        here: &mut Node<G, K>,
        finished: &mut Finished<G>,
    ) -> Result<Passed<'a, G, K>, Refusal>
        requires graph { finished.old.graph ≡ here.old.graph }
        ensures node { IsSameNode here.old here.new }
        ensures graph { OnOk result (finished.new.graph ≡ finished.old.graph) }
        ensures all_fed { OnOk result (finished.new.fed ≡ (G.meaning finished.new.graph).feeds finished.new.task.0) }
    {
        let mut next = next_home(finished, here.nodes());
        while let Some(home) = next {
            if home == here.number() {
                let mut board = lock_with_backoff(self.rt, &self.locks.board);
                next = feed_here(here, &mut board, finished)?;
                if next.is_none() {
                    return Ok(Passed {
                        board,
                        receiver: None,
                    });
                }
                continue;
            }
            let Some(there) = self.locks.node_slots.get(home.0 as usize) else {
                return Err(Refusal::NoNode);
            };
            let mut board = self.send(here, home, finished)?;
            next = feed_on(here, &mut board, finished)?;
            if next.is_none() {
                return Ok(Passed {
                    board,
                    receiver: Some(there),
                });
            }
            drop(board);
            self.locks.report_messages(self.rt, here.number(), there);
        }
        Ok(Passed {
            board: lock_with_backoff(self.rt, &self.locks.board),
            receiver: None,
        })
    }

    /// Sends the next feed to another node, and those after it as long as they go to the same node. Returns the guard
    /// of the board's lock, which is still held; the caller reports the messages after releasing it.
    fn send(
        &self,
        here: &mut Node<G, K>,
        to: NodeId,
        finished: &mut Finished<G>,
    ) -> Result<MutexGuard<'a, Board<K>>, Refusal>
        requires graph { finished.old.graph ≡ here.old.graph }
        requires next { HasFeed (G.meaning here.old.graph) finished.old }
        requires there { feeds.next_home (G.meaning here.old.graph) finished.old here.old.nodes ≡ to.0 }
        requires node { to.0 < here.old.nodes }
        ensures node { IsSameNode here.old here.new }
        ensures passed { OnOk result (IsFarther finished.old finished.new) }
    {
        let (number, nodes) = (here.number(), here.nodes());
        let Some(link_slot) = self.locks.link_slots.get(link_place(number.0, to.0, nodes)) else {
            return Err(Refusal::NoNode);
        };
        let mut pool_link = lock_with_backoff(self.rt, link_slot);
        let mut board = lock_with_backoff(self.rt, &self.locks.board);
        send_row(here, &mut pool_link, &mut board, to, finished)?;
        Ok(board)
    }
}

/// Sends the next feed over a link, if the link goes from the node to the feed's node.
fn send_next<G: Graph, K: Ledgers>(
    here: &mut Node<G, K>,
    pool_link: &mut PoolLink<G, K>,
    board: &mut Board<K>,
    to: NodeId,
    finished: &mut Finished<G>,
) -> Result<(), Refusal>
    requires graph { finished.old.graph ≡ here.old.graph }
    requires next { HasFeed (G.meaning here.old.graph) finished.old }
    requires there { feeds.next_home (G.meaning here.old.graph) finished.old here.old.nodes ≡ to.0 }
    ensures node { IsSameNode here.old here.new }
    ensures passed { OnOk result (IsFarther finished.old finished.new) }
{
    check_pool_link(pool_link, here.number(), to)?;
    here.send(pool_link, board, finished)?;
    Ok(())
}

/// Sends the next feed over a link, and those after it as long as they go to the same node.
fn send_row<G: Graph, K: Ledgers>(
    here: &mut Node<G, K>,
    pool_link: &mut PoolLink<G, K>,
    board: &mut Board<K>,
    to: NodeId,
    finished: &mut Finished<G>,
) -> Result<(), Refusal>
    requires graph { finished.old.graph ≡ here.old.graph }
    requires next { HasFeed (G.meaning here.old.graph) finished.old }
    requires there { feeds.next_home (G.meaning here.old.graph) finished.old here.old.nodes ≡ to.0 }
    ensures node { IsSameNode here.old here.new }
    ensures passed { OnOk result (IsFarther finished.old finished.new) }
{
    let nodes = here.nodes();
    send_next(here, pool_link, board, to, finished)?;
    while let Some(home) = next_home(finished, nodes) {
        if home != to {
            break;
        }
        send_next(here, pool_link, board, to, finished)?;
    }
    Ok(())
}

/// Returns the node to which the next feed goes, if one is left.
#[inline(always)]
fn next_home<G: Graph>(finished: &Finished<G>, nodes: u32) -> Option<NodeId>
    requires { (1 ≤ nodes) × (nodes ≤ 8) }
    ensures next { MatchOption result (finished.now.fed
        ≡ (G.meaning finished.now.graph).feeds finished.now.task.0) (λ home.
        GoesTo (G.meaning finished.now.graph) finished.now nodes home.0) }
{
    if finished.all_fed() {
        return None;
    }
    let _task = finished.task(); // one of the graph's, so its feeds are tasks with homes
    if nodes == 1 {
        return Some(NodeId(0));
    }
    let feed = finished.next_feed();
    Some(finished.graph().home(feed.target, nodes))
}

/// Passes on the next feeds that stay at the node, if the next one does. Returns the node to which the feed after them
/// goes, if one is left.
fn feed_on<G: Graph, K: Ledgers>(
    here: &mut Node<G, K>,
    board: &mut Board<K>,
    finished: &mut Finished<G>,
) -> Result<Option<NodeId>, Refusal>
    requires graph { finished.old.graph ≡ here.old.graph }
    ensures node { IsSameNode here.old here.new }
    ensures graph { OnOk result (finished.new.graph ≡ finished.old.graph) }
    ensures task { OnOk result (finished.new.task ≡ finished.old.task) }
    ensures passed { OnOk result (finished.old.fed ≤ finished.new.fed) }
    ensures next { IfOk result (λ next.
        MatchOption next (finished.new.fed
        ≡ (G.meaning finished.new.graph).feeds finished.new.task.0) (λ home.
        GoesTo (G.meaning finished.new.graph) finished.new here.old.nodes home.0)) }
{
    match next_home(finished, here.nodes()) {
        Some(home) if home == here.number() => feed_here(here, board, finished),
        next => Ok(next),
    }
}

/// Passes the next feed on within the node, and those after it as long as they stay there. Returns the node to which
/// the feed after them goes, if one is left.
#[inline(always)]
fn feed_here<G: Graph, K: Ledgers>(
    here: &mut Node<G, K>,
    board: &mut Board<K>,
    finished: &mut Finished<G>,
) -> Result<Option<NodeId>, Refusal>
    requires graph { finished.old.graph ≡ here.old.graph }
    requires next { HasFeed (G.meaning here.old.graph) finished.old }
    requires here { feeds.next_home (G.meaning here.old.graph) finished.old here.old.nodes ≡ here.old.numbers.node }
    ensures node { IsSameNode here.old here.new }
    ensures passed { OnOk result (IsFarther finished.old finished.new) }
    ensures next { IfOk result (λ next.
        MatchOption next (finished.new.fed
        ≡ (G.meaning finished.new.graph).feeds finished.new.task.0) (λ home.
        GoesTo (G.meaning finished.new.graph) finished.new here.old.nodes home.0)) }
{
    let (number, nodes) = (here.number(), here.nodes());
    here.feed(board, finished)?;
    while let Some(home) = next_home(finished, nodes) {
        if home != number {
            return Ok(Some(home));
        }
        here.feed(board, finished)?;
    }
    Ok(None)
}

/// Records a task as done after all its feeds were passed on.
fn record_done<G: Graph, K: Ledgers>(
    here: &mut Node<G, K>,
    board: &mut Board<K>,
    finished: Finished<G>,
) -> Result<(), Refusal>
    requires graph { finished.graph ≡ here.old.graph }
    requires all_fed { finished.fed ≡ (G.meaning here.old.graph).feeds finished.task.0 }
    ensures { here.new.graph ≡ here.old.graph }
{
    match here.done(board, finished) {
        Ok(()) => Ok(()),
        Err((refusal, _)) => Err(refusal),
    }
}
