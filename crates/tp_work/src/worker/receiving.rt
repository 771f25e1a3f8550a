//! How a worker receives messages and delivers their values.
ghost use Rattle.std.specs.Prelude.{◌≡◌, ◌+◌, length, IfOk, IsFalse, IsTrue};

use crate::backoff::lock_with_backoff;
use crate::gate::Gate;
use crate::locks::{check_pool_link, link_place};
use crate::node_set::NodeSet;
use crate::worker::{MESSAGES_IN_A_HOLD, Worker};
use std::sync::{Mutex, Wait};
use tp_base::{NodeId, Refusal};
use tp_board::{Board, Ledgers};
use tp_graph::Comparable;
use tp_node::{Node, PoolLink};

impl<'a, G: Comparable, K: Ledgers, A: Gate, R: Wait> Worker<'a, G, K, A, R> {
    /// Receives messages of these senders, as long as there are any, each in a turn of its own: the gate is called
    /// before each but the first. Returns whether there was one.
    #[inline(never)]
    pub fn receive_some(
        &self,
        here: &mut Node<G, K>,
        senders: &mut NodeSet,
    ) -> Result<bool, Refusal>
        ensures { here.new.graph ≡ here.old.graph }
    {
        if !self.receive(here, senders)? {
            return Ok(false);
        }
        for _ in 1..MESSAGES_IN_A_HOLD {
            if senders.is_empty() {
                break;
            }
            self.may_go_on()?;
            if !self.receive(here, senders)? {
                break;
            }
        }
        Ok(true)
    }

    /// Calls the gate before another turn in the same critical section of the node's lock. A stop waits for that lock.
    ///
    /// Refused with `Stalled` if the gate returns `false`.
    pub fn may_go_on(&self) -> Result<(), Refusal> {
        if !self.gate.inside(self.place) {
            return Err(Refusal::Stalled(0));
        }
        Ok(())
    }

    /// Receives a message of these senders and delivers its value, if there is one. A sender without further messages is
    /// removed from them.
    fn receive(&self, here: &mut Node<G, K>, senders: &mut NodeSet) -> Result<bool, Refusal>
        ensures { here.new.graph ≡ here.old.graph }
    {
        let (number, nodes) = (here.number(), here.nodes());
        for from in 0..nodes {
            if !senders.has(NodeId(from)) {
                continue;
            }
            let Some(link_slot) = self.locks.link_slots.get(link_place(from, number.0, nodes))
            else {
                return Err(Refusal::NoNode);
            };
            if self.receive_from(here, link_slot, NodeId(from), senders)? {
                return Ok(true);
            }
        }
        Ok(false)
    }

    /// Receives a message of a link and delivers its value, if there is one. There may be none: a sender reports its
    /// messages after it has released the link.
    fn receive_from(
        &self,
        here: &mut Node<G, K>,
        link_slot: &Mutex<PoolLink<G, K>>,
        from: NodeId,
        senders: &mut NodeSet,
    ) -> Result<bool, Refusal>
        ensures { here.new.graph ≡ here.old.graph }
    {
        let mut pool_link = lock_with_backoff(self.rt, link_slot);
        let messages = pool_link.len();
        if messages <= 1 {
            senders.remove(from);
        }
        if messages == 0 {
            return Ok(false);
        }
        let mut board = lock_with_backoff(self.rt, &self.locks.board);
        receive_next(here, &mut pool_link, &mut board, from)
    }
}

/// Receives the next message of a link from a node, and delivers its value, if there is one. That takes three events:
/// the receipt, the delivered value, and the end of the message's action.
fn receive_next<G: Comparable, K: Ledgers>(
    here: &mut Node<G, K>,
    pool_link: &mut PoolLink<G, K>,
    board: &mut Board<K>,
    from: NodeId,
) -> Result<bool, Refusal>
    ensures graph { here.new.graph ≡ here.old.graph }
    ensures delivered { IfOk result (λ took. IsTrue took → length board.new.history ≡ length board.old.history + 3) }
    ensures none { IfOk result (λ took. IsFalse took → board.new.history ≡ board.old.history) }
{
    check_pool_link(pool_link, from, here.number())?;
    let Some(parcel) = here.receive(pool_link, board)? else {
        return Ok(false);
    };
    match here.deliver(board, parcel) {
        Ok(()) => Ok(true),
        Err((refusal, _)) => Err(refusal),
    }
}
