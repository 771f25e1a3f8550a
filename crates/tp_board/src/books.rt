//! Opening a pool's board with all its shares, and adding all shares up at the end.
ghost use Rattle.std.specs.{List.All, Prelude.{◌≡◌, ◌≤◌, ◌<◌, ◌+◌, ◌-◌, ◌*◌, [], IfErr, IfOk, IsTrue, None, length, sum_by, vec_len}};
ghost use Rattle.tp_base.specs.declared.refusal.Refusal.TheVariants as refusals;
ghost use Rattle.tp_board.specs.Numbers.{first_links, first_numbers, first_shares, is_done, is_recv, is_send};
ghost use Rattle.tp_wave.specs.{Cut.IsQuietHistory, Generations.{AreRuns, present, present_events}, Machine.{pending_at, steps_of}};
ghost use Rattle.tp_wave.specs.{Machine.under_way, Steps.count, Sums.is_ended};

use crate::board::Board;
use crate::{Blanks, Ledgers, LinkShare, Opened, Parts, Shares, Under};
use std::alloc::Global;
use std::sync::ledger::Share;
use tp_base::{History, Refusal};

/// A pool's board, with all shares of its ledgers.
#[derive(Drop)]
pub struct Books<K: Ledgers> {
    /// What the board's lock protects.
    pub board: Board<K>,
    /// The shares of the nodes, in rising order of nodes.
    pub shares: Vec<Shares<K>>,
    /// The shares of the links, by sender and then by receiver.
    pub links: Vec<LinkShare<K>>,
}

/// Opens the ledgers of a pool of `nodes` nodes, with an empty history of at most `limit` events.
///
/// Refused with `NoMemory` if an allocation fails. The ledgers are lost then.
pub fn open_books<K: Ledgers>(
    alloc: Global,
    blanks: Blanks,
    nodes: u32,
    limit: u32,
) -> Result<Books<K>, Refusal>
    requires names { blanks ≡ K.names }
    requires nodes { (blanks.nodes ≡ nodes) × (1 ≤ nodes) × (nodes ≤ 8) }
    requires limit { limit ≤ 1048576 }
    ensures board { IfOk result (λ b. b.board ≡ record { history = []; limit = limit; reserved = 0; fault = None }) }
    ensures shares { IfOk result (λ b. b.shares.items ≡ first_shares nodes) }
    ensures links { IfOk result (λ b. b.links.items ≡ first_links nodes) }
    ensures all_first { IfOk result (λ b. All (λ s. s ≡ first_numbers s.node) b.shares.items) }
    ensures all_empty { IfOk result (λ b. All (λ l. l.under ≡ 0) b.links.items) }
    ensures each_share { IfOk result (λ b. vec_len b.shares ≡ nodes) }
    ensures each_link { IfOk result (λ b. vec_len b.links ≡ nodes * (nodes - 1)) }
    ensures refusal { IfErr result (λ e. e ≡ refusals.NoMemory) }
{
    let Opened {
        accounts,
        shares,
        links,
    } = blanks.open::<K>(alloc, nodes)?;
    Ok(Books {
        board: Board::new(alloc, nodes, limit, accounts),
        shares,
        links,
    })
}

/// The sums of all shares of a pool, and what its board kept. The numbers are those of the present generation.
#[derive(Drop)]
pub struct Totals {
    /// Unfinished tasks and open actions, over all nodes.
    pub pending: u32,
    /// Messages sent, over all nodes.
    pub sent: u32,
    /// Messages received, over all nodes.
    pub received: u32,
    /// Messages in flight, over all links.
    pub under: u32,
    /// Tasks done, over all nodes.
    pub done: u32,
    /// Whether termination was detected in the present generation.
    pub ended: bool,
    /// The first fault.
    pub fault: Option<Refusal>,
    /// The events of all generations.
    pub history: History,
}

/// Adds up all shares of a pool, and returns the totals. It allocates nothing.
pub fn close_books<K: Ledgers>(books: Books<K>) -> Totals
    requires shares { vec_len books.shares ≡ K.names.nodes }
    requires links { vec_len books.links ≡ K.names.nodes * (K.names.nodes - 1) }
    ensures pending { result.pending ≡ sum_by (λ s. s.pending) books.shares.items }
    ensures each_pending { All (λ s. s.pending ≡ pending_at s.node (present_events books.board.history)) books.shares.items }
    ensures sent { (result.sent ≡ sum_by (λ s. s.sent) books.shares.items)
        × (result.sent ≡ count is_send (present (steps_of books.board.history))) }
    ensures received { (result.received ≡ sum_by (λ s. s.received) books.shares.items)
        × (result.received ≡ count is_recv (present (steps_of books.board.history))) }
    ensures under { (result.under ≡ sum_by (λ l. l.under) books.links.items)
        × (result.under ≡ under_way (present (steps_of books.board.history))) }
    ensures done { (result.done ≡ sum_by (λ s. s.done) books.shares.items)
        × (result.done ≡ count is_done (present (steps_of books.board.history))) }
    ensures balance { result.sent ≡ result.received + result.under }
    ensures ended { result.ended ≡ is_ended K.names.nodes (present (steps_of books.board.history)) }
    ensures quiet { IsTrue result.ended → IsQuietHistory K.names.nodes (present_events books.board.history) }
    ensures fault { result.fault ≡ books.board.fault }
    ensures history { result.history.events ≡ books.board.history }
    ensures run { AreRuns K.names.nodes books.board.history }
    ensures few { length books.board.history ≤ 1048576 }
{
    let Books {
        mut board,
        mut shares,
        links,
    } = books;
    let none = board.no_links();
    let Some(first) = shares.pop() else {
        unreachable!()
    };
    let (pending, parts) = gather(&mut board, first, shares);
    let under = gather_links(none, links);
    board.close(pending, parts, under)
}

/// Returns the sum of the nodes' pending numbers, and their other shares.
fn gather<K: Ledgers>(
    board: &mut Board<K>,
    first: Shares<K>,
    others: Vec<Shares<K>>,
) -> (u32, Parts<K>)
    requires { vec_len others < 8 }
    ensures board { board.new ≡ board.old }
    ensures pending { result.0 ≡ sum_by (λ s. s.pending) others.items + first.pending }
    ensures first_pending { first.pending ≡ pending_at first.node (present_events board.old.history) }
    ensures each_pending { All (λ s. s.pending ≡ pending_at s.node (present_events board.old.history)) others.items }
    ensures parts { result.1.parts ≡ vec_len others + 1 }
    ensures sent { result.1.sent ≡ sum_by (λ s. s.sent) others.items + first.sent }
    ensures received { result.1.received ≡ sum_by (λ s. s.received) others.items + first.received }
    ensures done { result.1.done ≡ sum_by (λ s. s.done) others.items + first.done }
{
    let mut first = first;
    let mut pending = board.pending(&mut first);
    let mut parts = first.into_parts();
    let mut others = others;
    while let Some(mut next) = others.pop() {
        pending += board.pending(&mut next);
        parts.merge(next.into_parts());
    }
    (pending, parts)
}

/// Returns all shares of the links, joined.
fn gather_links<K: Ledgers>(none: Share<Under<K>>, links: Vec<LinkShare<K>>) -> Share<Under<K>>
    requires none { (none.parts ≡ 0) × (none.amount ≡ 0) }
    ensures parts { result.parts ≡ vec_len links }
    ensures amount { result.amount ≡ sum_by (λ l. l.under) links.items }
{
    let mut all = none;
    let mut links = links;
    while let Some(next) = links.pop() {
        all.merge(next.into_share());
    }
    all
}
