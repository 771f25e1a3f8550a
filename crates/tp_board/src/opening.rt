//! New ledgers, with the first shares of the nodes and links.
ghost use Rattle.std.specs.{List.All, Prelude.{◌≡◌, ◌≤◌, ◌<◌, ◌+◌, ◌-◌, ◌*◌, ◌++◌, [], IfErr, IfOk, min, vec_capacity, vec_len}};
ghost use Rattle.tp_base.specs.declared.refusal.Refusal.TheVariants as refusals;
ghost use Rattle.tp_board.specs.{Books.first_totals, Names.under_parts, Numbers.{empty_parts, first_links, first_numbers, first_shares}};
ghost use Rattle.tp_board.specs.Numbers.{links_of};

use crate::accounts::Accounts;
use crate::ended::Keeper;
use crate::names::{Done, Ledgers, Received, Sent, Under};
use crate::pending::{FirstPending, PendingBlanks, PendingOf};
use crate::shares::{LinkShare, Parts, Shares};
use std::alloc::Global;
use std::marker::Model;
use std::sync::ledger::{Blank, Share};
use tp_base::{NodeId, Refusal};

/// New ledgers of a pool, which no type names yet. Contracts see the names that they will have.
#[derive(Drop)]
pub struct Blanks {
    pending: PendingBlanks,
    sent: Blank,
    received: Blank,
    done: Blank,
    under: Blank,
    judged: Blank,
}

impl Model for Blanks {
    ghost use Rattle.std.specs.Prelude.{◌≡◌};
    ghost use Rattle.tp_board.specs.Names.{PoolNames, under_parts};

    ghost Value = { PoolNames };

    ghost view = { λ b. record {
      nodes = b.sent.parts;
      pending = b.pending;
      sent = b.sent.name;
      received = b.received.name;
      done = b.done.name;
      under = b.under.name;
      judged = b.judged.name;
    } };

    ghost invariant = { λ b. (b.received.parts ≡ b.sent.parts) × (b.done.parts ≡ b.sent.parts) × (b.under.parts ≡ under_parts b.sent.parts)
        × (b.judged.parts ≡ 1) };
}

impl Blanks {
    /// Returns new ledgers for a pool of `nodes` nodes. It allocates nothing.
    pub fn new(nodes: u32) -> Blanks
        requires { (1 ≤ nodes) × (nodes ≤ 8) }
        ensures { result.nodes ≡ nodes }
    {
        let count = nodes as u64;
        Blanks {
            pending: PendingBlanks::new(),
            sent: Blank::new(count),
            received: Blank::new(count),
            done: Blank::new(count),
            under: Blank::new(count * (count - 1) + 1),
            judged: Blank::new(1),
        }
    }

    /// Opens the ledgers, with each node's opening action pending.
    ///
    /// Refused with `NoMemory` if an allocation fails. The ledgers are lost then.
    pub fn open<K: Ledgers>(self, alloc: Global, nodes: u32) -> Result<Opened<K>, Refusal>
        requires names { self ≡ K.names }
        requires nodes { (self.nodes ≡ nodes) × (1 ≤ nodes) × (nodes ≤ 8) }
        ensures accounts { IfOk result (λ o. o.accounts ≡ first_totals) }
        ensures shares { IfOk result (λ o. o.shares.items ≡ first_shares nodes) }
        ensures links { IfOk result (λ o. o.links.items ≡ first_links nodes) }
        ensures all_first { IfOk result (λ o. All (λ s. s ≡ first_numbers s.node) o.shares.items) }
        ensures all_empty { IfOk result (λ o. All (λ l. l.under ≡ 0) o.links.items) }
        ensures each_share { IfOk result (λ o. vec_len o.shares ≡ nodes) }
        ensures each_link { IfOk result (λ o. vec_len o.links ≡ nodes * (nodes - 1)) }
        ensures refusal { IfErr result (λ e. e ≡ refusals.NoMemory) }
    {
        let mut shares = Vec::with_capacity(alloc, 8)?;
        let mut links = Vec::with_capacity(alloc, (nodes * (nodes - 1)) as usize)?;
        let (pending, first) = self.pending.open::<K>();
        let (sent_book, sent) = self.sent.open::<Sent<K>>();
        let (received_book, received) = self.received.open::<Received<K>>();
        let (done_book, done) = self.done.open::<Done<K>>();
        let (under_book, mut under) = self.under.open::<Under<K>>();
        let keeper = Keeper::open(self.judged);
        let parts = Parts {
            sent,
            received,
            done,
        };
        open_shares(&mut shares, first, parts, nodes);
        open_links(&mut links, &mut under, nodes);
        Ok(Opened {
            accounts: Accounts::new(
                pending,
                sent_book,
                received_book,
                done_book,
                under_book,
                under,
                keeper,
            ),
            shares,
            links,
        })
    }
}

/// The books of a pool's ledgers, with all shares.
#[derive(Drop)]
pub struct Opened<K: Ledgers> {
    /// The books.
    pub accounts: Accounts<K>,
    /// The shares of the nodes, in rising order of nodes.
    pub shares: Vec<Shares<K>>,
    /// The shares of the links, by sender and then by receiver.
    pub links: Vec<LinkShare<K>>,
}

/// Adds the first shares of the nodes.
fn open_shares<K: Ledgers>(
    shares: &mut Vec<Shares<K>>,
    pending: FirstPending<K>,
    parts: Parts<K>,
    nodes: u32,
)
    requires nodes { (K.names.nodes ≡ nodes) × (1 ≤ nodes) × (nodes ≤ 8) }
    requires empty { shares.old.items ≡ [] }
    requires room { 8 ≤ vec_capacity shares.old }
    requires parts { parts ≡ empty_parts nodes }
    ensures shares { shares.new.items ≡ first_shares nodes }
    ensures many { vec_len shares.new ≡ nodes }
{
    let mut parts = parts;
    add_shares(shares, &mut parts, pending.node_0, nodes);
    add_shares(shares, &mut parts, pending.node_1, nodes);
    add_shares(shares, &mut parts, pending.node_2, nodes);
    add_shares(shares, &mut parts, pending.node_3, nodes);
    add_shares(shares, &mut parts, pending.node_4, nodes);
    add_shares(shares, &mut parts, pending.node_5, nodes);
    add_shares(shares, &mut parts, pending.node_6, nodes);
    add_shares(shares, &mut parts, pending.node_7, nodes);
}

/// Adds the first shares of the next node, if there is one.
fn add_shares<K: Ledgers>(
    shares: &mut Vec<Shares<K>>,
    parts: &mut Parts<K>,
    pending: PendingOf<K>,
    nodes: u32,
)
    requires count { K.names.nodes ≡ nodes }
    requires shares { shares.old.items ≡ first_shares (min pending.node nodes) }
    requires room { pending.node < vec_capacity shares.old }
    requires pending { pending.amount ≡ 1 }
    requires parts { parts.old ≡ empty_parts (nodes - pending.node) }
    ensures shares { shares.new.items ≡ first_shares (min (pending.node + 1) nodes) }
    ensures room { vec_capacity shares.new ≡ vec_capacity shares.old }
    ensures parts { parts.new ≡ empty_parts (nodes - (pending.node + 1)) }
{
    if pending.node() >= nodes {
        return;
    }
    shares.push_reserved(Shares::new(pending, parts.split_off()));
}

/// Adds the shares of the links.
fn open_links<K: Ledgers>(links: &mut Vec<LinkShare<K>>, under: &mut Share<Under<K>>, nodes: u32)
    requires nodes { (K.names.nodes ≡ nodes) × (1 ≤ nodes) × (nodes ≤ 8) }
    requires empty { links.old.items ≡ [] }
    requires room { nodes * (nodes - 1) ≤ vec_capacity links.old }
    requires under { (under.old.parts ≡ under_parts nodes) × (under.old.amount ≡ 0) }
    ensures links { links.new.items ≡ first_links nodes }
    ensures many { vec_len links.new ≡ nodes * (nodes - 1) }
    ensures left { (under.new.parts ≡ 1) × (under.new.amount ≡ 0) }
{
    for from in 0..nodes {
        add_links(links, under, from, nodes);
    }
}

/// Adds the shares of one node's links.
fn add_links<K: Ledgers>(
    links: &mut Vec<LinkShare<K>>,
    under: &mut Share<Under<K>>,
    from: u32,
    nodes: u32,
)
    requires nodes { (K.names.nodes ≡ nodes) × (from < nodes) × (nodes ≤ 8) }
    requires room { vec_len links.old + (nodes - 1) ≤ vec_capacity links.old }
    requires under { (nodes ≤ under.old.parts) × (under.old.amount ≡ 0) }
    ensures links { links.new.items ≡ links.old.items ++ links_of nodes from }
    ensures room { vec_capacity links.new ≡ vec_capacity links.old }
    ensures under { (under.new.parts + (nodes - 1) ≡ under.old.parts) × (under.new.amount ≡ 0) }
{
    for to in 0..nodes {
        if to != from {
            let share = under.split_off(1, 0);
            links.push_reserved(LinkShare::new(NodeId(from), NodeId(to), share));
        }
    }
}
