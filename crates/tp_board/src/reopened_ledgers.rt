//! The ledgers of a pool that is reopened: all shares are gathered, cleared and split again.
ghost use Rattle.std.specs.{List.All, Prelude.{◌≡◌, ◌≤◌, ◌<◌, ◌+◌, ℕ, IfOk, MatchOption, [], map, length, slice_index, vec_capacity}};
ghost use Rattle.std.specs.Prelude.{vec_len};
ghost use Rattle.tp_base.specs.Totals.{total};
ghost use Rattle.tp_board.specs.{Fresh.HasRoom, Numbers.empty_parts, Reopening.{AllAre, AreFirst, begun_anew, opened_again, with_numbers}};

use crate::names::Ledgers;
use crate::pending::{PendingBooks, PendingOf};
use crate::shares::{Parts, Shares};
use std::alloc::{AllocError, Global};
use std::sync::ledger::{Book, Ledger, Share};

/// Memory for the shares of a pool's nodes while it is reopened.
#[derive(Drop)]
pub struct Fresh<K: Ledgers> {
    pub(crate) pendings: Vec<PendingOf<K>>,
    pub(crate) shares: Vec<Shares<K>>,
}

impl<K: Ledgers> Fresh<K> {
    /// Reserves memory for `nodes` nodes. Refused if an allocation fails.
    pub fn new(alloc: Global, nodes: u32) -> Result<Fresh<K>, AllocError>
        ensures { IfOk result (HasRoom nodes) }
    {
        Ok(Fresh {
            pendings: Vec::with_capacity(alloc, nodes as usize)?,
            shares: Vec::with_capacity(alloc, nodes as usize)?,
        })
    }
}

/// Opens each node's opening action again, and joins its other shares.
pub(crate) fn open_each<K: Ledgers>(
    books: &mut PendingBooks<K>,
    shares: Vec<Shares<K>>,
    pendings: &mut Vec<PendingOf<K>>,
) -> Option<Parts<K>>
    requires idle { All (λ s. s.pending ≡ 0) shares.items }
    requires none { AllAre K.names.nodes 0 books.old }
    requires room { (pendings.old.items ≡ []) × (vec_len shares ≤ vec_capacity pendings.old) }
    ensures pendings { pendings.new.items ≡ map opened_again shares.items }
    ensures opened { All (λ p. (p.node < K.names.nodes) × (p.amount ≡ 1)) pendings.new.items }
    ensures sum { total K.names.nodes (λ i. slice_index books.new i) ≡ vec_len shares }
    ensures each { (i : ℕ) → i < K.names.nodes → slice_index books.new i ≤ 1 }
    ensures parts { MatchOption result (vec_len shares ≡ 0) (λ p. p.parts ≡ vec_len shares) }
{
    let mut all = None;
    for next in shares {
        let Shares {
            mut pending,
            sent,
            received,
            done,
        } = next;
        pending.open_again(books);
        pendings.push_reserved(pending);
        let part = Parts {
            sent,
            received,
            done,
        };
        all = Some(joined(all, part));
    }
    all
}

/// Joins the shares of some nodes with those of one more.
fn joined<K: Ledgers>(all: Option<Parts<K>>, part: Parts<K>) -> Parts<K>
    ensures { MatchOption all (result ≡ part) (λ a. result.parts ≡ a.parts + part.parts) }
{
    match all {
        None => part,
        Some(mut all) => {
            all.merge(part);
            all
        }
    }
}

/// Gives each node its first shares again.
pub(crate) fn share_out<K: Ledgers>(
    pendings: Vec<PendingOf<K>>,
    parts: Parts<K>,
    shares: &mut Vec<Shares<K>>,
)
    requires parts { parts ≡ empty_parts (vec_len pendings) }
    requires each { All (λ p. (p.node < K.names.nodes) × (p.amount ≡ 1)) pendings.items }
    requires room { (shares.old.items ≡ []) × (vec_len pendings ≤ vec_capacity shares.old) }
    ensures { shares.new.items ≡ map with_numbers pendings.items }
{
    let mut parts = parts;
    for pending in pendings {
        shares.push_reserved(Shares::new(pending, parts.split_off()));
    }
}

/// Takes the whole total out of a book and its joined shares.
pub(crate) fn clear<L: Ledger>(book: &mut Book<L>, share: &mut Share<L>, all: u32)
    requires whole { share.old.parts ≡ L.parts }
    requires total { all ≡ book.old.total }
    ensures book { book.new.total ≡ 0 }
    ensures amount { share.new.amount ≡ 0 }
    ensures parts { share.new.parts ≡ share.old.parts }
{
    book.audit(share);
    book.sub(share, all as u64);
}
