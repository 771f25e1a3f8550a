//! The ledgers of the pending numbers, one for each node.
ghost use Rattle.std.specs.Prelude.{◌≡◌, ◌≤◌, ℕ, ◌+◌, ◌-◌, ◌*◌, ◌<◌, IsFalse, [], ◌∷◌, slice_index, slice_set, length};
ghost use Rattle.tp_board.specs.{Names.pending_name, Numbers.{first_pending, is_recv}};
ghost use Rattle.tp_wave.specs.Machine.{pending_after};

use crate::names::{Ledgers, Pending};
use std::marker::Model;
use std::sync::ledger::{Blank, Book, Ledger, Share};
use tp_base::Step;

/// The books of the pending ledgers. Contracts see their totals.
#[derive(Drop)]
pub struct PendingBooks<K: Ledgers> {
    book_0: Book<Pending<K, 0>>,
    book_1: Book<Pending<K, 1>>,
    book_2: Book<Pending<K, 2>>,
    book_3: Book<Pending<K, 3>>,
    book_4: Book<Pending<K, 4>>,
    book_5: Book<Pending<K, 5>>,
    book_6: Book<Pending<K, 6>>,
    book_7: Book<Pending<K, 7>>,
}

impl<K: Ledgers> Model for PendingBooks<K> {
    ghost use Rattle.std.specs.Prelude.{ℕ, List, [], ◌∷◌};

    ghost Value = { List ℕ };

    ghost view = { λ b. b.book_0.total ∷ b.book_1.total ∷ b.book_2.total ∷ b.book_3.total ∷ b.book_4.total ∷ b.book_5.total ∷ b.book_6.total
        ∷ b.book_7.total ∷ [] };
}

/// The whole share of one node's pending ledger.
#[derive(Drop)]
pub enum PendingShare<K: Ledgers> {
    Node0(Share<Pending<K, 0>>),
    Node1(Share<Pending<K, 1>>),
    Node2(Share<Pending<K, 2>>),
    Node3(Share<Pending<K, 3>>),
    Node4(Share<Pending<K, 4>>),
    Node5(Share<Pending<K, 5>>),
    Node6(Share<Pending<K, 6>>),
    Node7(Share<Pending<K, 7>>),
}

/// The whole share of one node's pending ledger. Contracts see the node and the amount.
#[derive(Drop)]
pub struct PendingOf<K: Ledgers> {
    share: PendingShare<K>,
}

impl<K: Ledgers> Model for PendingOf<K> {
    ghost use Rattle.tp_board.specs.Numbers.{PendingNumber};

    ghost Value = { PendingNumber };

    ghost use Rattle.tp_board.specs.Pendings.{pending_number, IsWhole};

    ghost view = { λ s. pending_number s.share };

    ghost invariant = { λ s. IsWhole s.share };
}

impl<K: Ledgers> PendingOf<K> {
    /// Returns the number of the node.
    pub fn node(&self) -> u32
        ensures { result ≡ self.now.node }
    {
        match &self.share {
            PendingShare::Node0(_) => 0,
            PendingShare::Node1(_) => 1,
            PendingShare::Node2(_) => 2,
            PendingShare::Node3(_) => 3,
            PendingShare::Node4(_) => 4,
            PendingShare::Node5(_) => 5,
            PendingShare::Node6(_) => 6,
            PendingShare::Node7(_) => 7,
        }
    }

    /// Shows that the share and its book have the same amount. Changes nothing.
    pub fn audit(&mut self, books: &mut PendingBooks<K>)
        ensures same { (self.new ≡ self.old) × (books.new ≡ books.old) }
        ensures known { self.old.node < length books.old }
        ensures told { self.old.amount ≡ slice_index books.old self.old.node }
    {
        match &mut self.share {
            PendingShare::Node0(share) => books.book_0.audit(share),
            PendingShare::Node1(share) => books.book_1.audit(share),
            PendingShare::Node2(share) => books.book_2.audit(share),
            PendingShare::Node3(share) => books.book_3.audit(share),
            PendingShare::Node4(share) => books.book_4.audit(share),
            PendingShare::Node5(share) => books.book_5.audit(share),
            PendingShare::Node6(share) => books.book_6.audit(share),
            PendingShare::Node7(share) => books.book_7.audit(share),
        }
    }

    /// Opens the node's opening action again, if nothing was pending.
    pub fn open_again(&mut self, books: &mut PendingBooks<K>)
        ensures share { self.new ≡ record { node = self.old.node; amount = self.old.amount + 1 } }
        ensures known { self.old.node < length books.old }
        ensures told { self.old.amount ≡ slice_index books.old self.old.node }
        ensures books { books.new ≡ slice_set books.old self.old.node (slice_index books.old self.old.node + 1) }
    {
        self.audit(books);
        match &mut self.share {
            PendingShare::Node0(share) => books.book_0.add(share, 1),
            PendingShare::Node1(share) => books.book_1.add(share, 1),
            PendingShare::Node2(share) => books.book_2.add(share, 1),
            PendingShare::Node3(share) => books.book_3.add(share, 1),
            PendingShare::Node4(share) => books.book_4.add(share, 1),
            PendingShare::Node5(share) => books.book_5.add(share, 1),
            PendingShare::Node6(share) => books.book_6.add(share, 1),
            PendingShare::Node7(share) => books.book_7.add(share, 1),
        }
    }

    /// Changes the share and its book by the effect of a step of the node.
    pub fn follow(&mut self, books: &mut PendingBooks<K>, step: &Step)
        requires active { IsFalse (is_recv step.now) → 0 < self.old.amount }
        ensures share { self.new ≡ record { node = self.old.node; amount = pending_after step.now self.old.amount } }
        ensures books { books.new ≡ slice_set books.old self.old.node (pending_after step.now (slice_index books.old self.old.node)) }
    {
        match &mut self.share {
            PendingShare::Node0(share) => follow_one(&mut books.book_0, share, step),
            PendingShare::Node1(share) => follow_one(&mut books.book_1, share, step),
            PendingShare::Node2(share) => follow_one(&mut books.book_2, share, step),
            PendingShare::Node3(share) => follow_one(&mut books.book_3, share, step),
            PendingShare::Node4(share) => follow_one(&mut books.book_4, share, step),
            PendingShare::Node5(share) => follow_one(&mut books.book_5, share, step),
            PendingShare::Node6(share) => follow_one(&mut books.book_6, share, step),
            PendingShare::Node7(share) => follow_one(&mut books.book_7, share, step),
        }
    }
}

/// Changes a share that is its whole ledger, and its book, by the effect of a step on a pending number.
fn follow_one<L: Ledger>(book: &mut Book<L>, share: &mut Share<L>, step: &Step)
    requires whole { (share.old.parts ≡ 1) × (L.parts ≡ 1) }
    requires active { IsFalse (is_recv step.now) → 0 < share.old.amount }
    ensures book { book.new.total ≡ pending_after step.now book.old.total }
    ensures amount { share.new.amount ≡ pending_after step.now share.old.amount }
    ensures parts { share.new.parts ≡ share.old.parts }
{
    match step {
        Step::Insert(..) | Step::ActionOpen(..) | Step::Recv(..) => book.add(share, 1),
        Step::Done(..) | Step::ActionClose(..) | Step::Ready(..) | Step::MessageEnd(..) => book.sub(
            share, 1,
        ),
        _ => book.audit(share),
    }
}

/// The first share of each pending ledger.
#[derive(Drop)]
pub struct FirstPending<K: Ledgers> {
    pub node_0: PendingOf<K>,
    pub node_1: PendingOf<K>,
    pub node_2: PendingOf<K>,
    pub node_3: PendingOf<K>,
    pub node_4: PendingOf<K>,
    pub node_5: PendingOf<K>,
    pub node_6: PendingOf<K>,
    pub node_7: PendingOf<K>,
    ghost low: { (node_0 ≡ first_pending 0) × (node_1 ≡ first_pending 1) × (node_2 ≡ first_pending 2) × (node_3 ≡ first_pending 3) },
    ghost high: { (node_4 ≡ first_pending 4) × (node_5 ≡ first_pending 5) × (node_6 ≡ first_pending 6) × (node_7 ≡ first_pending 7) },
}

/// New ledgers of pending numbers, which have no names yet.
#[derive(Drop)]
pub struct PendingBlanks {
    blank_0: Blank,
    blank_1: Blank,
    blank_2: Blank,
    blank_3: Blank,
    blank_4: Blank,
    blank_5: Blank,
    blank_6: Blank,
    blank_7: Blank,
}

impl Model for PendingBlanks {
    ghost use Rattle.std.specs.Prelude.{◌≡◌, ℕ, List, [], ◌∷◌};

    ghost Value = { List ℕ };

    ghost view = { λ b. b.blank_0.name ∷ b.blank_1.name ∷ b.blank_2.name ∷ b.blank_3.name ∷ b.blank_4.name ∷ b.blank_5.name ∷ b.blank_6.name
        ∷ b.blank_7.name ∷ [] };

    ghost invariant = { λ b. (b.blank_0.parts ≡ 1) × (b.blank_1.parts ≡ 1) × (b.blank_2.parts ≡ 1) × (b.blank_3.parts ≡ 1)
        × (b.blank_4.parts ≡ 1) × (b.blank_5.parts ≡ 1) × (b.blank_6.parts ≡ 1) × (b.blank_7.parts ≡ 1) };
}

impl PendingBlanks {
    /// Returns new ledgers of pending numbers, one for each of eight nodes.
    pub fn new() -> PendingBlanks {
        PendingBlanks {
            blank_0: Blank::new(1),
            blank_1: Blank::new(1),
            blank_2: Blank::new(1),
            blank_3: Blank::new(1),
            blank_4: Blank::new(1),
            blank_5: Blank::new(1),
            blank_6: Blank::new(1),
            blank_7: Blank::new(1),
        }
    }

    /// Opens the pending ledgers, with each node's opening action pending.
    pub fn open<K: Ledgers>(self) -> (PendingBooks<K>, FirstPending<K>)
        requires { self ≡ K.names.pending }
        ensures { result.0 ≡ 1 ∷ 1 ∷ 1 ∷ 1 ∷ 1 ∷ 1 ∷ 1 ∷ 1 ∷ [] }
    {
        let PendingBlanks {
            blank_0,
            blank_1,
            blank_2,
            blank_3,
            blank_4,
            blank_5,
            blank_6,
            blank_7,
        } = self;
        let (book_0, node_0) = open_one::<K, 0>(blank_0);
        let (book_1, node_1) = open_one::<K, 1>(blank_1);
        let (book_2, node_2) = open_one::<K, 2>(blank_2);
        let (book_3, node_3) = open_one::<K, 3>(blank_3);
        let (book_4, node_4) = open_one::<K, 4>(blank_4);
        let (book_5, node_5) = open_one::<K, 5>(blank_5);
        let (book_6, node_6) = open_one::<K, 6>(blank_6);
        let (book_7, node_7) = open_one::<K, 7>(blank_7);
        let books = PendingBooks {
            book_0,
            book_1,
            book_2,
            book_3,
            book_4,
            book_5,
            book_6,
            book_7,
        };
        let shares = FirstPending {
            node_0: PendingOf {
                share: PendingShare::Node0(node_0),
            },
            node_1: PendingOf {
                share: PendingShare::Node1(node_1),
            },
            node_2: PendingOf {
                share: PendingShare::Node2(node_2),
            },
            node_3: PendingOf {
                share: PendingShare::Node3(node_3),
            },
            node_4: PendingOf {
                share: PendingShare::Node4(node_4),
            },
            node_5: PendingOf {
                share: PendingShare::Node5(node_5),
            },
            node_6: PendingOf {
                share: PendingShare::Node6(node_6),
            },
            node_7: PendingOf {
                share: PendingShare::Node7(node_7),
            },
        };
        (books, shares)
    }
}

/// Opens one node's pending ledger, with its opening action pending.
fn open_one<K: Ledgers, const NODE: u32>(
    blank: Blank,
) -> (Book<Pending<K, NODE>>, Share<Pending<K, NODE>>)
    requires { (blank.name ≡ pending_name K.names NODE) × (blank.parts ≡ 1) }
    ensures book { result.0.total ≡ 1 }
    ensures share { (result.1.parts ≡ 1) × (result.1.amount ≡ 1) }
{
    let (mut book, mut share) = blank.open::<Pending<K, NODE>>();
    book.add(&mut share, 1);
    (book, share)
}
