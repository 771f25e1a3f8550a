//! The books of a pool's ledgers, which are ghost state: the sums that the shares of nodes and links add up to.
ghost use Rattle.std.specs.{List.All, Prelude.{◌≡◌, ◌≤◌, ◌<◌, ◌+◌, ◌↔◌, IsFalse, IsTrue, map, vec_len}};
ghost use Rattle.tp_board.specs.{Books.{IsBooked, totals_after, with_judged, with_under}, Fresh.HasRoom, Names.under_parts};
ghost use Rattle.tp_board.specs.{Numbers.{is_done, is_recv, is_send, numbers_after, plus_if}, Reopening.{AllAre, AreFirst, begun_anew}};
ghost use Rattle.tp_wave.specs.Machine.{under_way_after};

use crate::ended::{Ended, Keeper};
use crate::names::{Done, Ledgers, Received, Sent, Under};
use crate::pending::PendingBooks;
use crate::reopened_ledgers::{Fresh, clear, open_each, share_out};
use crate::shares::{LinkShare, Parts, Shares};
use std::marker::Model;
use std::sync::ledger::{Book, Ledger, Share};
use tp_base::Step;

/// The books of a pool's ledgers, with the one share that stays with them. Contracts see their totals.
#[derive(Drop)]
pub struct Accounts<K: Ledgers> {
    pending: PendingBooks<K>,
    sent: Book<Sent<K>>,
    received: Book<Received<K>>,
    done: Book<Done<K>>,
    under: Book<Under<K>>,
    kept: Share<Under<K>>,
    keeper: Keeper<K>,
}

impl<K: Ledgers> Model for Accounts<K> {
    ghost use Rattle.std.specs.Prelude.{◌≡◌};
    ghost use Rattle.tp_board.specs.Books.{BookTotals};

    ghost Value = { BookTotals };

    ghost view = { λ a. record {
      pending = a.pending;
      sent = a.sent.total;
      received = a.received.total;
      done = a.done.total;
      under = a.under.total;
      judged = a.keeper;
    } };

    ghost invariant = { λ a. (a.kept.parts ≡ 1) × (a.kept.amount ≡ 0) };
}

impl<K: Ledgers> Accounts<K> {
    /// Returns the books of new ledgers.
    pub(crate) fn new(
        pending: PendingBooks<K>,
        sent: Book<Sent<K>>,
        received: Book<Received<K>>,
        done: Book<Done<K>>,
        under: Book<Under<K>>,
        kept: Share<Under<K>>,
        keeper: Keeper<K>,
    ) -> Accounts<K>
        requires { (kept.parts ≡ 1) × (kept.amount ≡ 0) }
        ensures { result
            ≡ record {
              pending = pending;
              sent = sent.total;
              received = received.total;
              done = done.total;
              under = under.total;
              judged = keeper;
            } }
    {
        Accounts {
            pending,
            sent,
            received,
            done,
            under,
            kept,
            keeper,
        }
    }

    /// Shows that a node's numbers agree with the books. Changes nothing.
    pub fn audit(&mut self, shares: &mut Shares<K>)
        ensures same { (self.new ≡ self.old) × (shares.new ≡ shares.old) }
        ensures told { IsBooked shares.old self.old }
        ensures node { shares.old.node < K.names.nodes }
    {
        shares.pending.audit(&mut self.pending);
        self.sent.audit(&mut shares.sent);
        self.received.audit(&mut shares.received);
        self.done.audit(&mut shares.done);
    }

    /// Shows that a link has no more messages in flight than all links together. Changes nothing.
    pub fn audit_link(&mut self, link: &mut LinkShare<K>)
        ensures same { (self.new ≡ self.old) × (link.new ≡ link.old) }
        ensures told { link.old.under ≤ self.old.under }
    {
        self.under.audit(&mut link.under);
    }

    /// Shows that a termination token was issued. Changes nothing.
    pub fn audit_ended(&mut self, ended: &mut Ended<K>)
        ensures same { self.new ≡ self.old }
        ensures told { 0 < self.old.judged }
    {
        self.keeper.audit(ended);
    }

    /// Changes a node's numbers and their books by the effect of a step of the node.
    pub fn follow(&mut self, step: &Step, shares: &mut Shares<K>)
        requires { IsFalse (is_recv step.now) → 0 < shares.old.pending }
        ensures told { IsBooked shares.old self.old }
        ensures node { shares.old.node < K.names.nodes }
        ensures books { self.new ≡ totals_after shares.old.node step.now self.old }
        ensures shares { shares.new ≡ numbers_after step.now shares.old }
    {
        self.audit(shares);
        shares.pending.follow(&mut self.pending, step);
        add_if(&mut self.sent, &mut shares.sent, sends(step));
        add_if(&mut self.received, &mut shares.received, receives(step));
        add_if(&mut self.done, &mut shares.done, ends_task(step));
    }

    /// Changes a link's number and its book by the effect of a step that sends or receives over the link.
    pub fn follow_link(&mut self, step: &Step, link: &mut LinkShare<K>)
        requires { IsTrue (is_recv step.now) → 0 < link.old.under }
        ensures told { link.old.under ≤ self.old.under }
        ensures books { self.new ≡ with_under (under_way_after step.now self.old.under) self.old }
        ensures link { link.new ≡ record link.old { under = under_way_after step.now link.old.under } }
    {
        self.audit_link(link);
        match step {
            Step::Send(..) => self.under.add(&mut link.under, 1),
            Step::Recv(..) => self.under.sub(&mut link.under, 1),
            _ => {}
        }
    }

    /// Issues the termination token.
    pub fn hand_out(&mut self) -> Ended<K>
        requires { self.old.judged ≡ 0 }
        ensures { self.new ≡ with_judged 1 self.old }
    {
        self.keeper.hand_out()
    }

    /// Returns whether the termination token was issued.
    pub fn is_ended(&self) -> bool
        ensures out { IsTrue result ↔ (self.now.judged ≡ 1) }
        ensures one { self.now.judged ≤ 1 }
    {
        self.keeper.is_out()
    }

    /// Returns the share of no link.
    pub fn no_links(&mut self) -> Share<Under<K>>
        ensures same { self.new ≡ self.old }
        ensures none { (result.parts ≡ 0) × (result.amount ≡ 0) }
    {
        self.kept.empty()
    }

    /// Resets the books to those of new ledgers, if nothing is pending and the caller has the shares of all nodes.
    /// Takes the termination token back.
    pub fn reopen(
        &mut self,
        shares: Vec<Shares<K>>,
        fresh: Fresh<K>,
        totals: (u32, u32, u32),
        ended: Ended<K>,
    ) -> Vec<Shares<K>>
        requires all { (vec_len shares ≡ K.names.nodes) × (0 < K.names.nodes) }
        requires idle { All (λ s. s.pending ≡ 0) shares.items }
        requires none { AllAre K.names.nodes 0 self.old.pending }
        requires totals { (totals.0 ≡ self.old.sent) × (totals.1 ≡ self.old.received) × (totals.2 ≡ self.old.done) }
        requires fresh { HasRoom K.names.nodes fresh }
        ensures shares { result.items ≡ map begun_anew shares.items }
        ensures books { AreFirst K.names.nodes self.new }
        ensures under { self.new.under ≡ self.old.under }
    {
        let Fresh {
            mut pendings,
            shares: mut anew,
        } = fresh;
        let Some(mut parts) = open_each(&mut self.pending, shares, &mut pendings) else {
            unreachable!()
        };
        clear(&mut self.sent, &mut parts.sent, totals.0);
        clear(&mut self.received, &mut parts.received, totals.1);
        clear(&mut self.done, &mut parts.done, totals.2);
        self.keeper.take_back(ended);
        share_out(pendings, parts, &mut anew);
        anew
    }

    /// Shows that all shares add up to the books.
    pub fn close(self, parts: Parts<K>, under: Share<Under<K>>)
        requires nodes { parts.parts ≡ K.names.nodes }
        requires links { under.parts + 1 ≡ under_parts K.names.nodes }
        ensures sent { parts.sent ≡ self.sent }
        ensures received { parts.received ≡ self.received }
        ensures done { parts.done ≡ self.done }
        ensures under { under.amount ≡ self.under }
    {
        let Accounts {
            pending: _,
            sent: mut sent_book,
            received: mut received_book,
            done: mut done_book,
            under: mut under_book,
            kept,
            keeper: _,
        } = self;
        let Parts {
            mut sent,
            mut received,
            mut done,
        } = parts;
        let mut under = under;
        under.merge(kept);
        sent_book.audit(&mut sent);
        received_book.audit(&mut received);
        done_book.audit(&mut done);
        under_book.audit(&mut under);
    }
}

/// Adds one to a share and its book, or nothing.
fn add_if<L: Ledger>(book: &mut Book<L>, share: &mut Share<L>, more: bool)
    requires { 0 < share.old.parts }
    ensures book { book.new.total ≡ plus_if more book.old.total }
    ensures amount { share.new.amount ≡ plus_if more share.old.amount }
    ensures parts { share.new.parts ≡ share.old.parts }
{
    if more {
        book.add(share, 1);
    }
}

fn sends(step: &Step) -> bool
    ensures { result ≡ is_send step.now }
{
    matches!(step, Step::Send(..))
}

fn receives(step: &Step) -> bool
    ensures { result ≡ is_recv step.now }
{
    matches!(step, Step::Recv(..))
}

fn ends_task(step: &Step) -> bool
    ensures { result ≡ is_done step.now }
{
    matches!(step, Step::Done(..))
}
