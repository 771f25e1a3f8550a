//! The termination token and its keeper. Each generation has at most one token.
ghost use Rattle.std.specs.Prelude.{◌≡◌, ◌≤◌, ◌<◌, ◌↔◌, IsTrue};

use crate::names::{Judged, Ledgers};
use std::marker::Model;
use std::sync::ledger::{Blank, Book, Share};

/// The termination token: evidence that the end of the pool's present generation was detected. A board issues one in
/// each generation. It cannot be cloned, and it is given back when the pool is reopened.
#[derive(Drop)]
pub struct Ended<K: Ledgers> {
    share: Share<Judged<K>>,
    ghost one: { (share.parts ≡ 1) × (share.amount ≡ 1) },
}

/// The keeper of the one termination token. Contracts see how many are issued.
#[derive(Drop)]
pub(crate) struct Keeper<K: Ledgers> {
    book: Book<Judged<K>>,
    token: Option<Share<Judged<K>>>,
}

impl<K: Ledgers> Model for Keeper<K> {
    ghost use Rattle.std.specs.Prelude.{◌≡◌, ℕ, MatchOption};

    ghost Value = { ℕ };

    ghost view = { λ k. k.book.total };

    ghost invariant = { λ k. MatchOption k.token (k.book.total ≡ 1) (λ s. (s.parts ≡ 1) × (s.amount ≡ 0) × (k.book.total ≡ 0)) };
}

impl<K: Ledgers> Keeper<K> {
    /// Returns the keeper of a token that was not issued.
    pub fn open(blank: Blank) -> Keeper<K>
        requires { (blank.name ≡ K.names.judged) × (blank.parts ≡ 1) }
        ensures { result ≡ 0 }
    {
        let (book, share) = blank.open::<Judged<K>>();
        Keeper {
            book,
            token: Some(share),
        }
    }

    /// Returns whether the token was issued.
    pub fn is_out(&self) -> bool
        ensures out { IsTrue result ↔ (self.now ≡ 1) }
        ensures one { self.now ≤ 1 }
    {
        self.token.is_none()
    }

    /// Issues the token.
    pub fn hand_out(&mut self) -> Ended<K>
        requires { self.old ≡ 0 }
        ensures { self.new ≡ 1 }
    {
        let Some(mut share) = self.token.take() else {
            unreachable!()
        };
        self.book.add(&mut share, 1);
        Ended { share }
    }

    /// Takes the token back.
    pub fn take_back(&mut self, ended: Ended<K>)
        ensures told { self.old ≡ 1 }
        ensures back { self.new ≡ 0 }
    {
        let Ended { mut share } = ended;
        self.book.sub(&mut share, 1);
        self.token = Some(share);
    }

    /// Shows that the token was issued. Changes nothing.
    pub fn audit(&mut self, ended: &mut Ended<K>)
        ensures same { self.new ≡ self.old }
        ensures told { 0 < self.old }
    {
        self.book.audit(&mut ended.share);
    }
}
