//! The board of a pool: its history, the books of its ledgers, and its wave, which one lock protects. The lock itself
//! is in another crate.
#![tactic(auto)]

mod accounts;
mod board;
mod books;
mod control;
mod counts;
mod ended;
mod event_log;
mod judgement;
mod names;
mod opening;
mod pending;
mod reopened_ledgers;
mod reopening;
mod routes;
mod shares;
mod turn;

pub use accounts::Accounts;
pub use board::Board;
pub use books::{Books, Totals, close_books, open_books};
pub use ended::Ended;
pub use judgement::Judgement;
pub use names::{Brand, Done, Judged, Ledgers, Pending, Received, Sent, Under};
pub use opening::{Blanks, Opened};
pub use reopened_ledgers::Fresh;
pub use shares::{LinkShare, Parts, Shares};
pub use turn::{Turn, make_first};
