//! The result of a judgement.
use crate::{Ended, Ledgers};

/// The result of judging a wave.
#[derive(Drop)]
pub enum Judgement<K: Ledgers> {
    /// Termination was not detected.
    Not,
    /// Termination was detected.
    Over(Ended<K>),
}
