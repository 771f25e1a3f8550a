//! How a value stores its numbers.
use std::sync::Arc;

/// The numbers of a value. A single number is stored in place; more are in memory that all copies share.
#[derive(Drop)]
pub(crate) enum Numbers {
    Empty,
    Lone(i64),
    Shared(Arc<Vec<i64>>),
}
