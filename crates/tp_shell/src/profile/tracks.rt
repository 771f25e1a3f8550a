//! The tracks of a node, on each of which one body runs after the other.
use std::alloc::{AllocError, Global};

/// The tracks: when the last body on each of them ended. There are no more than bodies that ran at the same time.
#[derive(Drop)]
pub(crate) struct Tracks {
    ends: Vec<u64>,
}

impl Tracks {
    pub(crate) fn new(alloc: Global) -> Tracks {
        Tracks {
            ends: Vec::new(alloc),
        }
    }

    pub(crate) fn len(&self) -> usize {
        self.ends.len()
    }

    /// Returns the first track that is free when a body begins, and takes it until the body ends. Bodies come in the
    /// order in which they begin.
    pub(crate) fn take(&mut self, begin: u64, end: u64) -> Result<usize, AllocError> {
        for (track, last) in self.ends.iter_mut().enumerate() {
            if *last <= begin {
                *last = end;
                return Ok(track);
            }
        }
        let track = self.ends.len();
        self.ends.push(end)?;
        Ok(track)
    }
}
