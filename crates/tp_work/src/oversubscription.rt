//! Oversubscription: how many workers of a pool are awake, if it has more workers than the machine has processors.
use crate::backoff::lock_leaf;
use std::sync::{Mutex, Wait};

/// The workers of a pool, compared with the processors. If all processors have a worker that is awake, waking another
/// one takes a processor from one of them, perhaps from the worker that holds a lock. No contract depends on it.
#[derive(Drop)]
pub(crate) struct Oversubscription {
    /// The number of workers at each node.
    workers: u32,
    /// The number of workers beyond one for each processor.
    surplus: u32,
    /// The number of workers that sleep, or are about to. It is counted only if there is a surplus. The lock is a leaf.
    sleepers: Mutex<u32>,
}

impl Oversubscription {
    /// Returns that of a pool with `workers` workers at each node, `surplus` of them beyond one for each processor. All
    /// are awake.
    pub const fn new(workers: u32, surplus: u32) -> Self {
        Oversubscription {
            workers,
            surplus,
            sleepers: Mutex::new(0),
        }
    }

    /// Returns whether there are more workers than processors.
    #[inline(always)]
    pub fn has_surplus(&self) -> bool {
        self.surplus > 0
    }

    /// Counts a worker that is about to sleep.
    pub fn add_sleeper<R: Wait>(&self, rt: &R) {
        if self.has_surplus() {
            let mut sleepers = lock_leaf(rt, &self.sleepers);
            *sleepers = sleepers.saturating_add(1);
        }
    }

    /// Counts a worker that has slept.
    pub fn remove_sleeper<R: Wait>(&self, rt: &R) {
        if self.has_surplus() {
            let mut sleepers = lock_leaf(rt, &self.sleepers);
            *sleepers = sleepers.saturating_sub(1);
        }
    }

    /// Returns how many workers of a node have to sleep so that one of them is woken: 1 if fewer workers are awake than
    /// there are processors, and otherwise all of the node.
    #[inline(always)]
    pub fn least_sleepers(&self) -> u32 {
        if self.has_surplus() && !self.has_free_processor() {
            return self.workers;
        }
        1
    }

    /// Returns whether fewer workers are awake than there are processors. If another thread counts just now, it does
    /// not wait for it, and takes the processors for busy.
    #[cold]
    #[inline(never)]
    fn has_free_processor(&self) -> bool {
        match self.sleepers.try_lock() {
            Some(sleepers) => *sleepers > self.surplus,
            None => false,
        }
    }
}
