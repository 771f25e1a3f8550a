//! How a thread waits for a lock that another thread holds: exponential backoff, naps, and then std's own wait.
use std::hint::spin_loop;
use std::sync::{Mutex, MutexGuard, Wait};
use std::thread::Parker;
use std::time::Duration;

/// How often a contended lock is retried, each time after a backoff, before the thread blocks. A lock is mostly free
/// before that, and blocking and being woken costs more. docs/measurements/experiments.md has the measurements.
const TRIES: u32 = 12;

/// The first backoff, in spins. Each further one is twice as long: a retry takes the cache line away from the thread
/// that holds the lock, and with it the data next to the lock.
const FIRST_SPINS: u32 = 32;

/// The first backoff for a leaf lock, in spins. Its critical sections have some ten instructions.
const FIRST_SPINS_AT_LEAF: u32 = 4;

/// The longest backoff, in spins. Until it is reached, a backoff is as long as all before it together and one first
/// backoff.
const MOST_SPINS: u32 = 1024;

/// The most naps of a worker that waits for its node's lock, before it blocks.
const NAPS: u32 = 36;

/// The length of a nap, in microseconds.
const NAP: u64 = 50;

/// Acquires a lock. If it is contended, the thread retries it with exponential backoff, and then blocks as std does. It
/// does not yield: a yielding thread would wait for all others that want its processor, and many of them would keep the
/// processor from the thread that holds the lock.
#[inline(always)]
pub(crate) fn lock_with_backoff<'l, T, R: Wait>(rt: &R, lock: &'l Mutex<T>) -> MutexGuard<'l, T> {
    match lock.try_lock() {
        Some(guard) => guard,
        None => lock_contended(rt, lock),
    }
}

/// Acquires a leaf lock, like `lock_with_backoff` with a short first backoff.
#[inline(always)]
pub(crate) fn lock_leaf<'l, T, R: Wait>(rt: &R, lock: &'l Mutex<T>) -> MutexGuard<'l, T> {
    match lock.try_lock() {
        Some(guard) => guard,
        None => lock_after_backoff(rt, lock, FIRST_SPINS_AT_LEAF),
    }
}

/// Acquires a lock that was contended.
pub(crate) fn lock_contended<'l, T, R: Wait>(rt: &R, lock: &'l Mutex<T>) -> MutexGuard<'l, T> {
    lock_after_backoff(rt, lock, FIRST_SPINS)
}

#[cold]
#[inline(never)]
fn lock_after_backoff<'l, T, R: Wait>(
    rt: &R,
    lock: &'l Mutex<T>,
    first_spins: u32,
) -> MutexGuard<'l, T> {
    match retry(lock, first_spins) {
        Some(guard) => guard,
        None => lock.lock(rt),
    }
}

/// Acquires a lock that was contended, with naps before the thread blocks. If the lock is not free after all backoffs,
/// several threads want it all the time. If one of them naps, the others have enough to do, and no thread has to wake
/// it.
#[cold]
#[inline(never)]
pub(crate) fn lock_between_naps<'l, T, R: Wait>(rt: &R, lock: &'l Mutex<T>) -> MutexGuard<'l, T> {
    if let Some(guard) = retry(lock, FIRST_SPINS) {
        return guard;
    }
    // No thread unparks it, so each nap ends when its time is over.
    let parker = Parker::new();
    for _ in 0..NAPS {
        parker.park_timeout(rt, Duration::from_micros(NAP));
        if let Some(guard) = lock.try_lock() {
            return guard;
        }
    }
    lock.lock(rt)
}

/// Retries a contended lock with exponential backoff, from this many spins on.
#[inline(always)]
fn retry<T>(lock: &Mutex<T>, first_spins: u32) -> Option<MutexGuard<'_, T>> {
    let mut spins = first_spins;
    for _ in 0..TRIES {
        for _ in 0..spins {
            spin_loop();
        }
        if let Some(guard) = lock.try_lock() {
            return Some(guard);
        }
        spins = spins.saturating_mul(2).min(MOST_SPINS);
    }
    None
}
