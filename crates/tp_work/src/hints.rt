//! The hints of a node: what its idle workers poll without the node's lock, and where they sleep.
use crate::backoff::lock_leaf;
use crate::node_set::NodeSet;
use std::sync::{Condvar, Mutex, MutexGuard, Wait};
use std::time::Duration;
use tp_base::NodeId;

/// The longest sleep of a worker, in milliseconds.
const LONGEST_SLEEP: u64 = 10;

/// The hints of a node, under a lock of their own, and the condition on which its idle workers sleep. The lock is a
/// leaf: a thread that holds it acquires no other lock, and blocks only in the sleep that releases it. Each sleep has a
/// limit, so a lost wake-up costs time and nothing else. No contract depends on hints, sleeps and wake-ups.
#[derive(Drop)]
pub(crate) struct NodeHints {
    hints: Mutex<Hints>,
    is_wanted: Condvar,
}

/// What the workers of a node see without the node's lock.
#[derive(Drop)]
struct Hints {
    /// The nodes that have sent messages since a worker of this node last took this set.
    senders: NodeSet,
    /// Whether a task waits for a worker, or a message of a sender that was taken. It is kept up only at nodes with
    /// several workers.
    has_waiting: bool,
    /// The number of control steps that may have enabled one here: those of the node, of its parent and of its children
    /// in the tree of the waves.
    control_steps: u64,
    /// The number of workers that sleep.
    sleepers: u32,
    /// Whether a worker was woken, and none has got up since.
    is_woken: bool,
    /// Whether a fault was set, or termination was announced to each node.
    is_stopped: bool,
}

impl Hints {
    /// Returns whether a turn may find something to do, for a worker that last tried a control step after
    /// `control_steps` of them.
    #[inline(always)]
    fn show_work(&self, control_steps: Option<u64>) -> bool {
        self.has_waiting
            || !self.senders.is_empty()
            || self.is_stopped
            || control_steps != Some(self.control_steps)
    }

    /// Returns whether to wake a sleeper: if at least `least` workers sleep, and none was woken that has not got up.
    #[inline(always)]
    fn mark_woken(&mut self, least: u32) -> bool {
        if self.sleepers == 0 || self.sleepers < least || self.is_woken {
            return false;
        }
        self.is_woken = true;
        true
    }
}

impl NodeHints {
    /// Returns the hints of a node at which nothing waits and no worker sleeps.
    pub const fn new() -> Self {
        NodeHints {
            hints: Mutex::new(Hints {
                senders: NodeSet::new(),
                has_waiting: false,
                control_steps: 0,
                sleepers: 0,
                is_woken: false,
                is_stopped: false,
            }),
            is_wanted: Condvar::new(),
        }
    }

    /// Moves the nodes that have sent messages to `senders`.
    #[inline(always)]
    pub fn take_senders<R: Wait>(&self, rt: &R, senders: &mut NodeSet) {
        let mut hints = lock_leaf(rt, &self.hints);
        senders.take_all(&mut hints.senders);
    }

    /// Adds a node that has sent messages, and wakes a worker if at least `least` of them sleep.
    pub fn add_sender<R: Wait>(&self, rt: &R, from: NodeId, least: u32) {
        let mut hints = lock_leaf(rt, &self.hints);
        hints.senders.add(from);
        let wakes = hints.mark_woken(least);
        drop(hints);
        if wakes {
            self.notify();
        }
    }

    /// Stores whether work waits for a worker. If it does and at least `least` workers sleep, marks one of them as
    /// woken. Returns the number of sleepers, and whether the caller has to notify one.
    pub fn store_waiting<R: Wait>(&self, rt: &R, has_waiting: bool, least: u32) -> (u32, bool) {
        let mut hints = lock_leaf(rt, &self.hints);
        hints.has_waiting = has_waiting;
        let wakes = has_waiting && hints.mark_woken(least);
        (hints.sleepers, wakes)
    }

    /// Wakes a worker, if work waits and at least `least` workers sleep.
    pub fn wake_for_work<R: Wait>(&self, rt: &R, least: u32) {
        let mut hints = lock_leaf(rt, &self.hints);
        let wakes = (hints.has_waiting || !hints.senders.is_empty()) && hints.mark_woken(least);
        drop(hints);
        if wakes {
            self.notify();
        }
    }

    /// Returns the number of control steps that may have enabled one here.
    pub fn control_steps<R: Wait>(&self, rt: &R) -> u64 {
        lock_leaf(rt, &self.hints).control_steps
    }

    /// Counts a control step that may have enabled one here, and wakes a worker if at least `least` workers sleep.
    pub fn add_control_step<R: Wait>(&self, rt: &R, least: u32) {
        let mut hints = lock_leaf(rt, &self.hints);
        hints.control_steps = hints.control_steps.wrapping_add(1);
        let wakes = hints.mark_woken(least);
        drop(hints);
        if wakes {
            self.notify();
        }
    }

    /// Records that the pool has stopped, and wakes all workers.
    pub fn stop<R: Wait>(&self, rt: &R) {
        lock_leaf(rt, &self.hints).is_stopped = true;
        self.is_wanted.notify_all();
    }

    /// Wakes a worker that was marked as woken.
    pub fn notify(&self) {
        self.is_wanted.notify_one();
    }

    /// Returns whether the hints show something that a turn may do: a stop, a task that waits, a message, or a control
    /// step since the worker last tried one. It does not wait for a thread that holds them.
    #[inline(always)]
    pub fn poll(&self, control_steps: Option<u64>) -> bool {
        match self.hints.try_lock() {
            Some(hints) => hints.show_work(control_steps),
            None => false,
        }
    }

    /// Sleeps after `idle` idle turns in a row for `idle` milliseconds, at most 10, or until the node wakes the worker.
    /// Returns at once if the hints show something to do: the worker registers in the critical section in which it
    /// reads them, so no wake-up falls in between.
    pub fn sleep<R: Wait>(&self, rt: &R, control_steps: Option<u64>, idle: u32) {
        let hints = lock_leaf(rt, &self.hints);
        if !hints.show_work(control_steps) {
            self.sleep_with(rt, hints, idle);
        }
    }

    /// Sleeps until the node wakes the worker, at most for the longest time of a sleep, unless the pool has stopped.
    pub fn sleep_at_start<R: Wait>(&self, rt: &R) {
        let hints = lock_leaf(rt, &self.hints);
        if !hints.is_stopped {
            self.sleep_with(rt, hints, u32::MAX);
        }
    }

    /// Registers a sleeper, and sleeps as `Condvar::wait_timeout` does. That one also asks a clock whether the time is
    /// over, which is of no use here.
    fn sleep_with<R: Wait>(&self, rt: &R, hints: MutexGuard<'_, Hints>, idle: u32) {
        let mut hints = hints;
        hints.sleepers = hints.sleepers.saturating_add(1);
        let notifications = self.is_wanted.notifications();
        drop(hints);
        let limit = Duration::from_millis((idle as u64).min(LONGEST_SLEEP));
        self.is_wanted.sleep(rt, notifications, limit);
        let mut hints = lock_leaf(rt, &self.hints);
        hints.sleepers = hints.sleepers.saturating_sub(1);
        hints.is_woken = false;
    }
}

/// What the workers of a node know about its hints, under the node's lock. It spares them the lock of the hints.
#[derive(Drop)]
pub(crate) struct KnownHints {
    /// Whether a fault was set, or termination was announced to each node.
    pub is_stopped: bool,
    /// The nodes on whose links to this one there may be messages.
    pub senders: NodeSet,
    /// Whether work waits for a worker, as the hints say.
    has_waiting: bool,
    /// The number of workers that slept when that was stored. While work waits, no further worker goes to sleep.
    sleepers: u32,
}

impl KnownHints {
    /// Returns what is known about new hints.
    pub const fn new() -> Self {
        KnownHints {
            is_stopped: false,
            senders: NodeSet::new(),
            has_waiting: false,
            sleepers: 0,
        }
    }

    /// Returns whether the hints say already whether work waits, and if it does, no worker sleeps. Spare workers sleep
    /// at first even while work waits, so that no worker sleeps is not known if there are some.
    #[inline(always)]
    pub fn are_stored(&self, has_waiting: bool, has_spares: bool) -> bool {
        self.has_waiting == has_waiting && (!has_waiting || self.sleepers == 0 && !has_spares)
    }

    /// Notes what was stored, and how many workers slept then.
    pub fn note_stored(&mut self, has_waiting: bool, sleepers: u32) {
        self.has_waiting = has_waiting;
        self.sleepers = sleepers;
    }
}
