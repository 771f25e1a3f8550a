//! The log of a run: which body ran when. The threads that run bodies write it under one lock.
use std::alloc::{AllocError, Global};
use std::rt::Clock;
use std::sync::{Mutex, Wait};
use std::time::Duration;

/// The most bodies that a log keeps. The events of one run suffice for fewer.
const MOST: u64 = 350_000;

/// The times of the newest bodies of a run, in nanoseconds since the log was made.
#[derive(Drop)]
pub struct Log {
    start: Duration,
    /// One lock suffices: it is held for one write, and a node's own locks are held for longer.
    ring: Mutex<Ring>,
}

/// The newest bodies, each at its number modulo the number of places.
#[derive(Drop)]
struct Ring {
    bodies: Vec<Body>,
    /// The number of all bodies that were recorded.
    count: u64,
}

/// A body that ran.
#[derive(Clone, Copy, Debug, PartialEq, Eq)]
pub(crate) struct Body {
    pub(crate) node: u32,
    pub(crate) task: u32,
    pub(crate) begin: u64,
    pub(crate) end: u64,
}

/// The bodies of a log.
#[derive(Drop)]
pub(crate) struct Bodies {
    /// The number of all bodies that were recorded.
    pub(crate) count: u64,
    /// Those that were kept, in the order in which they began.
    pub(crate) kept: Vec<Body>,
}

impl Body {
    /// Returns how long it ran.
    pub(crate) fn length(&self) -> u64 {
        self.end.saturating_sub(self.begin)
    }
}

impl Log {
    /// Returns a log for a run of this many bodies, whose time begins now. If there are more than 350,000, it keeps the
    /// newest of them.
    pub(crate) fn new<C: Clock>(alloc: Global, clock: &C, bodies: u64) -> Result<Log, AllocError> {
        let ring = Ring::new(alloc, bodies.min(MOST))?;
        Ok(Log {
            start: clock.monotonic().unwrap_or(Duration::ZERO),
            ring: Mutex::new(ring),
        })
    }

    /// Returns the nanoseconds since the log was made, and 0 if the clock cannot be read.
    #[inline]
    pub fn now<C: Clock>(&self, clock: &C) -> u64 {
        match clock.monotonic() {
            Ok(time) => nanoseconds(time.saturating_sub(self.start)),
            Err(_) => 0,
        }
    }

    /// Records that the body of a task has run at a node, and that it has ended now.
    #[inline]
    pub fn record<R: Clock + Wait>(&self, rt: &R, node: u32, task: u32, begin: u64) {
        let end = self.now(rt).max(begin);
        self.ring.lock(rt).push(Body {
            node,
            task,
            begin,
            end,
        });
    }

    /// Returns what was recorded.
    pub(crate) fn bodies<R: Wait>(&self, rt: &R, alloc: Global) -> Result<Bodies, AllocError> {
        self.ring.lock(rt).bodies(alloc)
    }
}

impl Ring {
    fn new(alloc: Global, places: u64) -> Result<Ring, AllocError> {
        let mut bodies = Vec::new(alloc);
        for _ in 0..places {
            bodies.push(Body {
                node: 0,
                task: 0,
                begin: 0,
                end: 0,
            })?;
        }
        Ok(Ring { bodies, count: 0 })
    }

    /// Stores a body in the place of the oldest.
    #[inline]
    fn push(&mut self, body: Body) {
        let places = self.bodies.len() as u64;
        if places == 0 {
            return;
        }
        let place = self.count % places;
        if let Some(oldest) = self.bodies.get_mut(place as usize) {
            *oldest = body;
        }
        self.count = self.count.saturating_add(1);
    }

    fn bodies(&self, alloc: Global) -> Result<Bodies, AllocError> {
        let mut kept = Vec::new(alloc);
        for (place, body) in self.bodies.iter().enumerate() {
            if (place as u64) < self.count {
                kept.push(*body)?;
            }
        }
        kept.sort_unstable_by_key(|body| body.begin);
        Ok(Bodies {
            count: self.count,
            kept,
        })
    }
}

fn nanoseconds(time: Duration) -> u64 {
    let whole = time.as_secs().saturating_mul(1_000_000_000);
    whole.saturating_add(u64::from(time.subsec_nanos()))
}
