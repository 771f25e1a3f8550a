//! The progress of a run, which has a lock of its own.
use crate::backoff::lock_leaf;
use std::sync::{Condvar, Mutex, Wait};
use std::time::Duration;

/// How long the thread that shows the progress sleeps between two lines, in milliseconds.
const REST: u64 = 500;

/// What a run has to do.
#[derive(Clone, Copy, Debug, PartialEq, Eq)]
pub struct Plan {
    /// The number of tasks of a step.
    pub tasks: u64,
    /// The number of steps.
    pub steps: u64,
    /// The number of steps of a part. Parts run one after the other; the last may have fewer steps.
    pub part: u64,
}

impl Plan {
    /// Returns the plan of `tasks` tasks in one part.
    pub fn of_tasks(tasks: u64) -> Self {
        Plan {
            tasks,
            steps: 1,
            part: 1,
        }
    }
}

/// The progress of a run: its plan, and how many of its tasks are done. Its lock is a leaf. No contract depends on these
/// numbers.
#[derive(Drop)]
pub struct Progress {
    state: Mutex<State>,
    /// Where the thread that shows the progress sleeps until the run has ended.
    ended: Condvar,
}

/// What the lock of a progress protects.
#[derive(Drop)]
struct State {
    plan: Plan,
    done: u64,
    has_ended: bool,
}

impl Progress {
    /// Returns the progress of a run without a plan.
    pub const fn new() -> Self {
        Progress {
            state: Mutex::new(State {
                plan: Plan {
                    tasks: 0,
                    steps: 0,
                    part: 0,
                },
                done: 0,
                has_ended: false,
            }),
            ended: Condvar::new(),
        }
    }

    /// Sets the plan of the run.
    pub fn begin<R: Wait>(&self, rt: &R, plan: Plan) {
        lock_leaf(rt, &self.state).plan = plan;
    }

    /// Counts one more task as done.
    #[inline]
    pub fn count<R: Wait>(&self, rt: &R) {
        let mut state = lock_leaf(rt, &self.state);
        state.done = state.done.saturating_add(1);
    }

    /// Records that the run has ended.
    pub(crate) fn end<R: Wait>(&self, rt: &R) {
        lock_leaf(rt, &self.state).has_ended = true;
        self.ended.notify_all();
    }

    /// Sleeps until the run has ended, or for half a second. Returns whether it has ended.
    pub(crate) fn rest<R: Wait>(&self, rt: &R) -> bool {
        let state = lock_leaf(rt, &self.state);
        if state.has_ended {
            return true;
        }
        let notifications = self.ended.notifications();
        drop(state);
        self.ended
            .sleep(rt, notifications, Duration::from_millis(REST));
        lock_leaf(rt, &self.state).has_ended
    }

    /// Returns the plan of the run, which is empty if none was set.
    pub fn plan<R: Wait>(&self, rt: &R) -> Plan {
        lock_leaf(rt, &self.state).plan
    }

    /// Returns the number of tasks done.
    pub fn done<R: Wait>(&self, rt: &R) -> u64 {
        lock_leaf(rt, &self.state).done
    }
}
