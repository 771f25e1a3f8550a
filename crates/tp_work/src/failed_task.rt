//! The task of a run whose body failed first.
use crate::backoff::lock_leaf;
use std::sync::{Mutex, Wait};
use tp_base::TaskId;

/// The task whose body failed first, if one did. Its lock is a leaf. No contract depends on it.
#[derive(Drop)]
pub(crate) struct FailedTask {
    task: Mutex<Option<TaskId>>,
}

impl FailedTask {
    pub const fn new() -> Self {
        FailedTask {
            task: Mutex::new(None),
        }
    }

    /// Notes a task whose body failed, unless one was noted before.
    pub fn note<R: Wait>(&self, rt: &R, task: TaskId) {
        let mut first = lock_leaf(rt, &self.task);
        if first.is_none() {
            *first = Some(task);
        }
    }

    /// Returns the task that was noted first, if one was.
    pub fn into_task(self) -> Option<TaskId> {
        let FailedTask { task } = self;
        task.into_inner()
    }
}
