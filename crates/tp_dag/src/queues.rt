//! Queues of tasks that became ready, one for each class, first in, first out. The pool checks each task before it dispatches it, so of these
//! calls only that for room has a contract.
ghost use Rattle.std.specs.{Prelude.{◌+◌, ◌≤◌, ◌<◌, OnOk}, Vec.{vec_capacity, vec_len}};

use crate::tasks::{Tasks, may_begin};
use std::alloc::{AllocError, Global};

const NONE: u32 = u32::MAX;

/// A queue for each class, as a chain through `next`: a task is in one queue at most.
#[derive(Drop)]
pub(crate) struct Queues {
    first: [u32; 4],
    last: [u32; 4],
    // the task behind each task
    next: Vec<u32>,
}

impl Queues {
    pub(crate) fn new(alloc: Global) -> Queues {
        Queues {
            first: [NONE; 4],
            last: [NONE; 4],
            next: Vec::new(alloc),
        }
    }

    /// Makes room for more tasks.
    pub(crate) fn reserve(&mut self, tasks: usize) -> Result<(), AllocError>
        ensures { OnOk result (vec_len self.new.next + tasks ≤ vec_capacity self.new.next) }
    {
        self.next.reserve(tasks)
    }

    /// Adds a task, which is in no queue, and for which room was made.
    #[inline]
    pub(crate) fn add_task(&mut self)
        requires { vec_len self.old.next < vec_capacity self.old.next }
    {
        self.next.push_reserved(NONE);
    }

    /// Appends each task that lacks nothing to the queue of its class.
    pub(crate) fn push_ready(&mut self, tasks: &Tasks) {
        for number in 0..tasks.len() as u32 {
            let task = tasks.at(number);
            self.push_if(task.class, number, may_begin(task));
        }
    }

    /// Appends a task to the queue of its class, if `wanted`.
    #[inline]
    pub(crate) fn push_if(&mut self, class: u8, task: u32, wanted: bool) {
        if !wanted {
            return;
        }
        let Some(last) = self.last.get_mut(class as usize) else {
            return;
        };
        if let Some(next) = self.next.get_mut(*last as usize) {
            *next = task;
        } else if let Some(first) = self.first.get_mut(class as usize) {
            *first = task;
        }
        *last = task;
    }

    /// Removes the first task of a class; a number that no task has if there is none.
    #[inline]
    pub(crate) fn pop(&mut self, class: u8) -> u32 {
        let Some(first) = self.first.get_mut(class as usize) else {
            return NONE;
        };
        let Some(last) = self.last.get_mut(class as usize) else {
            return NONE;
        };
        let task = *first;
        if task == *last {
            *first = NONE;
            *last = NONE;
        } else if let Some(next) = self.next.get(task as usize) {
            *first = *next;
        }
        task
    }

    /// Empties the queues; the tasks stay.
    pub(crate) fn clear(&mut self) {
        self.first = [NONE; 4];
        self.last = [NONE; 4];
    }
}
