//! The tasks of a run: where they run, and the bars of those that are done.

use std::alloc::{AllocError, Global};
use tp_base::{NodeId, Step, Table, TaskId};

/// A task that began: in its node's lane, on one of the lane's tracks, at an event. Events are numbered from 0.
#[derive(Clone, Copy, Debug, PartialEq, Eq)]
pub struct Bar {
    pub task: TaskId,
    pub node: NodeId,
    pub track: u32,
    pub from: u32,
    /// The event at which it was done.
    pub to: Option<u32>,
}

/// The tasks of the steps so far.
#[derive(Drop)]
pub struct Tracks {
    // the node of each task of the present generation
    homes: Table<NodeId>,
    /// The number of tracks of each node's lane.
    pub rows: [u32; 8],
    /// How many tasks run at each node.
    pub counts: [u32; 8],
    /// The tasks that were begun and not done.
    pub running: Vec<Bar>,
    /// The tasks that were done.
    pub bars: Vec<Bar>,
}

impl Tracks {
    pub(crate) fn new(alloc: Global) -> Tracks {
        Tracks {
            homes: Table::new(alloc),
            rows: [0; 8],
            counts: [0; 8],
            running: Vec::new(alloc),
            bars: Vec::new(alloc),
        }
    }

    pub(crate) fn take(&mut self, step: Step, event: u32) -> Result<(), AllocError> {
        match step {
            Step::Insert(home, task, _) => self.homes.insert(task.0, home),
            Step::Begin(task) => self.begin(task, event),
            Step::Done(task) => self.done(task, event),
            Step::Reopen => {
                self.homes.clear();
                Ok(())
            }
            _ => Ok(()),
        }
    }

    /// The node of a task of the present generation.
    pub(crate) fn home(&self, task: TaskId) -> NodeId {
        self.homes.get(task.0).unwrap_or(NodeId(0))
    }

    /// A task begins, on the first track of its lane that is free.
    fn begin(&mut self, task: TaskId, from: u32) -> Result<(), AllocError> {
        let node = self.home(task);
        // (before this event at most as many tasks began)
        let track = free_track(&self.running, node, from);
        if let Some(rows) = self.rows.get_mut(node.0 as usize) {
            *rows = (*rows).max(track.saturating_add(1));
        }
        if let Some(count) = self.counts.get_mut(node.0 as usize) {
            *count = count.saturating_add(1);
        }
        self.running.push(Bar {
            task,
            node,
            track,
            from,
            to: None,
        })?;
        Ok(())
    }

    fn done(&mut self, task: TaskId, event: u32) -> Result<(), AllocError> {
        let Some(place) = self.running.iter().position(|bar| bar.task.0 == task.0) else {
            return Ok(());
        };
        let mut bar = self.running.remove(place);
        bar.to = Some(event);
        if let Some(count) = self.counts.get_mut(bar.node.0 as usize) {
            *count = count.saturating_sub(1);
        }
        self.bars.push(bar)?;
        Ok(())
    }
}

/// The first of a lane's tracks on which no task runs, or `most`.
fn free_track(running: &[Bar], node: NodeId, most: u32) -> u32 {
    for track in 0..most {
        if !is_taken(running, node, track) {
            return track;
        }
    }
    most
}

fn is_taken(running: &[Bar], node: NodeId, track: u32) -> bool {
    running
        .iter()
        .any(|bar| bar.node.0 == node.0 && bar.track == track)
}
