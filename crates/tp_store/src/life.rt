//! The life of a task, from waiting to done, and the counts of tasks by life.
ghost use Rattle.std.specs.Prelude.{◌≡◌, ◌+◌, ◌≤◌};
ghost use Rattle.tp_store.specs.{Content.{life_lacking, supplied, is_waiting, is_ready, is_running}, Kept.one};

use tp_base::MAX_LIVE_TASKS;

/// The life of a task. It goes from each of these to the next, and never back.
#[derive(Clone, Copy, Debug, PartialEq, Eq)]
pub enum Life {
    /// It waits for this many inputs, at least one.
    Waiting(u8),
    /// It has all its inputs, and is in the ready queue of its class.
    Ready,
    /// It has begun, and its inputs were moved out.
    Running,
    /// It has its result.
    Done,
}

impl Life {
    /// Returns the life of a task that lacks `count` inputs.
    #[tactic(auto, using(crate::proofs::Changes::ready_life, crate::proofs::Changes::waiting_life))]
    pub(crate) fn lacking(count: u8) -> Life
        ensures { result ≡ life_lacking count }
    {
        if count == 0 {
            Life::Ready
        } else {
            Life::Waiting(count)
        }
    }

    /// Returns the life after one more input.
    pub(crate) fn supplied(self) -> Life
        ensures { result ≡ supplied self }
    {
        match self {
            Life::Waiting(count) => Life::lacking(count.saturating_sub(1)),
            life => life,
        }
    }
}

/// The effect of a delivery.
#[derive(Clone, Copy, Debug, PartialEq, Eq)]
pub enum Delivered {
    /// It inserted the task, which waits for this many more inputs.
    Inserted(u8),
    /// It filled a slot of a waiting task.
    Filled,
}

/// The numbers of tasks that wait, are ready, and run.
#[derive(Clone, Copy, Debug, PartialEq, Eq)]
pub struct Counts {
    /// Tasks that wait for an input.
    pub waiting: u32,
    /// Tasks that have all their inputs.
    pub ready: u32,
    /// Tasks that have begun and are not done.
    pub running: u32,
}

// Returns how much a task adds to the three counts, if there is one.
#[inline(always)]
fn shares(life: Option<Life>) -> (u32, u32, u32)
    ensures waiting { result.0 ≡ one is_waiting life }
    ensures ready { result.1 ≡ one is_ready life }
    ensures running { result.2 ≡ one is_running life }
{
    match life {
        Some(Life::Waiting(_)) => (1, 0, 0),
        Some(Life::Ready) => (0, 1, 0),
        Some(Life::Running) => (0, 0, 1),
        Some(Life::Done) | None => (0, 0, 0),
    }
}

impl Counts {
    ghost use Rattle.tp_store.specs.Kept.{moved_counts, IsCounted};

    /// Returns the number of tasks that are not done.
    #[inline(always)]
    pub(crate) fn live(&self) -> u32
        requires { self.now.waiting + self.now.ready + self.now.running ≤ MAX_LIVE_TASKS }
        ensures { result ≡ self.now.waiting + self.now.ready + self.now.running }
    {
        self.waiting + self.ready + self.running
    }

    /// Counts a task that goes from one life to another; a new task had none.
    #[inline(always)]
    pub(crate) fn moved(&mut self, was: Option<Life>, life: Life)
        requires { IsCounted was self.old }
        ensures { self.new ≡ moved_counts self.old was life }
    {
        let less = shares(was);
        let more = shares(Some(life));
        self.waiting = self.waiting + more.0 - less.0;
        self.ready = self.ready + more.1 - less.1;
        self.running = self.running + more.2 - less.2;
    }
}
