//! One process of the program: its detector, the tasks that wait here, and its loop.

use crate::tree::Task;
use crossbeam_channel::{Receiver, Sender};
use std::alloc::{AllocError, AllocFailed, Global};
use std::sync::{Mutex, Wait};
use std::time::{Clock, Duration};
use tp_process::{ControlMessage, Next, Process, Refusal};

/// The number of epochs that each process runs.
const EPOCHS: u64 = 3;

/// The time in milliseconds that a process waits for a message before it checks whether another one failed.
const PAUSE: u64 = 20;

/// The content of a message between processes.
#[derive(Clone, Copy, Debug)]
pub enum Content {
    /// A counted message: a task that runs at the receiver.
    Task(Task),
    /// A control message of the detector.
    Control(ControlMessage),
}

/// A message, with the epoch of its sender when it was sent.
#[derive(Clone, Copy, Debug)]
pub struct Message {
    epoch: u64,
    pub content: Content,
}

/// The channel to one process.
#[derive(Drop)]
pub struct Mailbox {
    pub sender: Sender<Message>,
    pub receiver: Receiver<Message>,
}

/// Why a process gave up.
#[derive(Clone, Copy, Debug, PartialEq, Eq)]
pub enum Fault {
    /// The detector refused a call.
    Refused(Refusal),
    /// Out of memory, or a thread could not be started.
    NoMemory,
    /// There is no mailbox for the number of a process.
    NoMailbox,
    /// Another process gave up.
    Stopped,
}

impl From<AllocError> for Fault {
    fn from(_error: AllocError) -> Fault {
        Fault::NoMemory
    }
}

impl<T: Drop> From<AllocFailed<T>> for Fault {
    fn from(_error: AllocFailed<T>) -> Fault {
        Fault::NoMemory
    }
}

impl From<Refusal> for Fault {
    fn from(refusal: Refusal) -> Fault {
        Fault::Refused(refusal)
    }
}

/// Totals of what processes have done in all epochs.
#[derive(Clone, Copy, Debug, Default, PartialEq, Eq)]
pub struct Totals {
    pub tasks: u64,
    pub checksum: u64,
    /// Counted messages.
    pub sent: u64,
    pub received: u64,
}

impl Totals {
    /// Returns the totals of both.
    pub fn plus(self, other: Totals) -> Totals {
        Totals {
            tasks: self.tasks.saturating_add(other.tasks),
            checksum: self.checksum.wrapping_add(other.checksum),
            sent: self.sent.saturating_add(other.sent),
            received: self.received.saturating_add(other.received),
        }
    }
}

/// A process.
#[derive(Drop)]
pub struct Member<'a, R> {
    rt: &'a R,
    number: u32,
    processes: u32,
    mailboxes: &'a [Mailbox],
    /// A process has given up.
    has_failed: &'a Mutex<bool>,
    process: Process,
    waiting: Vec<Task>,
    /// Messages of the next epoch.
    kept: Vec<Message>,
    totals: Totals,
}

impl<'a, R: Wait + Clock> Member<'a, R> {
    /// Returns process `number` of `processes`, each of which has a mailbox.
    ///
    /// Refused: `Refused(NoProcess)` if `number` is not below `processes`.
    pub fn new(
        rt: &'a R,
        alloc: Global,
        number: u32,
        processes: u32,
        mailboxes: &'a [Mailbox],
        has_failed: &'a Mutex<bool>,
    ) -> Result<Self, Fault> {
        Ok(Member {
            rt,
            number,
            processes,
            mailboxes,
            has_failed,
            process: Process::new(number, processes)?,
            waiting: Vec::new(alloc),
            kept: Vec::new(alloc),
            totals: Totals::default(),
        })
    }

    /// Runs all epochs. If that fails, the other processes stop too.
    pub fn run(mut self) -> Result<Totals, Fault> {
        let ended = self.run_epochs();
        if ended.is_err() {
            *self.has_failed.lock(self.rt) = true;
        }
        ended?;
        Ok(self.totals)
    }

    fn run_epochs(&mut self) -> Result<(), Fault> {
        self.run_epoch()?;
        for _ in 1..EPOCHS {
            self.process.reopen()?;
            self.receive_kept()?;
            self.run_epoch()?;
        }
        Ok(())
    }

    /// Runs this epoch until the detector reports that it has terminated.
    fn run_epoch(&mut self) -> Result<(), Fault> {
        let rt = self.rt;
        if self.number == 0 {
            let root = Task::root(self.process.epoch());
            self.make_task(root)?;
        }
        // The detector counts the beginning of an epoch as a piece of work, which is done now.
        self.process.finish_work()?;
        for _ in rt.forever() {
            match self.process.next()? {
                Next::Send(message) => self.send(message.to, Content::Control(message))?,
                Next::Ended => break,
                Next::Again => self.proceed(false)?,
                Next::Nothing => self.proceed(true)?,
            }
        }
        self.totals.sent = self.totals.sent.saturating_add(self.process.sent());
        self.totals.received = self.totals.received.saturating_add(self.process.received());
        Ok(())
    }

    /// Receives a message, or runs a task. If there is neither and `may_wait` is set, waits for a message for a short
    /// time.
    fn proceed(&mut self, may_wait: bool) -> Result<(), Fault> {
        if *self.has_failed.lock(self.rt) {
            return Err(Fault::Stopped);
        }
        let mailbox = find_mailbox(self.mailboxes, u64::from(self.number))?;
        if let Ok(message) = mailbox.receiver.try_recv(self.rt) {
            return self.receive(message);
        }
        if let Some(task) = self.waiting.pop() {
            return self.run_task(task);
        }
        if !may_wait {
            return Ok(());
        }
        match mailbox
            .receiver
            .recv_timeout(self.rt, Duration::from_millis(PAUSE))
        {
            Ok(message) => self.receive(message),
            Err(_) => Ok(()),
        }
    }

    /// Receives a message: a task is added to those that wait, and the detector takes a control message. A message of
    /// the next epoch is kept.
    fn receive(&mut self, message: Message) -> Result<(), Fault> {
        match message.content {
            Content::Task(task) => match self.process.count_received(message.epoch) {
                Ok(()) => self.waiting.push(task)?,
                Err(Refusal::NotYet) => self.kept.push(message)?,
                Err(refusal) => return Err(Fault::Refused(refusal)),
            },
            Content::Control(control) => {
                if self.process.take(message.epoch, control) == Err(Refusal::NotYet) {
                    self.kept.push(message)?;
                }
            }
        }
        Ok(())
    }

    fn receive_kept(&mut self) -> Result<(), Fault> {
        let none = Vec::new(*self.kept.allocator());
        for message in std::mem::replace(&mut self.kept, none) {
            self.receive(message)?;
        }
        Ok(())
    }

    /// Runs a task: creates its children, and then closes its piece of work.
    fn run_task(&mut self, task: Task) -> Result<(), Fault> {
        self.totals.tasks = self.totals.tasks.saturating_add(1);
        self.totals.checksum = self.totals.checksum.wrapping_add(task.result());
        for number in 0..task.children() {
            self.make_task(task.child(number))?;
        }
        self.process.finish_work()?;
        Ok(())
    }

    /// Adds a task to those that wait here, or sends it to the process where it runs.
    fn make_task(&mut self, task: Task) -> Result<(), Fault> {
        let home = task.home(self.processes);
        if home == u64::from(self.number) {
            self.process.add_work()?;
            self.waiting.push(task)?;
            return Ok(());
        }
        self.process.count_sent()?;
        self.send(home, Content::Task(task))
    }

    fn send(&self, to: u64, content: Content) -> Result<(), Fault> {
        let message = Message {
            epoch: self.process.epoch(),
            content,
        };
        let sent = find_mailbox(self.mailboxes, to)?
            .sender
            .send(self.rt, message);
        sent.map_err(|_| Fault::NoMemory)
    }
}

fn find_mailbox(mailboxes: &[Mailbox], number: u64) -> Result<&Mailbox, Fault> {
    let place = usize::try_from(number).map_err(|_| Fault::NoMailbox)?;
    mailboxes.get(place).ok_or(Fault::NoMailbox)
}
