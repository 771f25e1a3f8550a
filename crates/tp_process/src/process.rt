//! The process that a program owns: the detector's state in the present epoch, the number of the epoch, and a mark that
//! says whether it is open. Any bytes are a valid `Process`, and every call is defined for them.

ghost use Rattle.std.specs.{Prelude.{◌≡◌, ◌&&◌, None, OnErr, nat_lt, if◌then◌else◌}, Result.result_err};
ghost use Rattle.tp_process.specs.Calls.{close_refusal, closed, moved, open_refusal, opened, receive_refusal, send_refusal, sent};
ghost use Rattle.tp_process.specs.{Calls.take_refusal, Epochs.{with_state, of_epoch, received_in, reopen_refusal, reopened, took_in}};
ghost use Rattle.tp_process.specs.{Opening.{checked, checked_in, if_open, is_open, new_process, next_of, unopened}, State.read};
ghost use Rattle.tp_process.specs.declared.outcome.Refusal.TheVariants.{NotYet, Late};

use crate::control_message::ControlMessage;
use crate::epoch_state::{LIMIT, StoredState, are_below_limit};
use crate::outcome::{Next, Refusal};

/// The value of `mark` in an open process: `gerf` in ASCII. It has 31 bits, so a compiler compares it in one instruction.
pub(crate) const MARK: u64 = 0x6765_7266;

/// One process of a distributed program, as the detector sees it: 96 bytes of plain data.
///
/// It begins in epoch 0, with one piece of work open. After the end of an epoch, `reopen` begins the next one; a
/// program that terminates once can ignore epochs. A message that `count_sent` counted and a control message that
/// `next` returned belong to `epoch()`, and the transport carries that number with them. Termination is detected with
/// the four counter method of F. Mattern, "Algorithms for Distributed Termination Detection" (1987).
#[derive(Clone, Copy, Debug, PartialEq, Eq)]
#[repr(C)]
pub struct Process {
    mark: u64,
    epoch: u64,
    state: StoredState,
}

impl Process {
    /// Returns process `number` of `processes`, in epoch 0, with one piece of work open.
    ///
    /// Refused: `NoProcess` if `number` is not below `processes`; so `processes` is at least 1.
    pub fn new(number: u32, processes: u32) -> Result<Process, Refusal>
        ensures { result ≡ new_process number processes }
    {
        if number >= processes {
            return Err(Refusal::NoProcess);
        }
        Ok(Process {
            mark: MARK,
            epoch: 0,
            state: StoredState::new(number, processes),
        })
    }

    /// Returns a process that is not open: every call that changes a process refuses it. A place for a process holds it
    /// before `new`.
    pub fn unopened() -> Process
        ensures { result ≡ unopened }
    {
        Process {
            mark: 0,
            epoch: 0,
            state: StoredState::new(0, 0),
        }
    }

    /// Returns whether the process is open: its mark is the one that `new` sets.
    pub fn is_open(&self) -> bool
        ensures { result ≡ is_open (read self.now) }
    {
        self.mark == MARK
    }

    /// Returns the number of the present epoch, from 0.
    pub fn epoch(&self) -> u64
        ensures { result ≡ (read self.now).epoch }
    {
        self.epoch
    }

    /// Returns the number of pieces of work that are open here. The process is idle if it is 0.
    pub fn pending(&self) -> u64
        ensures { result ≡ (read self.now).state.pending }
    {
        self.state.pending
    }

    /// Returns the number of messages that were counted as sent in this epoch.
    pub fn sent(&self) -> u64
        ensures { result ≡ (read self.now).state.sent }
    {
        self.state.sent
    }

    /// Returns the number of messages that were counted as received in this epoch.
    pub fn received(&self) -> u64
        ensures { result ≡ (read self.now).state.received }
    {
        self.state.received
    }

    /// Returns the number of the newest wave that came here in this epoch, from 1; 0 before the first.
    pub fn wave(&self) -> u64
        ensures { result ≡ (read self.now).state.wave }
    {
        self.state.wave
    }

    /// Returns whether the process is open and knows that this epoch has terminated: no process has work, and no
    /// message is under way.
    pub fn is_over(&self) -> bool
        ensures { result ≡ is_open (read self.now) && (read self.now).state.over }
    {
        self.mark == MARK && self.state.over != 0
    }

    /// Opens one more piece of work.
    ///
    /// Refused: `NotOpen`; `Inactive` if no work is open; `Full` if 2^43 pieces are.
    pub fn add_work(&mut self) -> Result<(), Refusal>
        ensures refused { result_err result ≡ checked (read self.old) (open_refusal (read self.old).state) }
        ensures state { read self.new ≡ if_open (read self.old) (with_state (read self.old) (opened (read self.old).state)) }
        ensures kept { OnErr result (self.new ≡ self.old) }
    {
        self.check_open()?;
        let state = &mut self.state;
        if state.pending == 0 {
            return Err(Refusal::Inactive);
        }
        if state.pending >= LIMIT {
            return Err(Refusal::Full);
        }
        state.pending += 1;
        Ok(())
    }

    /// Closes a piece of work.
    ///
    /// Refused: `NotOpen`; `Inactive` if no work is open.
    pub fn finish_work(&mut self) -> Result<(), Refusal>
        ensures refused { result_err result ≡ checked (read self.old) (close_refusal (read self.old).state) }
        ensures state { read self.new ≡ if_open (read self.old) (with_state (read self.old) (closed (read self.old).state)) }
        ensures kept { OnErr result (self.new ≡ self.old) }
    {
        self.check_open()?;
        let state = &mut self.state;
        let Some(pending) = state.pending.checked_sub(1) else {
            return Err(Refusal::Inactive);
        };
        state.pending = pending;
        Ok(())
    }

    /// Counts a message as sent. Call it before the transport gets the message, and send the message with `epoch()`.
    ///
    /// Refused: `NotOpen`; `Inactive` if no work is open; `Full` if 2^43 messages were sent.
    pub fn count_sent(&mut self) -> Result<(), Refusal>
        ensures refused { result_err result ≡ checked (read self.old) (send_refusal (read self.old).state) }
        ensures state { read self.new ≡ if_open (read self.old) (with_state (read self.old) (sent (read self.old).state)) }
        ensures kept { OnErr result (self.new ≡ self.old) }
    {
        self.check_open()?;
        let state = &mut self.state;
        if state.pending == 0 {
            return Err(Refusal::Inactive);
        }
        if state.sent >= LIMIT {
            return Err(Refusal::Full);
        }
        state.sent += 1;
        Ok(())
    }

    /// Counts a message of an epoch as received, and opens the piece of work that it brings. Call it before the message
    /// has any effect, and `finish_work` after its last effect.
    ///
    /// Refused: `NotOpen`; `NotYet` if its epoch is later: keep the message, and count it again after `reopen`; `Late`
    /// if its epoch is older, which no counted message is; `Full` if 2^43 pieces of work are open, or 2^43 messages
    /// were received.
    pub fn count_received(&mut self, epoch: u64) -> Result<(), Refusal>
        ensures refused { result_err result ≡ checked_in epoch (read self.old) (receive_refusal (read self.old).state) }
        ensures state { read self.new ≡ if_open (read self.old) (received_in epoch (read self.old)) }
        ensures kept { OnErr result (self.new ≡ self.old) }
    {
        self.check_open()?;
        self.check_epoch(epoch)?;
        let state = &mut self.state;
        if !are_below_limit(state.pending, state.received) {
            return Err(Refusal::Full);
        }
        state.pending += 1;
        state.received += 1;
        Ok(())
    }

    /// The same call as `count_sent`, under its name in the monitor interface.
    pub fn outgoing_message_start(&mut self) -> Result<(), Refusal>
        ensures refused { result_err result ≡ checked (read self.old) (send_refusal (read self.old).state) }
        ensures state { read self.new ≡ if_open (read self.old) (with_state (read self.old) (sent (read self.old).state)) }
        ensures kept { OnErr result (self.new ≡ self.old) }
    {
        self.count_sent()
    }

    /// The same call as `count_received`, under its name in the monitor interface.
    pub fn incoming_message_start(&mut self, epoch: u64) -> Result<(), Refusal>
        ensures refused { result_err result ≡ checked_in epoch (read self.old) (receive_refusal (read self.old).state) }
        ensures state { read self.new ≡ if_open (read self.old) (received_in epoch (read self.old)) }
        ensures kept { OnErr result (self.new ≡ self.old) }
    {
        self.count_received(epoch)
    }

    /// The same call as `finish_work`, under its name in the monitor interface: it closes the piece of work that the
    /// message opened.
    pub fn incoming_message_end(&mut self) -> Result<(), Refusal>
        ensures refused { result_err result ≡ checked (read self.old) (close_refusal (read self.old).state) }
        ensures state { read self.new ≡ if_open (read self.old) (with_state (read self.old) (closed (read self.old).state)) }
        ensures kept { OnErr result (self.new ≡ self.old) }
    {
        self.finish_work()
    }

    /// Takes a control message of an epoch. It may come in any order, late, or more than once.
    ///
    /// Refused: `NotOpen`; `NotYet` if its epoch is later: keep it, and take it again after `reopen`; `Late` if its
    /// epoch is older; `Mismatched` if its sender was opened with another number of processes; `NotDue` if it is for
    /// another process or of another wave, or was taken before, or if a sum would overflow.
    #[inline(always)]
    pub fn take(&mut self, epoch: u64, message: ControlMessage) -> Result<(), Refusal>
        ensures refused { result_err result ≡ checked_in epoch (read self.old) (take_refusal message (read self.old).state) }
        ensures state { read self.new ≡ if_open (read self.old) (took_in epoch message (read self.old)) }
        ensures kept { OnErr result (self.new ≡ self.old) }
    {
        self.check_open()?;
        self.check_epoch(epoch)?;
        self.state.take(message)
    }

    /// Returns what the process has to do next. Call it after every other call, until it returns `Ended` or `Nothing`.
    /// A control message that it returns belongs to `epoch()`.
    ///
    /// Refused: `NotOpen`; `Miscounted` at process 0 if the wave that it judges counts fewer messages as sent than the
    /// previous wave counted as received, which a right count excludes. Nothing changes, so the call is refused again.
    #[inline(always)]
    pub fn next(&mut self) -> Result<Next, Refusal>
        ensures next { result ≡ next_of (read self.old) }
        ensures state { read self.new ≡ if_open (read self.old) (with_state (read self.old) (moved (read self.old).state).state) }
        ensures kept { OnErr result (self.new ≡ self.old) }
    {
        self.check_open()?;
        self.state.next()
    }

    /// Begins the next epoch here, with one piece of work open. It waits for no other process.
    ///
    /// Refused: `NotOpen`; `NotEnded` if `next` does not return `Ended` yet; `Full` in epoch 2^64 - 1.
    pub fn reopen(&mut self) -> Result<(), Refusal>
        ensures refused { result_err result ≡ checked (read self.old) (reopen_refusal (read self.old)) }
        ensures state { read self.new ≡ if_open (read self.old) (reopened (read self.old)) }
        ensures kept { OnErr result (self.new ≡ self.old) }
    {
        self.check_open()?;
        if !self.state.has_notified() {
            return Err(Refusal::NotEnded);
        }
        let Some(epoch) = self.epoch.checked_add(1) else {
            return Err(Refusal::Full);
        };
        self.epoch = epoch;
        self.state = StoredState::new(self.state.number, self.state.processes);
        Ok(())
    }

    fn check_open(&self) -> Result<(), Refusal>
        ensures { result_err result ≡ checked (read self.now) None }
    {
        if self.mark == MARK {
            Ok(())
        } else {
            Err(Refusal::NotOpen)
        }
    }

    fn check_epoch(&self, epoch: u64) -> Result<(), Refusal>
        ensures { result_err result ≡ of_epoch epoch (read self.now) None }
    {
        if epoch == self.epoch {
            Ok(())
        } else {
            Err(self.other_epoch(epoch))
        }
    }

    /// Returns why a message of another epoch is refused. Out of line, so that a call that is not refused is shorter.
    #[cold]
    #[inline(never)]
    fn other_epoch(&self, epoch: u64) -> Refusal
        ensures { result ≡ if nat_lt (read self.now).epoch epoch then NotYet else Late }
    {
        if epoch > self.epoch {
            Refusal::NotYet
        } else {
            Refusal::Late
        }
    }
}

const _: () = prove!(size_of::<Process>() == 96);
