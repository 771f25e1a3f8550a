//! The state of one process in one epoch, as it is stored, and its calls: its counters, and the progress of the newest
//! wave.

ghost use Rattle.std.specs.{Prelude.{◌≡◌, ◌+◌, ◌&&◌, nat_lt, not, OnErr}, Result.result_err};
ghost use Rattle.tp_process.specs.Calls.{acts, control, due, ends, is_down_due, is_due, is_miscounted, judges, left_of, moved};
ghost use Rattle.tp_process.specs.Calls.{next_result, notifies, opens, ready, right_of, takes, took, visits, take_refusal};
ghost use Rattle.tp_process.specs.{Epochs.has_notified, State.{is_set, new_state, read_state}, declared.epoch_state.TheConstants.LIMIT};

use crate::control_message::{ControlMessage, Token};
use crate::outcome::{Next, Refusal};

/// The upper bound on the pieces of work that are open, on the messages sent and on the messages received, for one
/// process in one epoch.
pub(crate) const LIMIT: u64 = 1 << 43;

/// What one process knows in one epoch. The processes form a binary tree: the children of process i are 2i + 1 and
/// 2i + 2.
///
/// A flag is a byte, which is set if it is not 0: a C program may write any byte to it.
#[derive(Clone, Copy, Debug, Default, PartialEq, Eq)]
#[repr(C)]
pub struct StoredState {
    pub(crate) number: u32,
    pub(crate) processes: u32,
    pub(crate) pending: u64,
    pub(crate) sent: u64,
    pub(crate) received: u64,
    /// The number of the newest wave that came here.
    pub(crate) wave: u64,
    /// What the children reported in it.
    taken_sent: u64,
    taken_received: u64,
    /// At process 0: the number of messages that the previous wave counted as received, and whether there was one
    /// (`known`).
    last_received: u64,
    known: u8,
    /// The newest wave is here: the process has not passed it up.
    here: u8,
    /// To which children the wave still has to go down.
    down_left: u8,
    down_right: u8,
    /// Which children have not reported.
    up_left: u8,
    up_right: u8,
    /// The process knows the end; and the children that it still has to notify.
    pub(crate) over: u8,
    over_left: u8,
    over_right: u8,
}

impl StoredState {
    /// Returns process `number` of `processes` at the beginning of an epoch: one piece of work is open.
    pub fn new(number: u32, processes: u32) -> StoredState
        ensures { result ≡ new_state number processes }
    {
        StoredState {
            number,
            processes,
            pending: 1,
            ..StoredState::default()
        }
    }

    /// Takes a control message.
    ///
    /// Refused: `Mismatched` if its sender has another number of processes; `NotDue` if it is for another process or of
    /// another wave, or was taken before, or if a sum would overflow.
    #[inline(always)]
    pub fn take(&mut self, message: ControlMessage) -> Result<(), Refusal>
        ensures refused { result_err result ≡ take_refusal message (read_state self.old) }
        ensures state { read_state self.new ≡ took message (read_state self.old) }
        ensures kept { OnErr result (self.new ≡ self.old) }
    {
        if message.processes != self.processes {
            return Err(Refusal::Mismatched);
        }
        if message.to != self.number as u64 {
            return Err(Refusal::NotDue);
        }
        match message.token {
            Token::Down => {
                if self.here != 0 || self.wave.checked_add(1) != Some(message.wave) {
                    return Err(Refusal::NotDue);
                }
                self.visit(message.wave);
                Ok(())
            }
            Token::Up(sent, received) => self.take_up(message.from, message.wave, sent, received),
            Token::Over => {
                if self.over != 0 {
                    return Err(Refusal::NotDue);
                }
                self.end();
                Ok(())
            }
        }
    }

    #[inline(always)]
    fn take_up(&mut self, from: u64, wave: u64, sent: u64, received: u64) -> Result<(), Refusal>
        ensures refused { result_err result ≡ due (is_due from wave (Token.Up sent received) (read_state self.old)) }
        ensures state { read_state self.new ≡ takes from wave (Token.Up sent received) (read_state self.old) }
        ensures kept { OnErr result (self.new ≡ self.old) }
    {
        if self.here == 0 || wave != self.wave {
            return Err(Refusal::NotDue);
        }
        let Some(all_sent) = self.taken_sent.checked_add(sent) else {
            return Err(Refusal::NotDue);
        };
        let Some(all_received) = self.taken_received.checked_add(received) else {
            return Err(Refusal::NotDue);
        };
        if self.up_left != 0 && from == self.left() {
            self.up_left = 0;
        } else if self.up_right != 0 && from == self.right() {
            self.up_right = 0;
        } else {
            return Err(Refusal::NotDue);
        }
        self.taken_sent = all_sent;
        self.taken_received = all_received;
        Ok(())
    }

    /// Returns whether the process knows the end and has notified its children.
    pub fn has_notified(&self) -> bool
        ensures { result ≡ has_notified (read_state self.now) }
    {
        self.over != 0 && self.over_left == 0 && self.over_right == 0
    }

    /// Returns what the process has to do next, and records that it does it.
    ///
    /// Refused: `Miscounted` if process 0 judges a wave that no right count gives.
    #[inline(always)]
    pub fn next(&mut self) -> Result<Next, Refusal>
        ensures next { result ≡ next_result (read_state self.old) }
        ensures state { read_state self.new ≡ (moved (read_state self.old)).state }
        ensures kept { OnErr result (self.new ≡ self.old) }
    {
        if self.is_miscounted() {
            return Err(Refusal::Miscounted);
        }
        Ok(self.act())
    }

    #[inline(always)]
    fn is_miscounted(&self) -> bool
        ensures { result ≡ is_miscounted (read_state self.now) }
    {
        if self.number != 0 || self.over != 0 || self.known == 0 || self.pending != 0 {
            return false;
        }
        if self.here != 0 {
            if self.down_left != 0
                || self.down_right != 0
                || self.up_left != 0
                || self.up_right != 0
            {
                return false;
            }
            return is_below(self.taken_sent, self.sent, self.last_received);
        }
        self.left() >= self.processes as u64 && self.sent < self.last_received
    }

    #[inline(always)]
    fn act(&mut self) -> Next
        ensures state { read_state self.new ≡ (acts (ready (read_state self.old))).state }
        ensures next { result ≡ (acts (ready (read_state self.old))).next }
    {
        if self.over != 0 {
            return self.notify();
        }
        if self.here == 0 {
            // Process 0, if it is idle, starts the next wave.
            if self.number != 0 || self.pending != 0 {
                return Next::Nothing;
            }
            let Some(wave) = self.wave.checked_add(1) else {
                return Next::Nothing;
            };
            self.visit(wave);
        }
        self.pass()
    }

    /// Passes on the newest wave, which is here: down to the children and, when they have reported, up with what this
    /// process and all below it have counted. Process 0 judges the wave instead.
    #[inline(always)]
    fn pass(&mut self) -> Next
        ensures state { read_state self.new ≡ (visits (read_state self.old)).state }
        ensures next { result ≡ (visits (read_state self.old)).next }
    {
        if self.down_left != 0 {
            self.down_left = 0;
            return Next::Send(self.control(self.left(), Token::Down));
        }
        if self.down_right != 0 {
            self.down_right = 0;
            return Next::Send(self.control(self.right(), Token::Down));
        }
        if self.up_left != 0 || self.up_right != 0 || self.pending > 0 {
            return Next::Nothing;
        }
        let Some(sent) = self.taken_sent.checked_add(self.sent) else {
            return Next::Nothing;
        };
        let Some(received) = self.taken_received.checked_add(self.received) else {
            return Next::Nothing;
        };
        if self.number == 0 {
            return self.judge(sent, received);
        }
        self.here = 0;
        Next::Send(self.control((self.number as u64 - 1) / 2, Token::Up(sent, received)))
    }

    /// Returns the notification of the next child of the end, or `Ended` if all were notified.
    fn notify(&mut self) -> Next
        ensures state { read_state self.new ≡ (notifies (read_state self.old)).state }
        ensures next { result ≡ (notifies (read_state self.old)).next }
    {
        if self.over_left != 0 {
            self.over_left = 0;
            return Next::Send(self.control(self.left(), Token::Over));
        }
        if self.over_right != 0 {
            self.over_right = 0;
            return Next::Send(self.control(self.right(), Token::Over));
        }
        Next::Ended
    }

    #[inline(always)]
    fn judge(&mut self, sent: u64, received: u64) -> Next
        requires sent { sent ≡ (read_state self.old).taken_sent + (read_state self.old).sent }
        requires received { received ≡ (read_state self.old).taken_received + (read_state self.old).received }
        ensures state { read_state self.new ≡ (judges (read_state self.old)).state }
        ensures next { result ≡ (judges (read_state self.old)).next }
    {
        if self.known != 0 && self.last_received == sent {
            self.end();
        } else {
            self.here = 0;
            self.known = 1;
            self.last_received = received;
        }
        Next::Again
    }

    /// Records that the process knows the end.
    fn end(&mut self)
        ensures { read_state self.new ≡ ends (read_state self.old) }
    {
        self.over = 1;
        self.over_left = flag(self.left() < self.processes as u64);
        self.over_right = flag(self.right() < self.processes as u64);
    }

    /// Records that a wave comes here.
    #[inline(always)]
    fn visit(&mut self, wave: u64)
        ensures { read_state self.new ≡ opens wave (read_state self.old) }
    {
        self.wave = wave;
        self.here = 1;
        self.taken_sent = 0;
        self.taken_received = 0;
        // Half of the processes are leaves. With this branch, the compiler stores a leaf's four bytes at once.
        if self.left() < self.processes as u64 {
            let has_right = flag(self.right() < self.processes as u64);
            self.down_left = 1;
            self.down_right = has_right;
            self.up_left = 1;
            self.up_right = has_right;
        } else {
            self.down_left = 0;
            self.down_right = 0;
            self.up_left = 0;
            self.up_right = 0;
        }
    }

    fn left(&self) -> u64
        ensures { result ≡ left_of (read_state self.now) }
    {
        2 * self.number as u64 + 1
    }

    fn right(&self) -> u64
        ensures { result ≡ right_of (read_state self.now) }
    {
        2 * self.number as u64 + 2
    }

    fn control(&self, to: u64, token: Token) -> ControlMessage
        ensures { result ≡ control (read_state self.now) to token }
    {
        ControlMessage {
            from: self.number as u64,
            to,
            wave: self.wave,
            processes: self.processes,
            token,
        }
    }
}

/// Returns the byte of a flag.
fn flag(set: bool) -> u8
    ensures { is_set result ≡ set }
{
    if set { 1 } else { 0 }
}

/// Returns whether both numbers are below the limit: as it is a power of two, one comparison is enough.
pub(crate) fn are_below_limit(first: u64, second: u64) -> bool
    ensures { result ≡ nat_lt first LIMIT && nat_lt second LIMIT }
{
    (first | second) < LIMIT
}

/// Returns whether a sum is below a bound.
fn is_below(first: u64, second: u64, bound: u64) -> bool
    ensures { result ≡ nat_lt (first + second) bound }
{
    match first.checked_add(second) {
        Some(sum) => sum < bound,
        None => false,
    }
}
