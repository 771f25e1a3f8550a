//! The exported functions on one process of a distributed program, which `gerfmuod/process.h` declares. A process
//! is plain data in the caller's memory.

ghost use Rattle.gerfmuod.specs.Wire.{after_event, after_init, after_taking, message_of, message_with, next_as, IsEvent, IsKept};
ghost use Rattle.gerfmuod.specs.Wire.{receipt_refused, refused_as, refused_by, taken_as, wire_after, close_refusal, closed, moved};
ghost use Rattle.gerfmuod.specs.Wire.{open_refusal, opened, send_refusal, sent, received_in, reopen_refusal, reopened, checked, if_open};
ghost use Rattle.gerfmuod.specs.Wire.{is_open, new_process, next_of, read, wire_of};
ghost use Rattle.std.specs.{Prelude.{◌≡◌, ◌≤◌, ◌⊎◌, ◌&&◌, true, Some}, Result.result_err};

use tp_process::{ControlMessage, Next, Process, Refusal, Token};

/// A control message as the transport carries it.
#[repr(C)]
#[derive(Clone, Copy, Debug, PartialEq, Eq)]
pub struct WireMessage {
    pub epoch: u64,
    pub from: u64,
    pub to: u64,
    pub wave: u64,
    /// 0: the wave goes down. 1: it comes back up, with sums. 2: termination was detected.
    pub token: u32,
    /// The number of processes, as the sender has it.
    pub processes: u32,
    /// If the token is 1, the number of messages that the sender and all processes below it had sent.
    pub sent: u64,
    /// If the token is 1, the number of messages that they had received.
    pub received: u64,
}

/// Returns the eight numbers of a control message of an epoch.
#[inline(always)]
fn wire_of(epoch: u64, message: ControlMessage) -> WireMessage
    ensures { result ≡ wire_of epoch message }
{
    let (token, sent, received) = match message.token {
        Token::Down => (0, 0, 0),
        Token::Up(sent, received) => (1, sent, received),
        Token::Over => (2, 0, 0),
    };
    WireMessage {
        epoch,
        from: message.from,
        to: message.to,
        wave: message.wave,
        token,
        processes: message.processes,
        sent,
        received,
    }
}

const _: () = prove!(size_of::<WireMessage>() == 56);

/// The refusal of a control message that has no such token. All refusals of processes are above 100, so they differ from
/// the results of `gerfmuod_process_next` and from the refusals of a core.
const MALFORMED: u32 = 109;

/// Opens process `number` of `processes`, in epoch 0 and with one piece of work open. Returns 0 or the refusal; if the
/// call is refused, the process is not open.
#[unsafe(no_mangle)]
pub extern "C" fn gerfmuod_process_init(process: &mut Process, number: u32, processes: u32) -> u32
    ensures refused { result ≡ refused_as (result_err (new_process number processes)) }
    ensures state { process.new ≡ after_init (new_process number processes) }
{
    match Process::new(number, processes) {
        Ok(new) => {
            *process = new;
            0
        }
        Err(refusal) => {
            *process = Process::unopened();
            number_of(refusal)
        }
    }
}

/// Opens one more piece of work. Returns 0 or the refusal, as in `Process::add_work`.
#[unsafe(no_mangle)]
pub extern "C" fn gerfmuod_process_add_work(process: &mut Process) -> u32
    ensures { IsEvent (refused_by open_refusal) (after_event opened) process.old result process.new }
{
    outcome(process.add_work())
}

/// Closes a piece of work. Returns 0 or the refusal, as in `Process::finish_work`.
#[unsafe(no_mangle)]
pub extern "C" fn gerfmuod_process_finish_work(process: &mut Process) -> u32
    ensures { IsEvent (refused_by close_refusal) (after_event closed) process.old result process.new }
{
    outcome(process.finish_work())
}

/// Counts a message as sent. Returns 0 or the refusal, as in `Process::count_sent`.
#[unsafe(no_mangle)]
pub extern "C" fn gerfmuod_process_count_sent(process: &mut Process) -> u32
    ensures { IsEvent (refused_by send_refusal) (after_event sent) process.old result process.new }
{
    outcome(process.count_sent())
}

/// Counts a message of an epoch as received, and opens its piece of work. Returns 0 or the refusal, as in
/// `Process::count_received`.
#[unsafe(no_mangle)]
pub extern "C" fn gerfmuod_process_count_received(process: &mut Process, epoch: u64) -> u32
    ensures { IsEvent (receipt_refused epoch) (λ p. if_open p (received_in epoch p)) process.old result process.new }
{
    outcome(process.count_received(epoch))
}

/// The same call as `gerfmuod_process_count_sent`, under its name in the monitor interface.
#[unsafe(no_mangle)]
pub extern "C" fn gerfmuod_process_outgoing_message_start(process: &mut Process) -> u32
    ensures { IsEvent (refused_by send_refusal) (after_event sent) process.old result process.new }
{
    outcome(process.outgoing_message_start())
}

/// The same call as `gerfmuod_process_count_received`, under its name in the monitor interface.
#[unsafe(no_mangle)]
pub extern "C" fn gerfmuod_process_incoming_message_start(process: &mut Process, epoch: u64) -> u32
    ensures { IsEvent (receipt_refused epoch) (λ p. if_open p (received_in epoch p)) process.old result process.new }
{
    outcome(process.incoming_message_start(epoch))
}

/// The same call as `gerfmuod_process_finish_work`, under its name in the monitor interface.
#[unsafe(no_mangle)]
pub extern "C" fn gerfmuod_process_incoming_message_end(process: &mut Process) -> u32
    ensures { IsEvent (refused_by close_refusal) (after_event closed) process.old result process.new }
{
    outcome(process.incoming_message_end())
}

/// Takes a control message. Returns 0 or the refusal: 107 if the process is not open; 109 if there is no such token;
/// then as in `Process::take`.
#[unsafe(no_mangle)]
pub extern "C" fn gerfmuod_process_take(process: &mut Process, message: &WireMessage) -> u32
    ensures refused { result ≡ taken_as message.now.epoch (message_of message.now) (read process.old) }
    ensures state { read process.new ≡ after_taking message.now.epoch (message_of message.now) (read process.old) }
    ensures kept { IsKept result process.old process.new }
{
    // A leaf of the tree takes nothing else until the end, and half of the processes are leaves.
    if message.token == 0 {
        return take(process, message, Token::Down);
    }
    match message.token {
        _ if !process.is_open() => number_of(Refusal::NotOpen),
        1 => take(process, message, Token::Up(message.sent, message.received)),
        2 => take(process, message, Token::Over),
        _ => MALFORMED,
    }
}

/// Takes a control message with this token. Returns 0 or the refusal, as in `Process::take`.
#[inline(always)]
fn take(process: &mut Process, message: &WireMessage, token: Token) -> u32
    ensures refused { result ≡ taken_as message.now.epoch (Some (message_with message.now token)) (read process.old) }
    ensures state { read process.new ≡ after_taking message.now.epoch (Some (message_with message.now token)) (read process.old) }
    ensures kept { IsKept result process.old process.new }
{
    let taken = ControlMessage {
        from: message.from,
        to: message.to,
        wave: message.wave,
        processes: message.processes,
        token,
    };
    outcome(process.take(message.epoch, taken))
}

/// Returns what the process has to do next: 0, nothing; 1, send the control message in `message_out`; 2, call again; 3,
/// nothing, because termination was detected. A number above 100 is a refusal. `message_out` is written only at 1.
#[unsafe(no_mangle)]
pub extern "C" fn gerfmuod_process_next(process: &mut Process, message_out: &mut WireMessage) -> u32
    ensures next { result ≡ next_as (next_of (read process.old)) }
    ensures state { read process.new ≡ after_event (λ p. (moved p).state) (read process.old) }
    ensures message { message_out.new ≡ wire_after (read process.old).epoch (next_of (read process.old)) message_out.old }
    ensures kept { (result ≤ 3) ⊎ (process.new ≡ process.old) }
{
    match process.next() {
        Ok(Next::Nothing) => 0,
        Ok(Next::Send(message)) => {
            *message_out = wire_of(process.epoch(), message);
            1
        }
        Ok(Next::Again) => 2,
        Ok(Next::Ended) => 3,
        Err(refusal) => number_of(refusal),
    }
}

/// Begins the next epoch at the process, with one piece of work open. Returns 0 or the refusal, as in
/// `Process::reopen`.
#[unsafe(no_mangle)]
pub extern "C" fn gerfmuod_process_reopen(process: &mut Process) -> u32
    ensures { IsEvent (λ p. refused_as (checked p (reopen_refusal p))) (λ p. if_open p (reopened p)) process.old result process.new }
{
    outcome(process.reopen())
}

/// Returns whether the process is open.
#[unsafe(no_mangle)]
pub extern "C" fn gerfmuod_process_is_open(process: &Process) -> bool
    ensures { result ≡ is_open (read process.now) }
{
    process.is_open()
}

/// Returns whether the process is open and knows that its epoch has terminated.
#[unsafe(no_mangle)]
pub extern "C" fn gerfmuod_process_knows_end(process: &Process) -> bool
    ensures { result ≡ is_open (read process.now) && (read process.now).state.over }
{
    process.is_over()
}

/// Returns the number of the present epoch, from 0.
#[unsafe(no_mangle)]
pub extern "C" fn gerfmuod_process_epoch(process: &Process) -> u64
    ensures { result ≡ (read process.now).epoch }
{
    process.epoch()
}

/// Returns the number of pieces of work that are open.
#[unsafe(no_mangle)]
pub extern "C" fn gerfmuod_process_pending(process: &Process) -> u64
    ensures { result ≡ (read process.now).state.pending }
{
    process.pending()
}

/// Returns the number of messages that were counted as sent in this epoch.
#[unsafe(no_mangle)]
pub extern "C" fn gerfmuod_process_sent(process: &Process) -> u64
    ensures { result ≡ (read process.now).state.sent }
{
    process.sent()
}

/// Returns the number of messages that were counted as received in this epoch.
#[unsafe(no_mangle)]
pub extern "C" fn gerfmuod_process_received(process: &Process) -> u64
    ensures { result ≡ (read process.now).state.received }
{
    process.received()
}

/// Returns the number of the newest wave that came to the process in this epoch, or 0.
#[unsafe(no_mangle)]
pub extern "C" fn gerfmuod_process_wave(process: &Process) -> u64
    ensures { result ≡ (read process.now).state.wave }
{
    process.wave()
}

/// Returns 0, or the number of the refusal.
#[inline(always)]
pub(crate) fn outcome(answer: Result<(), Refusal>) -> u32
    ensures { result ≡ refused_as (result_err answer) }
{
    match answer {
        Ok(()) => 0,
        Err(refusal) => number_of(refusal),
    }
}

/// Returns the number of a refusal. Out of line, so that a call that is not refused is shorter.
#[cold]
#[inline(never)]
pub(crate) fn number_of(refusal: Refusal) -> u32
    ensures { result ≡ refused_as (Some refusal) }
{
    match refusal {
        Refusal::Inactive => 101,
        Refusal::Full => 102,
        Refusal::NotDue => 103,
        Refusal::NotYet => 104,
        Refusal::Late => 105,
        Refusal::NotEnded => 106,
        Refusal::NotOpen => 107,
        Refusal::NoProcess => 108,
        Refusal::Miscounted => 110,
        Refusal::Mismatched => 111,
    }
}
