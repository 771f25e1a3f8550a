//! The names and meanings of refusals, as texts for C.
ghost use Rattle.std.specs.Prelude.{◌≡◌, option_map};
ghost use Rattle.gerfmuod.specs.Calls.{texts_of, IsExplained, IsNamed};

use crate::answer::Written;
use crate::text::{NO_TEXT, WRITTEN, put, unwritten};

/// The row of a number in a table, or the end of the function if there is none.
macro_rules! texts_in {
    ($number:expr; $($row:literal $name:literal $meaning:literal)*) => {
        Some(match $number {
            $($row => ($name, $meaning),)*
            _ => return None,
        })
    };
}

/// Returns the name and the meaning of the refusal of this number, if there is one: 0, that the call was not refused; 1 to 26 of
/// a core or a task graph; 28 and 29 of a core; 64 to 69 of a task graph or a team; 101 to 111 of a process.
fn texts_of(number: u32) -> Option<(&'static str, &'static str)>
    ensures { option_map (λ t. (t.0.now, t.1.now)) result ≡ texts_of number }
{
    texts_in!(number;
        0 "Ok" "the call was not refused"
        1 "NoNode" "there is no node of this number"
        2 "SameNode" "the sender and the receiver are one node"
        3 "TaskKnown" "a task of this number was inserted before"
        4 "NoTask" "there is no such task, or an input is not lower than its task"
        5 "WrongLife" "the task, the core or the graph is not in the state that the call needs"
        6 "Inactive" "no task is unfinished and no action is open at the node"
        7 "ActionKnown" "the action is open there"
        8 "NoAction" "the action is not open there"
        9 "MessageKnown" "a message of this number was sent before"
        10 "NoMessage" "no such message is in flight to that node"
        11 "NotIdle" "a task is unfinished, an action is open or a message is in flight"
        12 "NoToken" "the wave has not come so far, or has passed"
        13 "WaveOpen" "a wave is open, or has ended and is not judged"
        14 "WaveNotEnded" "no ended wave waits for judgement"
        15 "Ended" "termination was detected, or all tasks of the run are done"
        16 "HistoryFull" "there is no room for more steps, or a number would be above its limit"
        17 "NoMemory" "an allocation failed"
        18 "SlotTaken" "no call of this library returns it"
        19 "Stranger" "the message is of another generation"
        20 "Missing" "no call of this library returns it"
        21 "Stalled" "no call of this library returns it"
        22 "BodyFailed" "no call of this library returns it"
        23 "StoreFull" "a counter of a core without a list of steps is at its limit"
        24 "NoPool" "the core or the graph is not open"
        25 "PoolKnown" "no call of this library returns it"
        26 "BadSpec" "no such step, maker, call or class, or nodes, inputs or arrays are invalid"
        28 "Busy" "another call runs on the core, so the caller's lock is missing"
        29 "NoMaker" "the maker does not run or is not open at the node of the step"
        64 "NoThread" "a run needs a thread"
        65 "NotStarted" "the operating system started too few threads, and no body ran"
        66 "Stopped" "the graph was stopped, or a body failed"
        67 "Running" "a turn has not returned, or a task runs"
        68 "NotWritten" "the stream did not take the whole text"
        69 "Different" "the processes described different graphs"
        101 "NoWork" "no piece of work is open at the process"
        102 "CountFull" "a count or the epoch of the process is at its limit"
        103 "NotDue" "the control message is for another process, of another wave, or was taken before"
        104 "NotYet" "the message is of a later epoch, so keep it until the process has reopened"
        105 "Late" "the message is of an older epoch"
        106 "NotEnded" "the process does not know the end of this epoch, or has not notified each child"
        107 "NotOpen" "the process is not open"
        108 "NoProcess" "the number of the process is not below the number of processes"
        109 "Malformed" "no control message has such a token"
        110 "Miscounted" "a message was sent uncounted, or its receipt was counted twice"
        111 "Mismatched" "the control message is from a process opened with another number of processes"
    )
}

/// Writes the name of the refusal of a number to the start of `buffer`: `NoNode` for 1, and `Ok` for 0.
#[unsafe(no_mangle)]
pub extern "C" fn gerfmuod_refusal_name(number: u32, buffer: &mut [u8]) -> Written
    ensures { IsNamed number buffer.old result buffer.new }
{
    match texts_of(number) {
        Some((name, _)) => put(buffer, name.as_bytes(), WRITTEN),
        None => unwritten(NO_TEXT),
    }
}

/// Writes the meaning of the refusal of a number to the start of `buffer`.
#[unsafe(no_mangle)]
pub extern "C" fn gerfmuod_refusal_meaning(number: u32, buffer: &mut [u8]) -> Written
    ensures { IsExplained number buffer.old result buffer.new }
{
    match texts_of(number) {
        Some((_, meaning)) => put(buffer, meaning.as_bytes(), WRITTEN),
        None => unwritten(NO_TEXT),
    }
}
