//! Writing a text to a buffer of the caller: the audit of a trace, and the trace of a core.
ghost use Rattle.std.specs.Prelude.{◌≡◌};
ghost use Rattle.gerfmuod.specs.Calls.{IsTraceCall, IsAudited, IsPut, outcome_of};
ghost use Rattle.tp_text.specs.TracedEnd.{EndedIsOver, NotEndedClaimsNoEnd, ReopenedIsOver};

use crate::answer::Written;
use crate::slot::CoreSlot;
use std::alloc::Global;
use tp_base::Refusal;
use tp_text::{MAX_TEXT, Verdict, audit, print_steps};

/// The outcome of a text that was written.
pub(crate) const WRITTEN: u32 = 0;

/// The outcome of an audit that found a line of the trace invalid.
const COMPLAINT: u32 = 1;

const TOO_LONG: u32 = 2;

pub(crate) const NO_MEMORY: u32 = 3;

const NO_ROOM: u32 = 4;

pub(crate) const NO_TEXT: u32 = 5;

/// Returns the result if there is no text.
pub(crate) fn unwritten(outcome: u32) -> Written
    ensures { result ≡ record { outcome = outcome; length = 0 } }
{
    Written { outcome, length: 0 }
}

/// Writes the text to the start of `buffer`, if it fits.
pub(crate) fn put(buffer: &mut [u8], text: &[u8], outcome: u32) -> Written
    ensures { IsPut text.now outcome buffer.old result buffer.new }
{
    let length = text.len();
    if length > buffer.len() {
        return Written {
            outcome: NO_ROOM,
            length,
        };
    }
    buffer[..length].copy_from_slice(text);
    Written { outcome, length }
}

fn outcome_of(verdict: Verdict) -> u32
    ensures { result ≡ outcome_of verdict }
{
    match verdict {
        Verdict::Sound => WRITTEN,
        Verdict::Refused => COMPLAINT,
    }
}

fn audited(alloc: Global, text: &[u8], buffer: &mut [u8]) -> Written
    ensures { IsAudited text.now buffer.old result buffer.new }
{
    if text.len() > MAX_TEXT {
        return unwritten(TOO_LONG);
    }
    let mut reader = text;
    let mut written = Vec::new(alloc);
    match audit(alloc, &mut reader, &mut written) {
        Ok(verdict) => put(buffer, &written, outcome_of(verdict)),
        Err(_) => unwritten(NO_MEMORY),
    }
}

/// Judges a trace as `tp audit` does, and writes the verdict to the start of `buffer`.
#[unsafe(no_mangle)]
#[tactic(auto, using(crate::proofs::Steps::ended_over, crate::proofs::Steps::not_ended_claims, crate::proofs::Steps::reopened_over))]
pub extern "C" fn gerfmuod_audit(alloc: Global, text: &[u8], buffer: &mut [u8]) -> Written
    ensures answer { IsAudited text.now buffer.old result buffer.new }
    // If the verdict on a sound trace is `ended W`, the pool was quiet from the end of wave W on, and each task of the
    // present generation had run once by then.
    ensures ended { EndedIsOver }
    // If it is `not ended`, no line since the pool was last reopened says that the pool had terminated.
    ensures not_ended { NotEndedClaimsNoEnd }
    // In each generation that was followed by another, termination was detected, the pool was quiet and each task had
    // run once.
    ensures reopened { ReopenedIsOver }
{
    audited(alloc, text, buffer)
}

/// Writes the trace of the steps that a core has taken to the start of `buffer`; there is none if the core is not open, another
/// call runs on it, it keeps no list of its steps, or a number in a step is too great for a trace.
pub(crate) fn traced(slot: &mut CoreSlot, alloc: Global, buffer: &mut [u8]) -> Written
    ensures { IsTraceCall buffer.old slot.old (result, buffer.new) slot.new }
{
    if !slot.is_open() {
        return unwritten(NO_TEXT);
    }
    if !slot.room.is_recorded() {
        return unwritten(NO_TEXT);
    }
    match print_steps(alloc, slot.room.steps(), slot.room.nodes()) {
        Ok(text) => put(buffer, &text, WRITTEN),
        Err(Refusal::BadSpec) => unwritten(NO_TEXT),
        Err(_) => unwritten(NO_MEMORY),
    }
}
