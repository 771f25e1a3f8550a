//! Reading a trace: the steps of a sound one, or those before the first faulty line.
ghost use Rattle.std.specs.{Io.KnownBytes.Consumes, Prelude.{◌≡◌, ◌+◌, ◌≤◌, ℕ, List, length, IfErr, IfOk, IsErrOf}};
ghost use Rattle.tp_text.specs.{Auditing.Knows, Input.ReadsAll, Reading.{HasRuns, IsReading, TellsNextLine}, Trace.IsTrace};
ghost use Rattle.tp_text.specs.{TracedEnd.ReopenedIsOver, declared.{input.TheConstants.MAX_TEXT, traced.TraceLine.TraceLine}};

use crate::auditor::Auditor;
use crate::fault::TextFault;
use crate::input::read_text;
use crate::recount::{Recounted, lines_taken};
use crate::version::Version;
use std::alloc::{AllocError, Global};
use std::io::Read;
use tp_base::Step;

/// The steps of a trace, or those before the first faulty line.
#[derive(Drop)]
pub struct Trace {
    /// The number of nodes of its pool: 1 to 8.
    pub nodes: u32,
    /// The steps, oldest first.
    pub steps: Vec<Step>,
}

/// What was read of a trace.
#[derive(Drop)]
pub enum Reading {
    /// It is sound: its number of nodes and its steps.
    Sound(Trace),
    /// A line is faulty: the steps before the first such line, and the line that `audit` writes.
    Flawed(Trace, Vec<u8>),
    /// The first two lines are not those of a trace: the line that `audit` writes.
    NoTrace(Vec<u8>),
}

/// Returns what is read of a trace whose lines were all taken.
fn taken_off(
    alloc: Global,
    version: Version,
    nodes: u32,
    auditor: &Auditor,
) -> Result<Reading, AllocError>
    requires { (lines : List TraceLine) × Knows nodes lines auditor.now }
    ensures ok { (bytes : List ℕ) (lines : List TraceLine) → IsTrace bytes version nodes lines → Knows nodes lines auditor.now
        → IfOk result (IsReading bytes) }
    ensures runs { IfOk result HasRuns }
    ensures told { IfOk result TellsNextLine }
{
    let steps = auditor.steps(alloc)?;
    let trace = Trace { nodes, steps };
    if auditor.is_flawed() {
        let (_, complaint) = auditor.answer(version, alloc)?;
        return Ok(Reading::Flawed(trace, complaint));
    }
    Ok(Reading::Sound(trace))
}

/// Returns what is read of a text.
fn reading_of(alloc: Global, text: &[u8]) -> Result<Reading, TextFault>
    ensures ok { IfOk result (IsReading text.now) }
    ensures runs { IfOk result HasRuns }
    ensures told { IfOk result TellsNextLine }
    ensures err { IfErr result (λ fault. fault ≡ TextFault.Memory) }
{
    match lines_taken(alloc, text)? {
        Recounted::NoTrace(complaint) => Ok(Reading::NoTrace(complaint)),
        Recounted::Broken(nodes, auditor, complaint) => {
            let steps = auditor.steps(alloc)?;
            Ok(Reading::Flawed(Trace { nodes, steps }, complaint))
        }
        Recounted::Whole(version, nodes, auditor) => {
            let reading = taken_off(alloc, version, nodes, &auditor)?;
            Ok(reading)
        }
    }
}

/// Reads a trace to the end of the reader, and judges it as `audit` does: it believes no line, and takes the steps in
/// order with a new core.
///
/// Returns `Sound` with the number of nodes and the steps if the trace is sound. Returns `Flawed` if a line is faulty:
/// its step is refused, its judgement (`judge not` or `judge ended W`) is wrong, or it does not match the grammar. The
/// result then has the steps before the first such line, and the line that `audit` writes. That line reports the first
/// line that does not match the grammar, if there is one, even if the step of an earlier line is refused. Returns
/// `NoTrace` with the line that `audit` writes if the first two lines are not those of a trace. Takes memory for the
/// text, for a core with its steps, and for the returned steps.
///
/// Fails with `Read` if a read fails (an interrupted one is tried again), or if 67,108,864 reads did not reach the end;
/// `TooLong` if there are more than 33,554,432 bytes; `Memory` if an allocation fails.
pub fn read_trace<R: Read>(alloc: Global, reader: &mut R) -> Result<Reading, TextFault>
    // The reader was read to its end, and this is what is read of the bytes.
    ensures ok { IfOk result (λ reading. (bytes : List ℕ)
        × ReadsAll (R.remaining reader.old) (R.remaining reader.new) bytes × (length bytes ≤ MAX_TEXT) × IsReading bytes reading) }
    // The returned steps are a run in each generation.
    ensures runs { IfOk result HasRuns }
    // The reported line is the one after those of the steps, or a later one that does not match the grammar.
    ensures told { IfOk result TellsNextLine }
    // In each generation but the last, the end was judged, nothing was left, and each task had run once.
    ensures reopened { IfOk result (λ _. ReopenedIsOver) }
    // One byte more than the limit was read.
    ensures too_long { IsErrOf result TextFault.TooLong → (bytes : List ℕ)
        × Consumes (R.remaining reader.old) (R.remaining reader.new) bytes × (length bytes ≡ MAX_TEXT + 1) }
    // It writes nothing, so no write fails.
    ensures unwritten { IsErrOf result TextFault.Write → ⊥ }
{
    let text = read_text(alloc, reader)?;
    let reading = reading_of(alloc, &text)?;
    Ok(reading)
}
