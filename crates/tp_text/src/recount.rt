//! The audit of a trace: the account of a sound one, or the line that reports the first fault.
ghost use Rattle.std.specs.{Io.KnownBytes.{Consumes, Appends}, Prelude.{◌≡◌, ◌≢◌, ◌+◌, ◌≤◌, ℕ, List, length, IfOk, IfErr, IsErrOf}};
ghost use Rattle.tp_text.specs.{AuditText.IsAuditText, Auditing.IsRecounted, Input.ReadsAll, TracedEnd.{EndedIsOver, NotEndedClaimsNoEnd}};
ghost use Rattle.tp_text.specs.{TracedEnd.ReopenedIsOver, declared.{input.TheConstants.MAX_TEXT, verdict.Verdict.Verdict}};

use crate::auditor::Auditor;
use crate::fault::TextFault;
use crate::input::read_text;
use crate::parse::{behind_format, first_line, next_line};
use crate::printing::syntax_line;
use crate::simulation::write_answer;
use crate::verdict::Verdict;
use crate::version::Version;
use std::alloc::Global;
use std::io::{Read, Write};

/// The result of taking the lines of a trace one by one.
#[derive(Drop)]
pub(crate) enum Recounted {
    /// The first two lines are not those of a trace: the line that reports it.
    NoTrace(Vec<u8>),
    /// A line does not match the grammar: the number of nodes, the auditor that took the lines before the first such
    /// line, and the line that reports it.
    Broken(u32, Auditor, Vec<u8>),
    /// All lines were taken: the version, the number of nodes, and the auditor that took them.
    Whole(Version, u32, Auditor),
}

/// Takes the lines of a trace, up to the first that does not match the grammar. Fails with `Memory` if an allocation
/// fails.
pub(crate) fn lines_taken(alloc: Global, text: &[u8]) -> Result<Recounted, TextFault>
    ensures ok { IfOk result (IsRecounted text.now) }
    ensures err { IfErr result (λ fault. fault ≡ TextFault.Memory) }
{
    let Some((version, behind)) = behind_format(text) else {
        return Ok(Recounted::NoTrace(syntax_line(alloc, 1)?));
    };
    let Some((nodes, lines)) = first_line(behind) else {
        return Ok(Recounted::NoTrace(syntax_line(alloc, 2)?));
    };
    let mut auditor = Auditor::new(alloc, nodes);
    let mut rest = lines;
    let mut number = 3;
    while !rest.is_empty() {
        let Some((line, behind)) = next_line(version, rest) else {
            let complaint = syntax_line(alloc, number)?;
            return Ok(Recounted::Broken(nodes, auditor, complaint));
        };
        auditor.take(line, number)?;
        rest = behind;
        number += 1;
    }
    Ok(Recounted::Whole(version, nodes, auditor))
}

/// Returns the verdict on a text and the reply: the account of a sound trace, or the line that reports the first fault.
/// Fails with `Memory` if an allocation fails.
fn audited(alloc: Global, text: &[u8]) -> Result<(Verdict, Vec<u8>), TextFault>
    ensures ok { IfOk result (λ answer. IsAuditText text.now answer.0 answer.1.items) }
    ensures err { IfErr result (λ fault. fault ≡ TextFault.Memory) }
{
    match lines_taken(alloc, text)? {
        Recounted::NoTrace(complaint) => Ok((Verdict::Refused, complaint)),
        Recounted::Broken(_, _, complaint) => Ok((Verdict::Refused, complaint)),
        Recounted::Whole(version, _, auditor) => Ok(auditor.answer(version, alloc)?),
    }
}

/// Judges a trace, and writes the reply. It reads to the end of the reader, takes the steps in order with a new core,
/// and counts the messages anew, so it believes no line.
///
/// Returns `Sound` if each line matches the grammar, no step is refused, and each line `judge not` or `judge ended W`
/// has the right claim. Then it writes four lines: the number of steps; the numbers of tasks inserted and done; the
/// numbers of messages sent and received; and the last judgement, `ended W` or `not ended`. Otherwise it returns
/// `Refused` and writes one line, about the first line that does not match the grammar, or else the first whose step is
/// refused or whose claim is wrong. It writes nothing before the whole reply is known. Takes memory for the text and
/// for a core with its steps.
///
/// A trace of version 1 begins with the line `trace 1`, and all its messages are of the first generation. One of
/// version 2 begins with the line `trace 2`: the last number in the line of a message is its generation, and `reopen`
/// is a line. If it is sound, the line `generation G` is written before the last one, with the number of the last
/// generation. Steps, tasks and messages are counted over all generations; the last line is about the last generation.
///
/// Fails with `Read` if a read fails (an interrupted one is tried again), or if 67,108,864 reads did not reach the end;
/// `TooLong` if there are more than 33,554,432 bytes; `Memory` if an allocation fails; `Write` if the reply cannot be
/// written.
///
/// The judgement is that of the four counters: F. Mattern, "Algorithms for Distributed Termination Detection" (1987).
pub fn audit<R: Read, W: Write>(
    alloc: Global,
    reader: &mut R,
    writer: &mut W,
) -> Result<Verdict, TextFault>
    // The reader was read to its end, and the reply to the bytes was written and nothing else.
    ensures ok { IfOk result (λ verdict. (bytes : List ℕ) × (text : List ℕ)
        × ReadsAll (R.remaining reader.old) (R.remaining reader.new) bytes × (length bytes ≤ MAX_TEXT)
        × IsAuditText bytes verdict text × Appends (W.contents writer.old) (W.contents writer.new) text) }
    // If the reply to a sound trace is `ended W`, nothing of the present generation was left from the end of wave W on,
    // and each of its tasks had run once by then.
    ensures ended { IfOk result (λ _. EndedIsOver) }
    // If the reply is `not ended`, no line since the last reopening claims that the pool had ended.
    ensures not_ended { IfOk result (λ _. NotEndedClaimsNoEnd) }
    // In each generation but the last, the end was judged, nothing was left, and each task had run once.
    ensures reopened { IfOk result (λ _. ReopenedIsOver) }
    // If the reply could not be written, the reader was read to its end, and the reply to the bytes was computed.
    ensures computed { IsErrOf result TextFault.Write → (verdict : Verdict) × (bytes : List ℕ) × (text : List ℕ)
        × ReadsAll (R.remaining reader.old) (R.remaining reader.new) bytes × IsAuditText bytes verdict text }
    // One byte more than the limit was read.
    ensures too_long { IsErrOf result TextFault.TooLong → (bytes : List ℕ)
        × Consumes (R.remaining reader.old) (R.remaining reader.new) bytes × (length bytes ≡ MAX_TEXT + 1) }
    // After any fault but `Write`, nothing was written.
    ensures unwritten { IfErr result (λ fault. fault ≢ TextFault.Write → writer.new ≡ writer.old) }
{
    let text = read_text(alloc, reader)?;
    let (verdict, answer) = audited(alloc, &text)?;
    write_answer(writer, &answer)?;
    Ok(verdict)
}
