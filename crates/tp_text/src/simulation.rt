//! The replies to the steps of a script.
ghost use Rattle.std.specs.{Io.KnownBytes.{Consumes, Appends}, Prelude.{◌≡◌, ◌≢◌, ◌+◌, ◌≤◌, ◌++◌, ℕ, List, length, codes, decimal, IfOk}};
ghost use Rattle.std.specs.Prelude.{OnOk, IfErr, IsErrOf};
ghost use Rattle.tp_text.specs.{Ended.EndedIsNeverEarly, Input.ReadsAll, SimText.IsSimText, Spelling.line};
ghost use Rattle.tp_text.specs.declared.{input.TheConstants.MAX_TEXT, verdict.Verdict.Verdict};

use crate::fault::TextFault;
use crate::input::read_text;
use crate::parse::{first_line, next_step, script_head};
use crate::printing::{push_answer, push_closing, syntax_line};
use crate::verdict::Verdict;
use std::alloc::Global;
use std::io::{Read, Write};
use tp_base::Refusal;
use tp_core::Core;

/// Returns the verdict on a text and the reply: a line for each step of a script and the closing lines, or the line
/// that reports the first fault. Fails with `Memory` if an allocation fails.
fn answered(alloc: Global, text: &[u8]) -> Result<(Verdict, Vec<u8>), TextFault>
    ensures ok { IfOk result (λ answer. IsSimText text.now answer.0 answer.1.items) }
    ensures err { IfErr result (λ fault. fault ≡ TextFault.Memory) }
{
    let (version, behind) = script_head(text);
    let Some((nodes, steps)) = first_line(behind) else {
        return Ok((Verdict::Refused, syntax_line(alloc, version.nodes_at())?));
    };
    let mut core = Core::new(alloc, nodes);
    let mut out = Vec::new(alloc);
    let mut rest = steps;
    let mut number = version.nodes_at() + 1;
    while !rest.is_empty() {
        let Some((step, behind)) = next_step(version, rest) else {
            return Ok((Verdict::Refused, syntax_line(alloc, number)?));
        };
        let answer = core.step(step);
        if answer == Err(Refusal::NoMemory) {
            return Err(TextFault::Memory);
        }
        push_answer(&mut out, answer)?;
        rest = behind;
        number += 1;
    }
    push_closing(&mut out, &core, nodes)?;
    Ok((Verdict::Sound, out))
}

/// Replies to a script: reads to the end of the reader, takes the steps in order with a new core, and writes the reply
/// to each step and the closing lines.
///
/// Returns `Sound` if the text is a script. Otherwise it returns `Refused`, and writes only the line that reports the
/// first line that does not match the grammar. It writes nothing before the whole reply is known.
///
/// A script of version 1 begins with the line for the number of nodes, and all its messages are of the first
/// generation. One of version 2 begins with the line `script 2`: the last number in the line of a message is its
/// generation, and `reopen` is a line, to which the reply is `generation G` if the step is accepted.
///
/// Fails with `Read` if a read fails (an interrupted one is tried again), or if 67,108,864 reads did not reach the end;
/// `TooLong` if there are more than 33,554,432 bytes; `Memory` if an allocation fails; `Write` if the reply cannot be
/// written.
pub fn sim<R: Read, W: Write>(
    alloc: Global,
    reader: &mut R,
    writer: &mut W,
) -> Result<Verdict, TextFault>
    // The reader was read to its end, and the reply to the bytes was written and nothing else.
    ensures ok { IfOk result (λ verdict. (bytes : List ℕ) × (text : List ℕ)
        × ReadsAll (R.remaining reader.old) (R.remaining reader.new) bytes × (length bytes ≤ MAX_TEXT)
        × IsSimText bytes verdict text × Appends (W.contents writer.old) (W.contents writer.new) text) }
    // If a line of the reply is `ended W`, nothing was left from the end of wave W on, until the pool was reopened.
    ensures never_early { IfOk result (λ _. EndedIsNeverEarly) }
    // If the reply could not be written, the reader was read to its end, and the reply to the bytes was computed.
    ensures computed { IsErrOf result TextFault.Write → (verdict : Verdict) × (bytes : List ℕ) × (text : List ℕ)
        × ReadsAll (R.remaining reader.old) (R.remaining reader.new) bytes × IsSimText bytes verdict text }
    // One byte more than the limit was read.
    ensures too_long { IsErrOf result TextFault.TooLong → (bytes : List ℕ)
        × Consumes (R.remaining reader.old) (R.remaining reader.new) bytes × (length bytes ≡ MAX_TEXT + 1) }
    // After any fault but `Write`, nothing was written.
    ensures unwritten { IfErr result (λ fault. fault ≢ TextFault.Write → writer.new ≡ writer.old) }
{
    let text = read_text(alloc, reader)?;
    let (verdict, answer) = answered(alloc, &text)?;
    write_answer(writer, &answer)?;
    Ok(verdict)
}

pub(crate) fn write_answer<W: Write>(writer: &mut W, answer: &[u8]) -> Result<(), TextFault>
    ensures ok { OnOk result (Appends (W.contents writer.old) (W.contents writer.new) answer.now) }
    ensures err { IfErr result (λ fault. fault ≡ TextFault.Write) }
{
    writer.write_all(answer).map_err(|_| TextFault::Write)?;
    writer.flush().map_err(|_| TextFault::Write)
}
