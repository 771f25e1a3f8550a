//! Reading a script or a trace that is kept until its reply is written.
ghost use Rattle.std.specs.{Io.KnownBytes.{Appends, Consumes}, Prelude.{◌≡◌, ◌≢◌, ◌+◌, ◌≤◌, List, ℕ, false, length, IfErr, IfOk, IsErrOf}};
ghost use Rattle.tp_cli.specs.{Ends.{IsFaultOf, IsOutputOf, is_unwritten}, Texts.{IsTextTo, IsUnansweredText}};
ghost use Rattle.tp_cli.specs.declared.request.Request.TheVariants.{Answer};
ghost use Rattle.tp_text.specs.{Input.ReadsAll, declared.input.TheConstants.MAX_TEXT};

use crate::cli::status_of_verdict;
use crate::fault::Fault;
use crate::reasons::Subject;
use crate::text::TextKind;
use std::alloc::Global;
use std::io::{ErrorKind, Read, Write};
use tp_shell::{Status, write_text};
use tp_text::{MAX_READS, MAX_TEXT, TextFault, Verdict};

/// How many bytes are read at once. The buffer is on the stack.
const PIECE: usize = 4_096;

/// A text that was read, and its reply.
#[derive(Drop)]
pub(crate) struct AnsweredText {
    pub(crate) text: Vec<u8>,
    pub(crate) verdict: Verdict,
    pub(crate) answer: Vec<u8>,
}

/// Writes the reply to a script or a trace, and keeps the text for its reason.
pub(crate) fn answer_kept<'a, I: Read, O: Write>(
    alloc: Global,
    kind: TextKind,
    reader: &mut I,
    out: &mut O,
) -> (Result<Status, Fault>, Subject<'a>)
    ensures answered { IfOk result.0 (λ status. (text : List ℕ)
        × IsOutputOf (Answer kind) (I.remaining reader.old) (I.remaining reader.new) status text
        × Appends (O.contents out.old) (O.contents out.new) text) }
    ensures why { IfErr result.0 (IsFaultOf (Answer kind) (I.remaining reader.old) (I.remaining reader.new)) }
    ensures unwritten { IfErr result.0 (λ fault. is_unwritten fault ≡ false → out.new ≡ out.old) }
{
    let answered = match answer_of(alloc, kind, reader) {
        Ok(answered) => answered,
        Err(fault) => return (Err(Fault::Text(fault)), Subject::Nothing),
    };
    match write_text(out, &answered.answer) {
        Ok(()) => {
            let status = status_of_verdict(answered.verdict);
            (Ok(status), Subject::Text(kind, answered))
        }
        Err(_) => (Err(Fault::Text(TextFault::Write)), Subject::Nothing),
    }
}

/// Reads a script or a trace, and computes its reply.
fn answer_of<I: Read>(
    alloc: Global,
    kind: TextKind,
    reader: &mut I,
) -> Result<AnsweredText, TextFault>
    ensures ok { IfOk result (λ it. ReadsAll (I.remaining reader.old) (I.remaining reader.new) it.text.items
        × IsTextTo kind it.text.items it.verdict it.answer.items) }
    ensures why { IfErr result (IsUnansweredText kind (I.remaining reader.old) (I.remaining reader.new)) }
    ensures unwritten { IfErr result (λ fault. fault ≢ TextFault.Write) }
{
    let text = match read_text(alloc, reader) {
        Ok(text) => text,
        Err(fault) => return Err(fault),
    };
    let mut rest = text.as_slice();
    let mut answer = Vec::new(alloc);
    match kind.answer(alloc, &mut rest, &mut answer) {
        Ok(verdict) => Ok(AnsweredText {
            text,
            verdict,
            answer,
        }),
        Err(_) => Err(TextFault::Memory),
    }
}

/// Reads the input to its end, in pieces. An interrupted read is retried. Refused with `TooLong` if the input is longer
/// than a text may be, `Memory` if an allocation fails, and `Read` if the reader fails.
fn read_text<R: Read>(alloc: Global, reader: &mut R) -> Result<Vec<u8>, TextFault>
    ensures whole { IfOk result (λ text. ReadsAll (R.remaining reader.old) (R.remaining reader.new) text.items) }
    ensures fits { IfOk result (λ text. length text.items ≤ MAX_TEXT) }
    // It has read one byte more than a text may have.
    ensures too_long { IsErrOf result TextFault.TooLong →
        (bytes : List ℕ) × Consumes (R.remaining reader.old) (R.remaining reader.new) bytes × (length bytes ≡ MAX_TEXT + 1) }
    ensures unwritten { IsErrOf result TextFault.Write → ⊥ }
{
    let mut text = Vec::new(alloc);
    let mut piece = [0; PIECE];
    for _ in 0..MAX_READS {
        let left = MAX_TEXT + 1 - text.len();
        let size = left.min(piece.len());
        match reader.read(&mut piece[..size]) {
            Ok(0) => return Ok(text),
            Ok(count) => {
                text.extend_from_slice(&piece[..count])
                    .map_err(|_| TextFault::Memory)?;
                if text.len() > MAX_TEXT {
                    return Err(TextFault::TooLong);
                }
            }
            Err(error) if error.kind() == ErrorKind::Interrupted => {}
            Err(_) => return Err(TextFault::Read),
        }
    }
    Err(TextFault::Read)
}
