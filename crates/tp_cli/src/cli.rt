//! The program without a terminal: from its arguments to its output and exit status.
ghost use Rattle.clap.specs.Values.{kind_of};
ghost use Rattle.std.specs.{Io.KnownBytes.Appends, Prelude.{◌≡◌, ◌≤◌, ◌⊎◌, List, ℕ, IfErr, IfOk, false, map}};
ghost use Rattle.tp_cli.specs.{Command.ReadsAText, Ends.{HasFault, HasWritten, IsFaultOf, IsOutputOf, is_unwritten}};
ghost use Rattle.tp_cli.specs.{Faults.{line_of, status_of}, Texts.status_of_verdict, declared.request.Request.TheVariants.Answer};
ghost use Rattle.tp_shell.specs.{Command.{IsMetBy, IsToBeShown}, Statuses.code_of, Streams.HasShown};
ghost use Rattle.tp_shell.specs.declared.status.Status.TheVariants.{Done, Failed, Refused};

use crate::fault::Fault;
use crate::kept::answer_kept;
use crate::pools::run_several;
use crate::reasons::Subject;
use crate::request::{Request, requested};
use crate::run::run;
use crate::text::TextKind;
use clap::Error;
use std::alloc::Global;
use std::io::{Read, Sink, Write};
use std::rt::{Clock, Files};
use std::sync::Wait;
use std::thread::Threads;
use tp_shell::{Diagnostics, Status, WordsFault, complain, show};
use tp_text::{TextFault, Verdict};
use tp_work::Screen;

/// Runs the program with its arguments, beginning with its own name, and returns the exit status. It reads from
/// `reader`, writes its output to `out` and its error lines to `err`. The status is 0 if it is done, or help or the
/// version was asked for; 1 if the arguments are at fault, a specification names no pool, or reading or writing failed;
/// 2 if the script or the trace is refused; 3 if a run was refused or an allocation failed.
///
/// A pool runs in one generation, or in the number that `--generations` gives, 1 to 9: it is reopened after each but
/// the last. The first generation that is refused is the refusal of the run, and nothing is written of those before.
///
/// After the output of a run, the times of its tasks are written to the file that `--profile` names. No contract is
/// about this file. It is opened before the run; if it cannot be opened or written, the fault is that of a failed write.
pub fn main_with<R: Threads + Wait + Sync + Clock + Files, I: Read, O: Write, E: Diagnostics>(
    rt: &R,
    alloc: Global,
    words: &[&str],
    reader: &mut I,
    out: &mut O,
    err: &mut E,
) -> u8
    ensures range { result ≤ 3 }
    // 0: the requested output was written and nothing else, and there is no error line.
    ensures succeeded { result ≡ 0 → (err.new ≡ err.old) × HasWritten (map (λ w. w.now) words.now)
        (I.remaining reader.old) (I.remaining reader.new) (O.contents out.old) (O.contents out.new) Done }
    // 1: there was one fault, whose line is the only error line: writing failed after the whole output was complete; or
    // nothing was written, because the arguments or the reading are at fault.
    ensures complained { result ≡ 1 → (fault : Fault) × (result ≡ code_of (status_of fault)) × E.tells err.old (line_of fault) err.new
        × HasFault (map (λ w. w.now) words.now) (I.remaining reader.old) (I.remaining reader.new) fault
        × (is_unwritten fault ≡ false → out.new ≡ out.old) }
    // 2: the line of the first fault of the script or the trace was written and nothing else, and there is no error
    // line.
    ensures refused { result ≡ 2 → (err.new ≡ err.old) × HasWritten (map (λ w. w.now) words.now)
        (I.remaining reader.old) (I.remaining reader.new) (O.contents out.old) (O.contents out.new) Refused }
    // 3: there was one fault, whose line is the only error line: a run was refused or an allocation failed, and nothing
    // was written; or one of several pools was refused, their text was written and nothing else, and there is no error
    // line.
    ensures failed { result ≡ 3 → ((fault : Fault) × (result ≡ code_of (status_of fault)) × E.tells err.old (line_of fault) err.new
        × HasFault (map (λ w. w.now) words.now) (I.remaining reader.old) (I.remaining reader.new) fault × (out.new ≡ out.old))
        ⊎ ((err.new ≡ err.old) × HasWritten (map (λ w. w.now) words.now)
        (I.remaining reader.old) (I.remaining reader.new) (O.contents out.old) (O.contents out.new) Failed) }
    // The input is read only for a script or a trace.
    ensures unread { ReadsAText (map (λ w. w.now) words.now) ⊎ (reader.new ≡ reader.old) }
{
    let (ended, _) = answer_words(rt, alloc, words, reader, out, None::<Screen<Sink>>, false);
    told(ended, err).code()
}

/// Returns the status with which the program ended, or that of its fault, after printing its line.
fn told<E: Diagnostics>(ended: Result<Status, Fault>, err: &mut E) -> Status
    ensures done { IfOk ended (λ status. (result ≡ status) × (err.new ≡ err.old)) }
    ensures faulty { IfErr ended (λ fault. (result ≡ status_of fault) × E.tells err.old (line_of fault) err.new) }
{
    match ended {
        Ok(status) => status,
        Err(fault) => complain(&fault, err),
    }
}

/// Writes the requested output, or shows help or the version if the arguments ask for that, and returns what the reason
/// of a refusal is about. If `keeps` is set, a script or a trace is kept for that reason. While a pool runs, the screen
/// shows its progress.
pub(crate) fn answer_words<
    'a,
    R: Threads + Wait + Sync + Clock + Files,
    I: Read,
    O: Write,
    W: Write + Send + Drop,
>(
    rt: &R,
    alloc: Global,
    words: &'a [&'a str],
    reader: &mut I,
    out: &mut O,
    screen: Option<Screen<W>>,
    keeps: bool,
) -> (Result<Status, Fault>, Subject<'a>)
    ensures answered { IfOk result.0 (HasWritten (map (λ w. w.now) words.entry.now)
        (I.remaining reader.old) (I.remaining reader.new) (O.contents out.old) (O.contents out.new)) }
    ensures why { IfErr result.0 (HasFault (map (λ w. w.now) words.entry.now) (I.remaining reader.old) (I.remaining reader.new)) }
    ensures unwritten { IfErr result.0 (λ fault. is_unwritten fault ≡ false → out.new ≡ out.old) }
    ensures unread { ReadsAText (map (λ w. w.now) words.entry.now) ⊎ (reader.new ≡ reader.old) }
{
    match requested(alloc, words) {
        Ok(Request::Answer(kind)) => answer_text(alloc, kind, keeps, reader, out),
        Ok(Request::Run(spec, plan, file)) => {
            let mut reason = None;
            let ended = run(rt, alloc, spec, plan, file, out, screen, &mut reason);
            (ended, Subject::Run(spec, reason))
        }
        Ok(Request::Pools(specs, config)) => (
            run_several(rt, alloc, &specs, config, out),
            Subject::Words(specs),
        ),
        Err(error) => (show_asked(alloc, &error, out), Subject::Arguments(words)),
    }
}

/// Replies to a script or a trace, and keeps it for the reason if `keeps` is set.
fn answer_text<'a, I: Read, O: Write>(
    alloc: Global,
    kind: TextKind,
    keeps: bool,
    reader: &mut I,
    out: &mut O,
) -> (Result<Status, Fault>, Subject<'a>)
    ensures answered { IfOk result.0 (λ status. (text : List ℕ)
        × IsOutputOf (Answer kind) (I.remaining reader.old) (I.remaining reader.new) status text
        × Appends (O.contents out.old) (O.contents out.new) text) }
    ensures why { IfErr result.0 (IsFaultOf (Answer kind) (I.remaining reader.old) (I.remaining reader.new)) }
    ensures unwritten { IfErr result.0 (λ fault. is_unwritten fault ≡ false → out.new ≡ out.old) }
{
    if keeps {
        return answer_kept(alloc, kind, reader, out);
    }
    match kind.answer(alloc, reader, out) {
        Ok(verdict) => (Ok(status_of_verdict(verdict)), Subject::Nothing),
        Err(fault) => (Err(Fault::Text(fault)), Subject::Nothing),
    }
}

/// Returns the status for the verdict on a text.
pub(crate) fn status_of_verdict(verdict: Verdict) -> Status
    ensures { result ≡ status_of_verdict verdict }
{
    match verdict {
        Verdict::Sound => Status::Done,
        Verdict::Refused => Status::Refused,
    }
}

/// Shows help or the version if the arguments asked for it.
fn show_asked<O: Write>(alloc: Global, error: &Error, out: &mut O) -> Result<Status, Fault>
    ensures shown { IfOk result (λ status. (status ≡ Done) × IsToBeShown (kind_of error.now)
        × HasShown (O.contents out.old) (O.contents out.new)) }
    ensures why { IfErr result (λ fault. (met : WordsFault) × (fault ≡ Fault.Words met) × IsMetBy (kind_of error.now) met) }
    ensures unwritten { IfErr result (λ fault. is_unwritten fault ≡ false → out.new ≡ out.old) }
{
    match show(alloc, error, out) {
        Ok(()) => Ok(Status::Done),
        Err(fault) => Err(Fault::Words(fault)),
    }
}
