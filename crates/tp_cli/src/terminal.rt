//! The program for a user, to whom it also prints reasons and progress.
ghost use Rattle.std.specs.Prelude.{◌≡◌, ◌≤◌, ◌⊎◌, IfErr, IfOk, false, map};
ghost use Rattle.tp_cli.specs.{Command.ReadsAText, Ends.{HasFault, HasWritten, is_unwritten}, Faults.{line_of, status_of}};
ghost use Rattle.tp_cli.specs.Reasons.{IsAnswerExplained, IsExplained};
ghost use Rattle.tp_shell.specs.{Statuses.code_of, Streams.MayExplain, declared.status.Status.TheVariants.{Done, Failed, Refused}};

use crate::cli::answer_words;
use crate::fault::Fault;
use crate::reasons::{Subject, explain, explain_fault};
use std::alloc::Global;
use std::io::{Read, Write};
use std::rt::{Clock, Files};
use std::sync::Wait;
use std::thread::Threads;
use tp_shell::{Diagnostics, Status, complain};
use tp_work::Screen;

/// Runs the program as [`main_with`](crate::main_with) does, for a user who reads the error lines. After the line of a
/// fault a second line may say why, such as what is wrong with a specification or a line of a script; after a trace was
/// refused, what is pending. These lines begin with `reason: `; their texts are tested, not proved. All else is the same:
/// what is written to `out`, what is read, the first line, and the exit status. A script or a trace is kept until the
/// reply is written, so it needs twice its memory. While a pool runs, the screen, if there is one, shows its progress.
pub fn main_at_terminal<
    R: Threads + Wait + Sync + Clock + Files,
    I: Read,
    O: Write,
    E: Diagnostics,
    W: Write + Send + Drop,
>(
    rt: &R,
    alloc: Global,
    words: &[&str],
    reader: &mut I,
    out: &mut O,
    err: &mut E,
    screen: Option<Screen<W>>,
) -> u8
    ensures range { result ≤ 3 }
    // 0: as without reasons, and there is no error line.
    ensures succeeded { result ≡ 0 → (err.new ≡ err.old) × HasWritten (map (λ w. w.now) words.now)
        (I.remaining reader.old) (I.remaining reader.new) (O.contents out.old) (O.contents out.new) Done }
    // 1: as without reasons, and the reason may be printed after the error line.
    ensures complained { result ≡ 1 → (fault : Fault) × (result ≡ code_of (status_of fault))
        × IsExplained E.tells (line_of fault) err.old err.new
        × HasFault (map (λ w. w.now) words.now) (I.remaining reader.old) (I.remaining reader.new) fault
        × (is_unwritten fault ≡ false → out.new ≡ out.old) }
    // 2: the output is as without reasons, and what is wrong with the text may be printed.
    ensures refused { result ≡ 2 → MayExplain E.tells err.old err.new × HasWritten (map (λ w. w.now) words.now)
        (I.remaining reader.old) (I.remaining reader.new) (O.contents out.old) (O.contents out.new) Refused }
    // 3: as without reasons, and the reason may be printed after the error line.
    ensures failed { result ≡ 3 → ((fault : Fault) × (result ≡ code_of (status_of fault))
        × IsExplained E.tells (line_of fault) err.old err.new
        × HasFault (map (λ w. w.now) words.now) (I.remaining reader.old) (I.remaining reader.new) fault × (out.new ≡ out.old))
        ⊎ ((err.new ≡ err.old) × HasWritten (map (λ w. w.now) words.now)
        (I.remaining reader.old) (I.remaining reader.new) (O.contents out.old) (O.contents out.new) Failed) }
    ensures unread { ReadsAText (map (λ w. w.now) words.now) ⊎ (reader.new ≡ reader.old) }
{
    let (ended, subject) = answer_words(rt, alloc, words, reader, out, screen, true);
    told_explained(alloc, ended, &subject, err).code()
}

/// Returns the status with which the program ended, or that of its fault, after printing its line and then the reason.
fn told_explained<E: Diagnostics>(
    alloc: Global,
    ended: Result<Status, Fault>,
    subject: &Subject,
    err: &mut E,
) -> Status
    ensures done { IfOk ended (λ status. (result ≡ status) × IsAnswerExplained E.tells status err.old err.new) }
    ensures faulty { IfErr ended (λ fault. (result ≡ status_of fault) × IsExplained E.tells (line_of fault) err.old err.new) }
{
    match ended {
        Ok(Status::Refused) => {
            explain(alloc, subject, err);
            Status::Refused
        }
        Ok(status) => status,
        Err(fault) => fault_explained(&fault, subject, err),
    }
}

/// Prints the line of a fault, and then the reason, if it has one.
fn fault_explained<E: Diagnostics>(fault: &Fault, subject: &Subject, err: &mut E) -> Status
    ensures status { result ≡ status_of fault.now }
    ensures told { IsExplained E.tells (line_of fault.now) err.old err.new }
{
    let status = complain(fault, err);
    explain_fault(fault, subject, err);
    status
}
