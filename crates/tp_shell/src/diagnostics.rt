//! Diagnostics: where a program prints its error lines, and the faults that have such a line.
ghost use Rattle.std.specs.{Io.KnownBytes.Appends, List.concat, Prelude.{◌≡◌, ℕ, List, IsTrue, OnOk, map}};
ghost use Rattle.tp_shell.specs.Streams.{IsBegunTo};

use crate::status::Status;
use std::io::{self, ErrorKind, Write};

/// A stream for error lines, such as standard error.
///
/// In code that is generic over it, the only way to establish `tells` is to call `tell` with exactly that text: a body
/// that prints another text, or none, or one more, cannot be proved.
pub trait Diagnostics {
    // Relates the stream before a text was printed, the text, and the stream after it. Printing may have failed.
    ghost tells: { Self → List ℕ → Self → Type 0 };

    // Relates them if all of the text was printed.
    ghost prints: { Self → List ℕ → Self → Type 0 };

    /// Prints a text, which is given by its parts in order, and returns whether all of it was printed.
    fn try_tell(&mut self, parts: &[&str]) -> bool
        ensures written { tells self.old (concat (map (λ part. part.now) parts.now)) self.new }
        ensures whole { IsTrue result → prints self.old (concat (map (λ part. part.now) parts.now)) self.new };

    /// Prints a text, which is given by its parts in order. Whether all of it was printed is not returned.
    final fn tell_parts(&mut self, parts: &[&str])
        ensures { tells self.old (concat (map (λ part. part.now) parts.now)) self.new }
    {
        let _ = self.try_tell(parts);
    }

    /// Prints a text. Whether all of it was printed is not returned.
    final fn tell(&mut self, text: &str)
        ensures { tells self.old text.now self.new }
    {
        self.tell_parts(&[text]);
    }
}

// A writer has a beginning of the text, and nothing else.
impl<W: Write> Diagnostics for W {
    ghost tells = { λ old text new. IsBegunTo (W.contents old) (W.contents new) text };

    ghost prints = { λ old text new. Appends (W.contents old) (W.contents new) text };

    fn try_tell(&mut self, parts: &[&str]) -> bool {
        try_to_write(self, parts).is_ok()
    }
}

/// Writes the parts of a text, one after the other, up to the first that the writer does not take, and returns the
/// writer's own result.
fn try_to_write<W: Write>(writer: &mut W, parts: &[&str]) -> io::Result<()>
    ensures begun { IsBegunTo (W.contents writer.old) (W.contents writer.new) (concat (map (λ part. part.now) parts.now)) }
    ensures whole { OnOk result (Appends (W.contents writer.old) (W.contents writer.new) (concat (map (λ part. part.now) parts.now))) }
{
    for part in parts {
        try_to_write_part(writer, part.as_bytes())?;
    }
    Ok(())
}

/// Writes a text, or a beginning of it, and returns the writer's own result. An interrupted write is retried.
fn try_to_write_part<W: Write>(writer: &mut W, text: &[u8]) -> io::Result<()>
    ensures begun { IsBegunTo (W.contents writer.old) (W.contents writer.new) text.now }
    ensures whole { OnOk result (Appends (W.contents writer.old) (W.contents writer.new) text.now) }
{
    let mut written = 0;
    for _ in 0..u64::MAX {
        if written >= text.len() {
            return Ok(());
        }
        match writer.write(&text[written..]) {
            Ok(0) => return Err(io::Error::from(ErrorKind::WriteZero)),
            Ok(count) => written += count,
            Err(error) if error.kind() == ErrorKind::Interrupted => {}
            Err(error) => return Err(error),
        }
    }
    Err(io::Error::from(ErrorKind::Interrupted))
}

/// A fault of a program: its error line, and its exit status.
pub trait ProgramFault {
    ghost use Rattle.tp_shell.specs.declared.status.Status.{Status};

    // the error line
    ghost line_of: { Self → List ℕ };

    // the exit status
    ghost status_of: { Self → Status };

    /// Prints the error line.
    fn tell<E: Diagnostics>(&self, err: &mut E)
        ensures { E.tells err.old (line_of self.now) err.new };

    /// Returns the exit status.
    fn status(&self) -> Status
        ensures { result ≡ status_of self.now };
}

/// Prints the error line of a fault, and returns its exit status.
pub fn complain<F: ProgramFault, E: Diagnostics>(fault: &F, err: &mut E) -> Status
    ensures status { result ≡ F.status_of fault.now }
    ensures written { E.tells err.old (F.line_of fault.now) err.new }
{
    fault.tell(err);
    fault.status()
}
