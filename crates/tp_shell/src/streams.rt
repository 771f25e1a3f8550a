//! Reading all of an input, and writing a text.
ghost use Rattle.std.specs.{Io.KnownBytes.Appends, Prelude.{◌≡◌, ℕ, List, MatchResult, OnOk, ⊤}};
ghost use Rattle.tp_shell.specs.Streams.{ReadsAll};

use std::alloc::Global;
use std::io::{self, ErrorKind, Read, Write};

/// Why the input was not read to its end.
#[derive(Clone, Copy, Debug, PartialEq, Eq)]
pub enum ReadFault {
    /// The reader failed.
    Failed,
    /// An allocation failed.
    Memory,
}

/// An input of a program, such as standard input.
///
/// In code that is generic over it, only a call of `read_all` shows that all was read, or that it could not be.
pub trait Source {
    ghost use Rattle.tp_shell.specs.declared.streams.ReadFault.{ReadFault};

    // Relates the input before, bytes, and the input after all was read and these were all there were.
    ghost gives: { Self → List ℕ → Self → Type 0 };

    // Relates the input before, a fault, and the input after reading failed with this fault.
    ghost fails: { Self → ReadFault → Self → Type 0 };

    /// Reads the input to its end, and returns its bytes.
    fn read_all(&mut self, alloc: Global) -> Result<Vec<u8>, ReadFault>
        ensures { MatchResult result (λ bytes. gives self.old bytes.items self.new) (λ fault. fails self.old fault self.new) };
}

// Nothing is known of a reader that failed.
impl<I: Read> Source for I {
    ghost gives = { λ old bytes new. ReadsAll (I.remaining old) (I.remaining new) bytes };

    ghost fails = { λ old fault new. ⊤ };

    fn read_all(&mut self, alloc: Global) -> Result<Vec<u8>, ReadFault> {
        let mut bytes = Vec::new(alloc);
        match self.read_to_end(&mut bytes) {
            Ok(_) => Ok(bytes),
            Err(error) => Err(read_fault(error.kind())),
        }
    }
}

/// Returns the fault for this kind of error.
fn read_fault(kind: ErrorKind) -> ReadFault
    ensures memory { kind ≡ ErrorKind.OutOfMemory → result ≡ ReadFault.Memory }
    ensures other { result ≡ ReadFault.Memory → kind ≡ ErrorKind.OutOfMemory }
{
    match kind {
        ErrorKind::OutOfMemory => ReadFault::Memory,
        _ => ReadFault::Failed,
    }
}

/// Writes a text and nothing else, and flushes.
pub fn write_text<O: Write>(out: &mut O, text: &[u8]) -> io::Result<()>
    ensures { OnOk result (Appends (O.contents out.old) (O.contents out.new) text.now) }
{
    out.write_all(text)?;
    out.flush()
}
