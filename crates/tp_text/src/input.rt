//! Reading a whole text, within limits of bytes and reads.
ghost use Rattle.std.specs.{Io.KnownBytes.{Consumes, IsAtEnd}, Prelude.{◌≡◌, ◌+◌, ◌≤◌, ℕ, List, length, IfOk, IsErrOf}};
ghost use Rattle.tp_text.specs.Input.{ReadsAll};

use crate::fault::TextFault;
use std::alloc::Global;
use std::io::{ErrorKind, Read};

/// The most bytes that a text may have.
pub const MAX_TEXT: usize = 33_554_432;

/// The most reads for one text.
pub const MAX_READS: u64 = 67_108_864;

/// The most bytes of one read. They are on the stack.
const PIECE: usize = 4_096;

/// Reads to the end, and returns the bytes. An interrupted read is tried again.
///
/// Fails with `Memory` if an allocation fails; `TooLong` if there are more than 33,554,432 bytes; `Read` if a read
/// fails, or if 67,108,864 reads did not reach the end.
pub(crate) fn read_text<R: Read>(alloc: Global, reader: &mut R) -> Result<Vec<u8>, TextFault>
    ensures whole { IfOk result (λ text. ReadsAll (R.remaining reader.old) (R.remaining reader.new) text.items) }
    ensures fits { IfOk result (λ text. length text.items ≤ MAX_TEXT) }
    // One byte more than the limit was read.
    ensures too_long { IsErrOf result TextFault.TooLong →
        (bytes : List ℕ) × Consumes (R.remaining reader.old) (R.remaining reader.new) bytes × (length bytes ≡ MAX_TEXT + 1) }
    ensures unwritten { IsErrOf result TextFault.Write → ⊥ }
{
    let mut text = Vec::new(alloc);
    let mut piece = [0; PIECE];
    for _ in 0..MAX_READS {
        let left = MAX_TEXT + 1 - text.len();
        let size = left.min(piece.len());
        match reader.read(&mut piece[..size]) {
            Ok(0) => return Ok(text),
            Ok(count) => {
                text.extend_from_slice(&piece[..count])
                    .map_err(|_| TextFault::Memory)?;
                if text.len() > MAX_TEXT {
                    return Err(TextFault::TooLong);
                }
            }
            Err(error) if error.kind() == ErrorKind::Interrupted => {}
            Err(_) => return Err(TextFault::Read),
        }
    }
    Err(TextFault::Read)
}
