//! The accesses of a task as C passes them.
ghost use Rattle.gerfmuod.specs.Part.{access_of, is_access};
ghost use Rattle.std.specs.{List.list_all, Prelude.{◌≡◌, ℕ, map, OnOk}};

use std::alloc::AllocError;
use tp_flow::{Access, Handle, Mode};

/// A handle that a task accesses, and the number of the mode: 1 to read, 2 to write, 3 to update.
#[repr(C)]
#[derive(Clone, Copy, Debug, PartialEq, Eq)]
pub struct RawAccess {
    pub handle: u32,
    pub mode: u32,
}

const _: () = prove!(size_of::<RawAccess>() == 8);

fn is_access(handles: usize, raw: RawAccess) -> bool
    ensures { result ≡ is_access handles raw }
{
    1 <= raw.mode && raw.mode <= 3 && (raw.handle as usize) < handles
}

/// Returns whether each mode is one, and each handle is below `handles`.
pub(crate) fn are_accesses(handles: usize, raw: &[RawAccess]) -> bool
    ensures { result ≡ list_all (is_access handles) raw.now }
{
    raw.iter().all(|access| is_access(handles, *access))
}

fn access_of(raw: RawAccess) -> Access
    ensures { result ≡ access_of raw }
{
    Access {
        handle: Handle(raw.handle),
        mode: match raw.mode {
            1 => Mode::Read,
            2 => Mode::Write,
            _ => Mode::Update,
        },
    }
}

/// Writes the accesses over those that were there.
pub(crate) fn decode(raw: &[RawAccess], accesses: &mut Vec<Access>) -> Result<(), AllocError>
    ensures { OnOk result (accesses.new.items ≡ map access_of raw.now) }
{
    accesses.clear();
    for access in raw {
        accesses.push(access_of(*access))?;
    }
    Ok(())
}
