//! The arguments of the command line, and what the environment asks for.
ghost use Rattle.std.specs.{Prelude.{◌≡◌, ◌≢◌, ℕ, List, ⊤, IfOk, codes, map}, String.string_bytes};

use crate::status::Status;
use std::alloc::{AllocError, Global};
use std::env::{self, Env};
use std::io::{self, ErrorKind};

/// What has the arguments of a command line, such as a process.
///
/// In code that is generic over it, only a call of `all_arguments` shows what they are.
pub trait HasArguments {
    // Its arguments are these, as the bytes of their UTF-8.
    ghost has: { Self → List (List ℕ) → Type 0 };

    /// Returns the arguments of the command line.
    fn all_arguments(&self) -> io::Result<Vec<String>>
        ensures { IfOk result (λ arguments. has self.now (map string_bytes arguments.items)) };
}

// std says nothing of a process's arguments.
impl<R: Env + AllocGlobal> HasArguments for R {
    ghost has = { λ holder texts. ⊤ };

    fn all_arguments(&self) -> io::Result<Vec<String>> {
        Ok(env::args(self)?.collect(self.alloc())?)
    }
}

/// Returns the arguments of the command line, beginning with the program's own name. Refused with `OutOfMemory` if
/// there is no memory for them, and with another kind if an argument is not UTF-8.
pub fn arguments<R: HasArguments>(rt: &R) -> Result<Vec<String>, ErrorKind>
    ensures { IfOk result (λ arguments. R.has rt.now (map string_bytes arguments.items)) }
{
    rt.all_arguments().map_err(|error| error.kind())
}

/// Returns the arguments as borrowed texts. Refused if an allocation fails.
pub fn words_of(alloc: Global, arguments: &[String]) -> Result<Vec<&str>, AllocError>
    ensures { IfOk result (λ words. map (λ word. word.now) words.items ≡ map string_bytes arguments.now) }
{
    let mut words = Vec::with_capacity(alloc, arguments.len())?;
    for argument in arguments {
        words.push(argument.as_str())?;
    }
    Ok(words)
}

/// Returns the error line and the exit status for arguments that could not be read: an allocation failed, or one of
/// them is not UTF-8.
pub fn without_words(fault: ErrorKind) -> (&'static str, u8)
    ensures memory { fault ≡ ErrorKind.OutOfMemory → (result.0.now ≡ codes "refused 17 NoMemory\n") × (result.1 ≡ 3) }
    ensures words { fault ≢ ErrorKind.OutOfMemory → (result.0.now ≡ codes "fault words\n") × (result.1 ≡ 1) }
{
    match fault {
        ErrorKind::OutOfMemory => ("refused 17 NoMemory\n", Status::Failed.code()),
        _ => ("fault words\n", Status::Fault.code()),
    }
}

/// Returns whether these arguments ask for the version of a subcommand, for which the program's own is shown.
pub fn asks_version(words: &[&str]) -> bool {
    let options = words.iter().skip(2);
    options
        .filter(|word| matches!(**word, "--version" | "-V"))
        .count()
        > 0
}

/// Returns whether the environment asks for exact lines alone: for no reasons, no prompts and no progress.
pub fn is_quiet<R: Env + AllocGlobal>(rt: &R) -> bool {
    env::var(rt, "GERFMUOD_QUIET").is_ok()
}
