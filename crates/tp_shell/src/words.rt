//! What happens if arguments make no request: help or the version is shown, or they are at fault.
ghost use Rattle.clap.specs.Values.{kind_of};
ghost use Rattle.std.specs.{Io.KnownBytes.Appends, Prelude.{◌≡◌, ◌≢◌, ◌++◌, IfErr, IfOk, IfSome, OnOk, codes}, String.string_bytes};
ghost use Rattle.tp_shell.specs.{Command.{IsMetBy, IsToBeShown}, Streams.HasShown, Texts.{HasShownText, HasTextOf, IsLineOf, words_line}};

use crate::diagnostics::Diagnostics;
use clap::Error;
use clap::error::ErrorKind;
use std::alloc::{AllocError, Global};
use std::fmt::Display;
use std::io::{self, Write};

/// Why arguments make no request, and nothing is shown for them.
#[derive(Drop)]
pub enum WordsFault {
    /// The arguments are at fault. This is the parser's message, without the line feed at its end.
    Words(String),
    /// An allocation failed.
    Memory,
    /// Help or the version was asked for, and could not be written.
    Write,
}

/// Prints the error line of arguments that make no request.
pub fn tell_words<E: Diagnostics>(fault: &WordsFault, err: &mut E)
    ensures { E.tells err.old (words_line fault.now) err.new }
{
    match fault {
        WordsFault::Words(text) => err.tell_parts(&[text.as_str(), "\n"]),
        WordsFault::Memory => err.tell("refused 17 NoMemory\n"),
        WordsFault::Write => err.tell("fault write\n"),
    }
}

/// Returns whether this is the parser's message about an argument too many that is no option, such as the name of a file.
pub fn names_a_file(message: &str) -> bool {
    let unexpected = message.strip_prefix("error: unexpected argument '");
    matches!(unexpected, Some(argument) if !argument.starts_with('-'))
}

/// A parser's error: why arguments make no request, and a text that is shown or printed.
///
/// clap's contracts say nothing about that text. In code that is generic over this trait, it can only come from
/// formatting the error.
pub trait ParserError: Display {
    ghost use Rattle.clap.specs.declared.error.kind.ErrorKind.{ErrorKind};

    // why the arguments make no request
    ghost kind_of: { Self → ErrorKind };

    /// Returns why the arguments make no request.
    fn reason(&self) -> ErrorKind
        ensures { result ≡ kind_of self.now };
}

impl ParserError for Error {
    ghost kind_of = { kind_of };

    fn reason(&self) -> ErrorKind {
        self.kind()
    }
}

/// Shows help or the version if the arguments asked for it, and else returns what is wrong with them.
pub fn show<E: ParserError, O: Write>(
    alloc: Global,
    error: &E,
    out: &mut O,
) -> Result<(), WordsFault>
    ensures shown { OnOk result (IsToBeShown (E.kind_of error.now) × HasShown (O.contents out.old) (O.contents out.new)) }
    ensures text { OnOk result (HasShownText (E.Display.output error.now) (O.contents out.old) (O.contents out.new)) }
    ensures why { IfErr result (IsMetBy (E.kind_of error.now)) }
    ensures line { IfErr result (HasTextOf (E.Display.output error.now)) }
    ensures unwritten { IfErr result (λ fault. fault ≢ WordsFault.Write → out.new ≡ out.old) }
{
    match error.reason() {
        ErrorKind::OutOfMemory => Err(WordsFault::Memory),
        ErrorKind::DisplayHelp | ErrorKind::DisplayVersion => show_text(alloc, error, out),
        _ => Err(words_fault(alloc, error)),
    }
}

/// Shows help or the version.
fn show_text<E: ParserError, O: Write>(
    alloc: Global,
    error: &E,
    out: &mut O,
) -> Result<(), WordsFault>
    requires { IsToBeShown (E.kind_of error.now) }
    ensures shown { OnOk result (IsToBeShown (E.kind_of error.now) × HasShown (O.contents out.old) (O.contents out.new)) }
    ensures text { OnOk result (HasShownText (E.Display.output error.now) (O.contents out.old) (O.contents out.new)) }
    ensures why { IfErr result (IsMetBy (E.kind_of error.now)) }
    ensures line { IfErr result (HasTextOf (E.Display.output error.now)) }
    ensures unwritten { IfErr result (λ fault. fault ≢ WordsFault.Write → out.new ≡ out.old) }
{
    let text = match text_of(alloc, error) {
        Ok(text) => text,
        Err(_) => return Err(WordsFault::Memory),
    };
    match write_line(out, &text) {
        Ok(()) => Ok(()),
        Err(_) => Err(WordsFault::Write),
    }
}

/// Returns what is wrong with the arguments.
fn words_fault<D: Display>(alloc: Global, error: &D) -> WordsFault
    ensures text { HasTextOf (D.output error.now) result }
    ensures other { result ≢ WordsFault.Write }
{
    match text_of(alloc, error) {
        Ok(text) => WordsFault::Words(text),
        Err(_) => WordsFault::Memory,
    }
}

/// Returns the parser's message, without the line feed at its end.
fn text_of<D: Display>(alloc: Global, error: &D) -> Result<String, AllocError>
    ensures { IfOk result (λ line. IfSome (D.output error.now) (λ text. IsLineOf text (string_bytes line))) }
{
    Ok(without_feed(format!(in alloc; "{error}")?))
}

/// Returns a text without the line feed at its end.
fn without_feed(mut text: String) -> String
    ensures { IsLineOf (string_bytes text) (string_bytes result) }
{
    if !text.ends_with('\n') {
        return text;
    }
    text.pop();
    text
}

/// Writes a text and a line feed.
fn write_line<O: Write>(out: &mut O, text: &str) -> io::Result<()>
    ensures { OnOk result (Appends (O.contents out.old) (O.contents out.new) (text.now ++ codes "\n")) }
{
    writeln!(out, "{text}")?;
    out.flush()
}
