//! Why nothing was drawn, or not all of it: the line on standard error, and the exit status.

ghost use Rattle.std.specs.Prelude.{◌≡◌};
ghost use Rattle.tp_draw.specs.Faults.{line_of, status_of, text_line};
ghost use Rattle.tp_shell.specs.Streams.{MayExplain};

use std::alloc::AllocError;
use tp_shell::{
    Diagnostics, ProgramFault, Status, WordsFault, explain_spec, names_a_file, tell_words,
};
use tp_text::TextFault;

/// Why nothing was drawn, or not all of it.
#[derive(Drop)]
pub enum Fault {
    /// The arguments make no request, and nothing was shown for them.
    Words(WordsFault),
    /// The trace was not read.
    Text(TextFault),
    /// The trace is not sound: this is the complaint about it.
    Unsound(String),
    /// This specification names no graph.
    NoPool(String),
    /// The graph has more tasks than are written.
    TooLarge,
    /// An allocation failed for the text.
    Memory,
    /// The text could not be written; an unknown part of it was.
    Write,
}

impl From<AllocError> for Fault {
    ghost use Rattle.tp_draw.specs.declared.fault.Fault.TheVariants.{Memory};

    ghost from_gives = { λ _ fault. fault ≡ Memory };

    fn from(_: AllocError) -> Fault {
        Fault::Memory
    }
}

impl ProgramFault for Fault {
    ghost line_of = { line_of };

    ghost status_of = { status_of };

    fn tell<E: Diagnostics>(&self, err: &mut E) {
        match self {
            Fault::Words(fault) => tell_words(fault, err),
            Fault::Text(fault) => err.tell(text_line(*fault)),
            Fault::Unsound(text) => err.tell(text.as_str()),
            Fault::NoPool(_) => err.tell("refused 26 BadSpec\n"),
            Fault::TooLarge => err.tell("fault too large\n"),
            Fault::Memory => err.tell(text_line(TextFault::Memory)),
            Fault::Write => err.tell(text_line(TextFault::Write)),
        }
    }

    fn status(&self) -> Status {
        match self {
            Fault::Words(WordsFault::Words(_) | WordsFault::Write) => Status::Fault,
            Fault::Text(TextFault::Read | TextFault::TooLong | TextFault::Write) => Status::Fault,
            Fault::NoPool(_) | Fault::TooLarge | Fault::Write => Status::Fault,
            Fault::Unsound(_) => Status::Refused,
            Fault::Words(WordsFault::Memory) | Fault::Text(TextFault::Memory) => Status::Failed,
            Fault::Memory => Status::Failed,
        }
    }
}

impl Fault {
    /// Prints why, if there is more to say than the error line does. The arguments begin with the program's own name.
    pub(crate) fn explain<E: Diagnostics>(&self, words: &[&str], err: &mut E)
        ensures { MayExplain E.tells err.old err.new }
    {
        match self {
            Fault::NoPool(spec) => explain_spec(spec, err),
            Fault::TooLarge => err.tell("reason: a graph of more than 2,000 tasks is not drawn\n"),
            Fault::Words(WordsFault::Words(text)) if names_a_file(text) => {
                if let [_, "run", ..] = words {
                    err.tell("reason: reads standard input: samples draw run < FILE\n");
                }
            }
            _ => {}
        }
    }
}

/// Returns the error line of a trace that was not read.
fn text_line(fault: TextFault) -> &'static str
    ensures { result.now ≡ text_line fault }
{
    match fault {
        TextFault::Read => "fault read\n",
        TextFault::TooLong => "fault too long\n",
        TextFault::Write => "fault write\n",
        TextFault::Memory => "refused 17 NoMemory\n",
    }
}
