//! The faults of the program, with their error lines and exit statuses.
ghost use Rattle.std.specs.Prelude.{◌≡◌};
ghost use Rattle.tp_cli.specs.Faults.{line_of, refusal_line, refusal_of, status_of, text_line};

use itoa::Buffer;
use tp_base::Refusal;
use tp_shell::{Diagnostics, ProgramFault, Status, WordsFault, tell_words};
use tp_text::TextFault;

/// Why the program did not do what its arguments ask for.
#[derive(Drop)]
pub(crate) enum Fault {
    /// The arguments make no request, and nothing was shown for them.
    Words(WordsFault),
    /// There is no reply to a script or a trace.
    Text(TextFault),
    /// The specification names no pool.
    NoPool,
    /// The specifications of several pools are refused, with this.
    InVain(Refusal),
    /// The file for the profile of a run could not be opened.
    Profile,
    /// There is no text of the run of a pool.
    Run(RunFault),
    /// An allocation failed for the runs of several pools, or for their text.
    Memory,
    /// The text could not be written; an unknown part of it was.
    Write,
}

/// Why there is no text of the run of a pool.
#[derive(Drop)]
pub(crate) enum RunFault {
    /// The run was refused: this is its own fault.
    Pool(tp_work::Fault),
    /// The run ended, but there is no text of it, for this refusal.
    Text(Refusal),
}

impl RunFault {
    /// Returns the refusal whose line is printed.
    pub(crate) fn refusal(&self) -> Refusal
        ensures { result ≡ refusal_of self.now }
    {
        match self {
            RunFault::Pool(fault) => fault.refusal,
            RunFault::Text(refusal) => *refusal,
        }
    }
}

impl ProgramFault for Fault {
    ghost line_of = { line_of };

    ghost status_of = { status_of };

    fn tell<E: Diagnostics>(&self, err: &mut E) {
        match self {
            Fault::Words(fault) => tell_words(fault, err),
            Fault::Text(fault) => err.tell(text_line(*fault)),
            Fault::NoPool => tell_refusal(Refusal::BadSpec, err),
            Fault::InVain(refusal) => tell_refusal(*refusal, err),
            Fault::Run(fault) => tell_refusal(fault.refusal(), err),
            Fault::Memory => tell_refusal(Refusal::NoMemory, err),
            Fault::Profile | Fault::Write => err.tell(text_line(TextFault::Write)),
        }
    }

    fn status(&self) -> Status {
        match self {
            Fault::Words(WordsFault::Memory) | Fault::Text(TextFault::Memory) => Status::Failed,
            Fault::Run(_) | Fault::Memory => Status::Failed,
            _ => Status::Fault,
        }
    }
}

/// Returns the error line of a text without a reply.
fn text_line(fault: TextFault) -> &'static str
    ensures { result.now ≡ text_line fault }
{
    match fault {
        TextFault::Read => "fault read\n",
        TextFault::TooLong => "fault too long\n",
        TextFault::Write => "fault write\n",
        TextFault::Memory => "refused 17 NoMemory\n",
    }
}

fn tell_refusal<E: Diagnostics>(refusal: Refusal, err: &mut E)
    ensures { E.tells err.old (refusal_line refusal) err.new }
{
    let mut digits = Buffer::new();
    let number = digits.format(refusal.number());
    err.tell_parts(&["refused ", number, " ", refusal.name(), "\n"]);
}
