//! The subcommands that read a text: `sim` for scripts, `audit` for traces.
ghost use Rattle.std.specs.{Io.KnownBytes.Appends, Prelude.{◌≡◌, ◌≢◌, List, ℕ, IfErr, IfOk}};
ghost use Rattle.tp_cli.specs.Texts.{IsAnswerTo, IsUnansweredText};

use std::alloc::Global;
use std::io::{Read, Write};
use tp_text::{TextFault, Verdict, audit, sim};

/// The kinds of texts that are read.
#[derive(Clone, Copy, Debug, PartialEq, Eq)]
pub(crate) enum TextKind {
    /// A script: the reply has a line for each step.
    Script,
    /// A trace: the reply is a judgement.
    Trace,
}

impl TextKind {
    /// Reads a text of this kind to its end, and writes the reply.
    pub(crate) fn answer<I: Read, O: Write>(
        self,
        alloc: Global,
        reader: &mut I,
        out: &mut O,
    ) -> Result<Verdict, TextFault>
        ensures ok { IfOk result (λ verdict. (text : List ℕ)
            × IsAnswerTo self (I.remaining reader.old) (I.remaining reader.new) verdict text
            × Appends (O.contents out.old) (O.contents out.new) text) }
        ensures why { IfErr result (IsUnansweredText self (I.remaining reader.old) (I.remaining reader.new)) }
        ensures unwritten { IfErr result (λ fault. fault ≢ TextFault.Write → out.new ≡ out.old) }
    {
        match self {
            TextKind::Script => sim(alloc, reader, out),
            TextKind::Trace => audit(alloc, reader, out),
        }
    }
}
