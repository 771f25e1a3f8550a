//! The account of a trace: the sums over its lines, and the lines that `audit` writes for them.
ghost use Rattle.std.specs.Prelude.{◌≡◌, ◌≢◌, ◌<◌, ◌++◌, ◌∷◌, [], ℕ, List, length, codes, decimal, OnOk};
ghost use Rattle.tp_base.specs.declared.{Step.{Step, TheVariants.Judge}, limits.TheConstants.MAX_STEPS};
ghost use Rattle.tp_text.specs.{AuditText.{account, end_words, generation_lines, step_in, summary, IsJustified}, Spelling.line};
ghost use Rattle.tp_text.specs.{Trace.IsWritten, declared.version.Version.Version};

use crate::printing::push_count;
use crate::traced::TraceLine;
use crate::version::Version;
use std::alloc::AllocError;
use tp_base::Step;

/// The sums over the lines of a trace.
#[derive(Clone, Copy)]
pub(crate) struct Account {
    steps: u32,
    // tasks inserted, and tasks done
    tasks: u32,
    done: u32,
    // messages sent, and messages received
    messages: u32,
    received: u32,
    // the number of the present generation
    generation: u32,
    // W if the last judgement in it is `ended W`
    ended: Option<u32>,
}

impl Account {
    pub(crate) fn new() -> Account
        ensures { (n : ℕ) → result ≡ account n [] }
    {
        Account {
            steps: 0,
            tasks: 0,
            done: 0,
            messages: 0,
            received: 0,
            generation: 1,
            ended: None,
        }
    }

    /// Returns the number of lines.
    pub(crate) fn lines(self) -> u32
        ensures { result ≡ self.steps }
    {
        self.steps
    }

    /// Returns the account with one more line.
    pub(crate) fn with(self, line: TraceLine) -> Account
        requires { (n : ℕ) × (past : List Step) × (self ≡ account n past) × (length past < MAX_STEPS) }
        ensures { (v : Version) (n : ℕ) (past : List Step) → self ≡ account n past → IsWritten v line → IsJustified n past line
            → result ≡ account n (step_in line ∷ past) }
    {
        match line {
            TraceLine::Plain(step) => self.with_step(step),
            TraceLine::Judged(wave) => Account {
                steps: self.steps + 1,
                ended: wave,
                ..self
            },
        }
    }

    /// Returns the account with one more step, which is no judgement.
    fn with_step(self, step: Step) -> Account
        requires { (n : ℕ) × (past : List Step) × (self ≡ account n past) × (length past < MAX_STEPS) }
        ensures { (n : ℕ) (past : List Step) → self ≡ account n past → step ≢ Judge → result ≡ account n (step ∷ past) }
    {
        let more = Account {
            steps: self.steps + 1,
            ..self
        };
        match step {
            Step::Insert(_, _, _) => Account {
                tasks: self.tasks + 1,
                ..more
            },
            Step::Done(_) => Account {
                done: self.done + 1,
                ..more
            },
            Step::Send(_, _, _, _) => Account {
                messages: self.messages + 1,
                ..more
            },
            Step::Recv(_, _, _) => Account {
                received: self.received + 1,
                ..more
            },
            // The last judgement was about the generation before. All other counts continue.
            Step::Reopen => Account {
                generation: self.generation + 1,
                ended: None,
                ..more
            },
            _ => more,
        }
    }

    /// Appends the account as four lines, or five in version 2. Refused if an allocation fails.
    pub(crate) fn push(&self, version: Version, out: &mut Vec<u8>) -> Result<(), AllocError>
        ensures { OnOk result (out.new.items ≡ out.old.items ++ summary version self.now) }
    {
        push_count(out, b"steps ", u64::from(self.steps))?;
        out.extend_from_slice(b"\n")?;
        push_pair(out, b"tasks ", self.tasks, b" done ", self.done)?;
        push_pair(
            out,
            b"messages ",
            self.messages,
            b" received ",
            self.received,
        )?;
        push_generation(version, out, self.generation)?;
        push_end(out, self.ended)
    }
}

/// Appends the line for the number of the generation, if the version has one.
fn push_generation(version: Version, out: &mut Vec<u8>, number: u32) -> Result<(), AllocError>
    ensures { OnOk result (out.new.items ≡ out.old.items ++ generation_lines version number) }
{
    match version {
        Version::One => Ok(()),
        Version::Two => {
            push_count(out, b"generation ", u64::from(number))?;
            out.extend_from_slice(b"\n")
        }
    }
}

/// Appends the line `ended W` or `not ended`.
fn push_end(out: &mut Vec<u8>, ended: Option<u32>) -> Result<(), AllocError>
    ensures { OnOk result (out.new.items ≡ out.old.items ++ line (end_words ended)) }
{
    match ended {
        None => out.extend_from_slice(b"not ended\n"),
        Some(wave) => {
            push_count(out, b"ended ", u64::from(wave))?;
            out.extend_from_slice(b"\n")
        }
    }
}

/// Appends a line of two numbers, each after its label.
fn push_pair(
    out: &mut Vec<u8>,
    label: &[u8],
    number: u32,
    other_label: &[u8],
    other: u32,
) -> Result<(), AllocError>
    ensures { OnOk result (out.new.items ≡ out.old.items ++ line (label.now ++ decimal number ++ other_label.now ++ decimal other)) }
{
    push_count(out, label, u64::from(number))?;
    push_count(out, other_label, u64::from(other))?;
    out.extend_from_slice(b"\n")
}
