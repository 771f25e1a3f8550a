//! The auditor, which takes the lines of a trace one by one with a core of its own. Parsing is not here.
ghost use Rattle.std.specs.Prelude.{◌≡◌, ◌+◌, ◌≤◌, ◌++◌, ◌∷◌, [], ℕ, List, length, reverse, take, is_some, ◌↔◌, IfErr, IfOk, IsTrue, OnOk};
ghost use Rattle.std.specs.Prelude.{MatchOption};
ghost use Rattle.tp_base.specs.declared.limits.TheConstants.{MAX_NODES};
ghost use Rattle.tp_text.specs.{AuditText.{flaw_line, summary}, Trace.IsWritten};
ghost use Rattle.tp_text.specs.declared.version.Version.{Version};

use crate::account::Account;
use crate::fault::TextFault;
use crate::printing::{push_count, push_refusal};
use crate::traced::TraceLine;
use crate::verdict::Verdict;
use crate::version::Version;
use std::alloc::{AllocError, Global};
use tp_base::{Refusal, Step};
use tp_core::{Core, Reply};

/// What is wrong with a line that matches the grammar.
#[derive(Clone, Copy)]
pub(crate) enum Flaw {
    /// Its step is refused.
    Refused(Refusal),
    /// It is a judgement line with a wrong claim.
    Unjustified,
}

/// Takes the lines of a trace in order, with a core of its own, up to the first flaw.
#[derive(Drop)]
pub(crate) struct Auditor {
    core: Core,
    account: Account,
    // the number and the flaw of the first flawed line
    flaw: Option<(u64, Flaw)>,
    // the core keeps a list of its steps
    ghost listed: { IsTrue core.recorded },
}

impl Auditor {
    ghost use Rattle.tp_text.specs.Auditing.{Claims, Knows};

    /// Returns an auditor of `nodes` nodes, 1 to 8, which has taken no line. It allocates nothing.
    pub(crate) fn new(alloc: Global, nodes: u32) -> Auditor
        requires { (1 ≤ nodes) × (nodes ≤ MAX_NODES) }
        ensures { Knows nodes [] result }
    {
        Auditor {
            core: Core::new(alloc, nodes),
            account: Account::new(),
            flaw: None,
        }
    }

    /// Takes the next line, which has this number. After a flaw, nothing changes. Fails with `Memory` if an allocation
    /// fails.
    pub(crate) fn take(&mut self, line: TraceLine, number: u64) -> Result<(), TextFault>
        requires { (n : ℕ) × (lines : List TraceLine) × Knows n lines self.old }
        ensures ok { (v : Version) (n : ℕ) (lines : List TraceLine) → Knows n lines self.old → IsWritten v line → number ≡ length lines + 3
            → OnOk result (Knows n (line ∷ lines) self.new) }
        ensures err { IfErr result (λ fault. fault ≡ TextFault.Memory) }
    {
        if self.flaw.is_some() {
            return Ok(());
        }
        let answer = self.core.step(line.step());
        if answer == Err(Refusal::NoMemory) {
            return Err(TextFault::Memory);
        }
        match answer {
            Err(refusal) => self.flaw = Some((number, Flaw::Refused(refusal))),
            Ok(reply) if Auditor::claims(line, reply) => self.account = self.account.with(line),
            Ok(_) => self.flaw = Some((number, Flaw::Unjustified)),
        }
        Ok(())
    }

    /// Returns whether a line claims nothing, or exactly what the core replied to its step.
    fn claims(line: TraceLine, reply: Reply) -> bool
        ensures { IsTrue result ↔ Claims line reply }
    {
        match line {
            TraceLine::Plain(_) => true,
            TraceLine::Judged(None) => reply == Reply::Not,
            TraceLine::Judged(Some(wave)) => reply == Reply::Over(wave),
        }
    }

    /// Returns whether a line was flawed.
    pub(crate) fn is_flawed(&self) -> bool
        ensures { result ≡ is_some self.now.flaw }
    {
        self.flaw.is_some()
    }

    /// Returns the steps of the lines before the first flawed one, oldest first. Refused if an allocation fails.
    pub(crate) fn steps(&self, alloc: Global) -> Result<Vec<Step>, AllocError>
        requires { self.now.account.steps ≤ length self.now.core.steps }
        ensures { IfOk result (λ steps. steps.items ≡ take self.now.account.steps (reverse self.now.core.steps)) }
    {
        // The core has also accepted the step of a judgement line with a wrong claim.
        let sound = self.account.lines() as usize;
        let taken = self.core.steps();
        let mut steps = Vec::new(alloc);
        steps.extend_from_slice(&taken[..sound])?;
        Ok(steps)
    }

    /// Returns the verdict and the reply: the account of the lines, or the line that reports the first flaw. Refused if
    /// an allocation fails.
    pub(crate) fn answer(
        &self,
        version: Version,
        alloc: Global,
    ) -> Result<(Verdict, Vec<u8>), AllocError>
        ensures { IfOk result (λ answer. MatchOption self.now.flaw
            ((answer.0 ≡ Verdict.Sound) × (answer.1.items ≡ summary version self.now.account))
            (λ found. (answer.0 ≡ Verdict.Refused) × (answer.1.items ≡ flaw_line found.0 found.1))) }
    {
        let mut out = Vec::new(alloc);
        match self.flaw {
            None => {
                self.account.push(version, &mut out)?;
                Ok((Verdict::Sound, out))
            }
            Some((number, flaw)) => {
                push_flaw(&mut out, number, flaw)?;
                Ok((Verdict::Refused, out))
            }
        }
    }
}

/// Appends the line that reports the first flaw.
fn push_flaw(out: &mut Vec<u8>, number: u64, flaw: Flaw) -> Result<(), AllocError>
    ensures { OnOk result (out.new.items ≡ out.old.items ++ flaw_line number flaw) }
{
    push_count(out, b"line ", number)?;
    out.extend_from_slice(b" ")?;
    match flaw {
        Flaw::Refused(refusal) => push_refusal(out, refusal),
        Flaw::Unjustified => out.extend_from_slice(b"unjustified\n"),
    }
}
