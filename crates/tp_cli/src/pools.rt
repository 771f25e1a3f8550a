//! The subcommand `pools`: runs several pools at once.
ghost use Rattle.pool_samples.specs.declared.any.AnyGraph.{AnyGraph};
ghost use Rattle.std.specs.{Io.KnownBytes.Appends, List.list_all};
ghost use Rattle.std.specs.Prelude.{◌≡◌, Bool, List, ℕ, IfErr, IfOk, MatchResult, false, length, map};
ghost use Rattle.std.specs.{Result.is_ok, String.string_bytes};
ghost use Rattle.tp_base.specs.{Refusals.{name_of, number_of}, declared.refusal.Refusal.TheVariants.NoMemory};
ghost use Rattle.tp_cli.specs.Pools.{AreNamed, IsPoolsFault, IsPoolsText, IsWordsFault, pool_line, pool_lines, pools_of, status_of_pools};
ghost use Rattle.tp_cli.specs.{Ends.is_unwritten, Pools.word_fault, Registry.AreRunAnswers};
ghost use Rattle.tp_work.specs.Outcomes.{IsWithinLimits};

use crate::fault::Fault;
use crate::registry::Registry;
use crate::runs::run_pools;
use std::alloc::{AllocError, Global};
use std::io::Write;
use std::sync::Wait;
use std::thread::Threads;
use tp_base::{MAX_POOLS, Refusal};
use tp_shell::{Status, write_text};
use tp_work::{Config, OpenGate, Outcome};

/// Runs the pools of the specifications all at once, and writes a line for each, in the order of the arguments. Nothing
/// is written before all runs have ended. Returns the status by whether each pool ended without a fault.
pub(crate) fn run_several<O: Write, R: Threads + Wait + Sync>(
    rt: &R,
    alloc: Global,
    words: &[&str],
    config: Config,
    out: &mut O,
) -> Result<Status, Fault>
    requires { IsWithinLimits config }
    ensures ran { IfOk result (λ status. (text : List ℕ)
        × ((each_ended : Bool) × (status ≡ status_of_pools each_ended) × IsPoolsText (map (λ w. w.now) words.now) config each_ended text)
        × Appends (O.contents out.old) (O.contents out.new) text) }
    ensures why { IfErr result (IsPoolsFault (map (λ w. w.now) words.now) config) }
    ensures unwritten { IfErr result (λ fault. is_unwritten fault ≡ false → out.new ≡ out.old) }
{
    let registry = registry_of(alloc, words)?;
    let answers = match answers_of(rt, alloc, registry, config) {
        Ok(answers) => answers,
        Err(_) => return Err(Fault::Memory),
    };
    let text = match text_of_pools(alloc, words, &answers) {
        Ok(text) => text,
        Err(_) => return Err(Fault::Memory),
    };
    match write_text(out, &text) {
        Ok(()) => Ok(status_of_pools(each_ended(&answers))),
        Err(_) => Err(Fault::Write),
    }
}

/// Returns the status of several pools that were run, by whether each ended without a fault.
fn status_of_pools(each_ended: bool) -> Status
    ensures { result ≡ status_of_pools each_ended }
{
    if each_ended {
        Status::Done
    } else {
        Status::Failed
    }
}

/// Returns whether each run ended without a fault.
fn each_ended(answers: &[Result<Outcome, tp_work::Fault>]) -> bool
    ensures { result ≡ list_all is_ok answers.now }
{
    answers.iter().all(|answer| answer.is_ok())
}

/// Returns the registry with the pools of the specifications, each registered under its specification. Refused with
/// `StoreFull` if there are more than 8, and else for the first that is refused: `BadSpec` if it names no pool, or
/// `PoolKnown` if it occurs before; with `Memory` if an allocation fails and those before are not refused.
fn registry_of(alloc: Global, words: &[&str]) -> Result<Registry, Fault>
    ensures { MatchResult result
        (λ registry. (graphs : List AnyGraph) × AreNamed (map (λ w. w.now) words.now) graphs × (registry ≡ pools_of graphs))
        (IsWordsFault (map (λ w. w.now) words.now)) }
{
    if words.len() > MAX_POOLS as usize {
        return Err(Fault::InVain(Refusal::StoreFull));
    }
    let mut registry = Registry::new(alloc);
    for word in words {
        if let Err(refusal) = registry.register(word, word) {
            return Err(word_fault(refusal));
        }
    }
    Ok(registry)
}

/// Returns the fault of a refused specification. An allocation failure is not its own fault.
fn word_fault(refusal: Refusal) -> Fault
    ensures { result ≡ word_fault refusal }
{
    match refusal {
        Refusal::NoMemory => Fault::Memory,
        _ => Fault::InVain(refusal),
    }
}

/// Returns the results of the runs of all pools, in the order of registration.
fn answers_of<R: Threads + Wait + Sync>(
    rt: &R,
    alloc: Global,
    mut registry: Registry,
    config: Config,
) -> Result<Vec<Result<Outcome, tp_work::Fault>>, Refusal>
    requires { IsWithinLimits config }
    ensures ran { IfOk result (λ answers. (graphs : List AnyGraph) → registry ≡ pools_of graphs
        → AreRunAnswers config.nodes config.workers graphs answers.items) }
    ensures memory { IfErr result (λ refusal. refusal ≡ NoMemory) }
{
    run_pools(rt, alloc, &mut registry, config, &OpenGate)
}

/// Returns a line for the pool of each specification.
fn text_of_pools(
    alloc: Global,
    words: &[&str],
    answers: &[Result<Outcome, tp_work::Fault>],
) -> Result<Vec<u8>, AllocError>
    requires { length answers.now ≡ length words.now }
    ensures { IfOk result (λ text. text.items ≡ pool_lines (map (λ w. w.now) words.now) answers.now) }
{
    let mut text = Vec::new(alloc);
    for (number, word) in words.iter().enumerate() {
        let line = pool_line(alloc, number, word, &answers[number])?;
        text.extend_from_slice(line.as_bytes())?;
    }
    Ok(text)
}

/// Returns the line of a pool.
fn pool_line(
    alloc: Global,
    number: usize,
    word: &str,
    answer: &Result<Outcome, tp_work::Fault>,
) -> Result<String, AllocError>
    ensures { IfOk result (λ line. string_bytes line ≡ pool_line number word.now answer.now) }
{
    match answer {
        Ok(outcome) => ended_line(alloc, number, word, outcome),
        Err(fault) => refused_line(alloc, number, word, fault),
    }
}

fn ended_line(
    alloc: Global,
    number: usize,
    word: &str,
    outcome: &Outcome,
) -> Result<String, AllocError>
    ensures { IfOk result (λ line. string_bytes line ≡ pool_line number word.now (Ok outcome.now)) }
{
    let tasks = outcome.tasks;
    let messages = outcome.messages;
    format!(in alloc; "pool {number} {word} ended tasks {tasks} messages {messages}\n")
}

fn refused_line(
    alloc: Global,
    number: usize,
    word: &str,
    fault: &tp_work::Fault,
) -> Result<String, AllocError>
    ensures { IfOk result (λ line. string_bytes line ≡ pool_line number word.now (Err fault.now)) }
{
    let refused = fault.refusal.number();
    let name = fault.refusal.name();
    format!(in alloc; "pool {number} {word} refused {refused} {name}\n")
}
