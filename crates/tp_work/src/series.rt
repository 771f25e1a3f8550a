//! Running a pool through several generations, reopened after each but the last.
ghost use Rattle.std.specs.{List.All, Prelude.if◌then◌else◌};
ghost use Rattle.tp_graph.specs.{Found.HasEachOnce, Graphs.TaskGraph, Left.AreResults};
ghost use Rattle.std.specs.Prelude.{◌≡◌, ◌≤◌, ◌<◌, ◌+◌, ◌*◌, ◌-◌, ◌++◌, ◌∷◌, [], ℕ, length, map, reverse, slice_index, slice_index_or};
ghost use Rattle.std.specs.Prelude.{vec_capacity, vec_len, Err, IfErr, IfOk, IfSome, MatchOption, MatchResult, None, Ok, OnOk, Some};
ghost use Rattle.tp_base.specs.declared.{limits.TheConstants.MAX_STEPS, refusal.Refusal.TheVariants.{HistoryFull, Missing, NoMemory}};
ghost use Rattle.{tp_wave.specs.Generations.present_events, tp_work.specs.{Lives.{generations, sent_in}, declared.series.Round.Round}};
ghost use Rattle.tp_work.specs.Outcomes.{HasEnded, IsRefusalForFault, IsFaultOf, IsWithinLimits, Lacks};
ghost use Rattle.tp_work.specs.Reports.{IsEnd, IsOver, IsReport};
ghost use Rattle.tp_work.specs.{Places.IsWhole, Series.{AddsKept, IsDoneOnceInEach, IsKept, IsSeries, IsSeriesFault, with_messages}};

use crate::config::{Config, Fault};
use crate::failed_task::FailedTask;
use crate::gate::Gate;
use crate::gathered::{Report, count_told};
use crate::lives::sent_in_each;
use crate::once::each_once;
use crate::runner::{Ran, Runner, fault_with, report_of, ungathered};
use std::alloc::{AllocError, Global};
use std::sync::Wait;
use std::thread::Threads;
use tp_base::{History, MAX_STEPS, Refusal, TaskId};
use tp_board::{Blanks, Brand, Ended, Ledgers};
use tp_graph::{Comparable, Graph, Named, Only, Value};
use tp_node::{Pool, Reopened};

/// The outcome of one generation of a series.
#[derive(Drop)]
pub struct Round {
    /// Each task of the graph, in no particular order, with its value if the graph keeps it, and else without numbers.
    pub results: Vec<(TaskId, Value)>,
    /// The number of tasks done.
    pub tasks: u32,
    /// The number of messages sent.
    pub messages: u32,
    /// The number of nodes to which termination was announced.
    pub announced: u32,
    /// The number of workers at all nodes together: those that have returned.
    pub workers: u32,
}

/// The outcome of a series of generations.
#[derive(Drop)]
pub struct Series {
    /// The outcome of each generation, oldest first.
    pub rounds: Vec<Round>,
    /// The events of all generations.
    pub history: History,
}

/// Runs a pool that computes a graph through `count` generations, 1 to 9, and returns the outcome of each: each
/// task ran once in it, and each result is the value that the graph defines. After each but the last the pool is
/// reopened and computes the graph anew. The threads of a generation have ended before the next begins.
///
/// Refused as [`run_pool`](crate::run_pool) is, by the first generation that is refused; the rounds before it are
/// dropped. Also refused with `HistoryFull` if the history, which all generations share, has no place for a reopening;
/// `NoMemory` if an allocation for a reopening or for the list of rounds fails. The report of a fault has the numbers
/// of the present generation, and all events. If a task of an earlier generation has no result or more than one, the
/// pool is reopened before `Missing` is returned, and nothing has happened in the present generation.
pub fn run_generations<G: Graph, A: Gate, R: Threads + Wait + Sync>(
    rt: &R,
    alloc: Global,
    graph: G,
    config: Config,
    gate: &A,
    count: u32,
) -> Result<Series, Fault>
    requires limits { IsWithinLimits config }
    requires count { (1 ≤ count) × (count ≤ 9) }
    ensures series { IfOk result (IsSeries config.nodes config.workers (G.meaning graph) count) }
    ensures fault { IfErr result (IsSeriesFault config.nodes (G.meaning graph) count) }
{
    let blanks = Blanks::new(config.nodes);
    let failed = FailedTask::new();
    match run_only::<G, Brand, Brand, A, R>(
        rt, alloc, graph, config, gate, &failed, count, blanks,
    ) {
        Ok(series) => Ok(series),
        Err(fault) => Err(Fault {
            failed: failed.into_task(),
            ..fault
        }),
    }
}

/// Opens a pool over the one graph that `D` names, so that comparing graphs costs nothing, with the ledgers that `K`
/// names. Runs all its generations, and keeps their rounds.
fn run_only<
    'a,
    G: Graph,
    D: Named<G> + Send + Sync,
    K: Ledgers + Send + Sync,
    A: Gate,
    R: Threads + Wait + Sync,
>(
    rt: &'a R,
    alloc: Global,
    graph: G,
    config: Config,
    gate: &'a A,
    failed: &'a FailedTask,
    count: u32,
    blanks: Blanks,
) -> Result<Series, Fault>
    requires it { D.it ≡ Some graph }
    requires names { blanks ≡ K.names }
    requires nodes { blanks.nodes ≡ config.nodes }
    requires limits { IsWithinLimits config }
    requires count { (1 ≤ count) × (count ≤ 9) }
    ensures series { IfOk result (IsSeries config.nodes config.workers (G.meaning graph) count) }
    ensures fault { IfErr result (IsSeriesFault config.nodes (G.meaning graph) count) }
{
    let runner = Runner {
        rt,
        alloc,
        graph: Only::<G, D>::new(graph),
        config,
        gate,
        failed,
    };
    let mut rounds = match Vec::with_capacity(alloc, count as usize) {
        Ok(rounds) => rounds,
        Err(_) => return Err(ungathered(Refusal::NoMemory)),
    };
    let pool = match runner.open::<K>(blanks) {
        Ok(pool) => pool,
        Err(refusal) => return Err(ungathered(refusal)),
    };
    let pool = match run_earlier(&runner, pool, count, &mut rounds) {
        Ok(pool) => pool,
        Err(fault) => return Err(fault),
    };
    match runner.run_generation(pool, count) {
        Ok(ran) => series_of(alloc, &runner.graph, config, ran, rounds),
        Err(refusal) => Err(ungathered(refusal)),
    }
}

/// Runs all generations but the last, keeps their rounds, and reopens the pool after each.
fn run_earlier<G: Comparable, K: Ledgers + Send + Sync, A: Gate, R: Threads + Wait + Sync>(
    runner: &Runner<'_, G, A, R>,
    pool: Pool<G, K>,
    count: u32,
    rounds: &mut Vec<Round>,
) -> Result<Pool<G, K>, Fault>
    requires limits { IsWithinLimits runner.now.config }
    requires config { runner.now.config.nodes ≡ K.names.nodes }
    requires nodes { vec_len pool.nodes ≡ K.names.nodes }
    requires links { vec_len pool.links ≡ K.names.nodes * (K.names.nodes - 1) }
    requires count { 1 ≤ count }
    requires room { (rounds.old.items ≡ []) × (count ≤ vec_capacity rounds.old) }
    ensures nodes { IfOk result (λ p. vec_len p.nodes ≡ K.names.nodes) }
    ensures links { IfOk result (λ p. vec_len p.links ≡ K.names.nodes * (K.names.nodes - 1)) }
    ensures many { OnOk result (vec_len rounds.new + 1 ≡ count) }
    ensures kept { OnOk result
        (All (IsKept runner.now.config.nodes runner.now.config.workers (G.meaning runner.now.graph)) rounds.new.items) }
    ensures room { vec_capacity rounds.new ≡ vec_capacity rounds.old }
    ensures fault { IfErr result (IsSeriesFault runner.now.config.nodes (G.meaning runner.now.graph) count) }
{
    let mut pool = pool;
    for number in 1..count {
        pool = match run_and_reopen(runner, pool, number, rounds) {
            Ok(next) => next,
            Err(fault) => return Err(fault),
        };
    }
    Ok(pool)
}

/// Runs the generation of this number, which is not the last, keeps its round, and reopens the pool.
fn run_and_reopen<G: Comparable, K: Ledgers + Send + Sync, A: Gate, R: Threads + Wait + Sync>(
    runner: &Runner<'_, G, A, R>,
    pool: Pool<G, K>,
    number: u32,
    rounds: &mut Vec<Round>,
) -> Result<Pool<G, K>, Fault>
    requires limits { IsWithinLimits runner.now.config }
    requires config { runner.now.config.nodes ≡ K.names.nodes }
    requires nodes { vec_len pool.nodes ≡ K.names.nodes }
    requires links { vec_len pool.links ≡ K.names.nodes * (K.names.nodes - 1) }
    requires number { 1 ≤ number }
    requires room { vec_len rounds.old < vec_capacity rounds.old }
    ensures nodes { IfOk result (λ p. vec_len p.nodes ≡ K.names.nodes) }
    ensures links { IfOk result (λ p. vec_len p.links ≡ K.names.nodes * (K.names.nodes - 1)) }
    ensures kept { OnOk result
        (AddsKept runner.now.config.nodes runner.now.config.workers (G.meaning runner.now.graph) rounds.old.items rounds.new.items) }
    ensures room { vec_capacity rounds.new ≡ vec_capacity rounds.old }
    ensures fault { IfErr result (λ f. (count : ℕ) → number < count
        → IsSeriesFault runner.now.config.nodes (G.meaning runner.now.graph) count f) }
{
    match runner.run_generation(pool, number) {
        Ok(ran) => next_generation(runner.alloc, runner.graph, ran, rounds),
        Err(refusal) => Err(ungathered(refusal)),
    }
}

/// Reopens a pool that has run, if it has no fault, and keeps the round of the generation that ended.
fn next_generation<G: Graph, K: Ledgers>(
    alloc: Global,
    graph: G,
    ran: Ran<G, K>,
    rounds: &mut Vec<Round>,
) -> Result<Pool<G, K>, Fault>
    requires whole { IsWhole K.names.nodes graph ran.pool.nodes.items ran.pool.links.items }
    requires limit { ran.pool.board.limit ≡ MAX_STEPS }
    requires end { IsEnd K.names.nodes ran.pool.nodes.items ran.pool.board ran.end }
    requires room { vec_len rounds.old < vec_capacity rounds.old }
    ensures nodes { IfOk result (λ p. vec_len p.nodes ≡ K.names.nodes) }
    ensures links { IfOk result (λ p. vec_len p.links ≡ K.names.nodes * (K.names.nodes - 1)) }
    ensures kept { OnOk result ((workers : ℕ) → ran.workers ≡ K.names.nodes * workers
        → AddsKept K.names.nodes workers (G.meaning graph) rounds.old.items rounds.new.items) }
    ensures over { OnOk result (IsOver K.names.nodes ran.pool.nodes.items ran.pool.board) }
    ensures room { vec_capacity rounds.new ≡ vec_capacity rounds.old }
    ensures fault { IfErr result (λ f. (count : ℕ) → length (generations ran.pool.board.history) < count
        → IsSeriesFault K.names.nodes (G.meaning graph) count f) }
    ensures stopped { IfErr result (λ f. IfErr ran.end (λ fault.
        IsFaultOf K.names.nodes (G.meaning graph) ran.pool.nodes.items ran.pool.board
        (IsRefusalForFault (length ran.pool.board.history) fault) f)) }
{
    let Ran {
        pool,
        end,
        workers: answered,
    } = ran;
    match end {
        Ok(ended) => reopen(alloc, graph, pool, ended, answered, rounds),
        Err(fault) => Err(stopped(alloc, graph, pool, fault)),
    }
}

/// Reopens a pool that is over, given its termination token, and keeps the round of the generation that ended.
fn reopen<G: Graph, K: Ledgers>(
    alloc: Global,
    graph: G,
    pool: Pool<G, K>,
    ended: Ended<K>,
    answered: u32,
    rounds: &mut Vec<Round>,
) -> Result<Pool<G, K>, Fault>
    requires whole { IsWhole K.names.nodes graph pool.nodes.items pool.links.items }
    requires limit { pool.board.limit ≡ MAX_STEPS }
    requires over { IsOver K.names.nodes pool.nodes.items pool.board }
    requires room { vec_len rounds.old < vec_capacity rounds.old }
    ensures nodes { IfOk result (λ p. vec_len p.nodes ≡ K.names.nodes) }
    ensures links { IfOk result (λ p. vec_len p.links ≡ K.names.nodes * (K.names.nodes - 1)) }
    ensures kept { OnOk result ((workers : ℕ) → answered ≡ K.names.nodes * workers
        → AddsKept K.names.nodes workers (G.meaning graph) rounds.old.items rounds.new.items) }
    ensures room { vec_capacity rounds.new ≡ vec_capacity rounds.old }
    ensures fault { IfErr result (λ f. (count : ℕ) → length (generations pool.board.history) < count
        → IsSeriesFault K.names.nodes (G.meaning graph) count f) }
    ensures full { length pool.board.history ≡ MAX_STEPS → MatchResult result (λ _. ⊥)
        (IsFaultOf K.names.nodes (G.meaning graph) pool.nodes.items pool.board (λ e. e ≡ HistoryFull MAX_STEPS)) }
{
    // This call of the board shows that there are at most 8 nodes.
    let _nodes = pool.board.nodes();
    let announced = count_told(&pool.nodes);
    match pool.reopen(alloc, ended) {
        Ok(Reopened { pool, results }) => keep(
            alloc, graph, pool, results, announced, answered, rounds,
        ),
        Err((refusal, pool, _)) => Err(stopped_for(alloc, graph, pool, refusal)),
    }
}

/// Keeps the round of a generation that ended and was announced to all nodes, with these results, if each task has one.
/// The pool was reopened, and no fault was set.
fn keep<G: Graph, K: Ledgers>(
    alloc: Global,
    graph: G,
    pool: Pool<G, K>,
    results: Vec<(TaskId, Value)>,
    announced: u32,
    answered: u32,
    rounds: &mut Vec<Round>,
) -> Result<Pool<G, K>, Fault>
    requires whole { IsWhole K.names.nodes graph pool.nodes.items pool.links.items }
    requires opened { (present_events pool.board.history ≡ []) × (1 < length (generations pool.board.history)) }
    requires fault { pool.board.fault ≡ None }
    requires right { AreResults (G.meaning graph) results.items }
    requires announced { announced ≡ K.names.nodes }
    requires room { vec_len rounds.old < vec_capacity rounds.old }
    ensures nodes { IfOk result (λ p. vec_len p.nodes ≡ K.names.nodes) }
    ensures links { IfOk result (λ p. vec_len p.links ≡ K.names.nodes * (K.names.nodes - 1)) }
    ensures kept { OnOk result ((workers : ℕ) → answered ≡ K.names.nodes * workers
        → AddsKept K.names.nodes workers (G.meaning graph) rounds.old.items rounds.new.items) }
    ensures room { vec_capacity rounds.new ≡ vec_capacity rounds.old }
    ensures fault { IfErr result (λ f. (count : ℕ) → length (generations pool.board.history) ≤ count
        → IsSeriesFault K.names.nodes (G.meaning graph) count f) }
    ensures lack { IfErr result (IsFaultOf K.names.nodes (G.meaning graph) pool.nodes.items pool.board
        (Lacks (HasEachOnce (G.meaning graph).tasks results.items))) }
{
    let tasks = graph.tasks();
    let lack = lack_by(each_once(alloc, tasks, &results));
    let round = Round {
        results,
        tasks,
        messages: 0,
        announced,
        workers: answered,
    };
    keep_unless(alloc, graph, pool, lack, round, rounds)
}

/// Keeps a round, unless something is missing for it.
fn keep_unless<G: Graph, K: Ledgers>(
    alloc: Global,
    graph: G,
    pool: Pool<G, K>,
    lack: Option<Refusal>,
    round: Round,
    rounds: &mut Vec<Round>,
) -> Result<Pool<G, K>, Fault>
    requires whole { IsWhole K.names.nodes graph pool.nodes.items pool.links.items }
    requires room { vec_len rounds.old < vec_capacity rounds.old }
    ensures pool { IfOk result (λ p. p ≡ pool) }
    ensures kept { OnOk result ((lack ≡ None) × (rounds.new.items ≡ rounds.old.items ++ round ∷ [])) }
    ensures room { vec_capacity rounds.new ≡ vec_capacity rounds.old }
    ensures fault { IfErr result (λ f. MatchOption lack ⊥ (λ refusal.
        IsFaultOf K.names.nodes (G.meaning graph) pool.nodes.items pool.board (λ e. e ≡ refusal) f)) }
{
    match lack {
        None => {
            rounds.push_reserved(round);
            Ok(pool)
        }
        Some(refusal) => Err(stopped_for(alloc, graph, pool, refusal)),
    }
}

/// Returns the fault of a pool in which this fault was set.
fn stopped<G: Graph, K: Ledgers>(alloc: Global, graph: G, pool: Pool<G, K>, fault: Refusal) -> Fault
    requires whole { IsWhole K.names.nodes graph pool.nodes.items pool.links.items }
    ensures { IsFaultOf K.names.nodes (G.meaning graph) pool.nodes.items pool.board
        (IsRefusalForFault (length pool.board.history) fault) result }
{
    let refusal = answer_to(fault, pool.board.len());
    stopped_for(alloc, graph, pool, refusal)
}

/// Returns the fault of a pool that stops for a refusal.
fn stopped_for<G: Graph, K: Ledgers>(
    alloc: Global,
    graph: G,
    pool: Pool<G, K>,
    refusal: Refusal,
) -> Fault
    requires whole { IsWhole K.names.nodes graph pool.nodes.items pool.links.items }
    ensures { IsFaultOf K.names.nodes (G.meaning graph) pool.nodes.items pool.board (λ e. e ≡ refusal) result }
{
    let nodes = pool.board.nodes();
    fault_with(refusal, report_of(alloc, nodes, &graph, pool))
}

/// Returns the series of a pool that has run its last generation, with the rounds of the earlier ones.
fn series_of<G: Graph, K: Ledgers>(
    alloc: Global,
    graph: &G,
    config: Config,
    ran: Ran<G, K>,
    rounds: Vec<Round>,
) -> Result<Series, Fault>
    requires nodes { config.nodes ≡ K.names.nodes }
    requires whole { IsWhole K.names.nodes graph.now ran.pool.nodes.items ran.pool.links.items }
    requires end { IsEnd K.names.nodes ran.pool.nodes.items ran.pool.board ran.end }
    requires workers { ran.pool.board.fault ≡ None → ran.workers ≡ config.nodes * config.workers }
    requires number { length (generations ran.pool.board.history) ≡ vec_len rounds + 1 }
    requires kept { All (IsKept config.nodes config.workers (G.meaning graph.now)) rounds.items }
    requires room { vec_len rounds < vec_capacity rounds }
    ensures series { IfOk result (IsSeries config.nodes config.workers (G.meaning graph.now) (vec_len rounds + 1)) }
    ensures over { OnOk result (IsOver K.names.nodes ran.pool.nodes.items ran.pool.board) }
    ensures fault { IfErr result (IsSeriesFault config.nodes (G.meaning graph.now) (vec_len rounds + 1)) }
    ensures of_pool { IfErr result
        (IsFaultOf config.nodes (G.meaning graph.now) ran.pool.nodes.items ran.pool.board (λ e.
        IfSome ran.pool.board.fault (λ fault. IsRefusalForFault (length ran.pool.board.history) fault e))) }
{
    let Ran {
        pool,
        end: _,
        workers,
    } = ran;
    match report_of(alloc, config.nodes, graph, pool) {
        Ok(report) => series_from(alloc, graph, config, report, workers, rounds),
        Err(refusal) => Err(ungathered(refusal)),
    }
}

/// Returns the series of a pool from the report of its last generation, the number of workers that returned, and the
/// rounds of the earlier generations, or why there is none.
fn series_from<G: Graph>(
    alloc: Global,
    graph: &G,
    config: Config,
    report: Report,
    workers: u32,
    rounds: Vec<Round>,
) -> Result<Series, Fault>
    requires report { IsReport config.nodes (G.meaning graph.now) report }
    requires ended { report.fault ≡ None → HasEnded config.nodes report }
    requires workers { report.fault ≡ None → workers ≡ config.nodes * config.workers }
    requires number { length (generations report.history.events) ≡ vec_len rounds + 1 }
    requires kept { All (IsKept config.nodes config.workers (G.meaning graph.now)) rounds.items }
    requires room { vec_len rounds < vec_capacity rounds }
    ensures series { IfOk result (IsSeries config.nodes config.workers (G.meaning graph.now) (vec_len rounds + 1)) }
    ensures no_fault { OnOk result (report.fault ≡ None) }
    ensures fault { IfErr result (λ f. (f.report ≡ Some report)
        × MatchOption report.fault (Lacks (IsDoneOnceInEach (G.meaning graph.now).tasks report) f.refusal) (λ fault.
        IsRefusalForFault (length report.history.events) fault f.refusal)) }
{
    let tasks = graph.tasks();
    match sent_of(alloc, tasks, rounds.len() + 1, &report) {
        Ok(sent) => {
            let last = Round {
                results: report.results,
                tasks,
                messages: 0,
                announced: report.announced,
                workers,
            };
            Ok(Series {
                rounds: told_rounds(rounds, last, &sent),
                history: report.history,
            })
        }
        Err(refusal) => Err(Fault {
            refusal,
            report: Some(report),
            failed: None,
        }),
    }
}

/// Returns the rounds with one more, each with the number of messages of its generation.
fn told_rounds(rounds: Vec<Round>, last: Round, sent: &[u32]) -> Vec<Round>
    requires room { vec_len rounds < vec_capacity rounds }
    requires sent { length sent.now ≡ vec_len rounds + 1 }
    ensures many { vec_len result ≡ vec_len rounds + 1 }
    ensures kept { (n workers : ℕ) (g : TaskGraph) → All (IsKept n workers g) rounds.items → IsKept n workers g last
        → All (IsKept n workers g) result.items }
    ensures sent { map (λ r. r.messages) result.items ≡ sent.now }
{
    let mut rounds = rounds;
    rounds.push_reserved(last);
    tell(&mut rounds, sent);
    rounds
}

/// Returns the number of messages of each generation, oldest first, if no fault was set and nothing is missing for a
/// series whose last generation ended.
fn sent_of(alloc: Global, tasks: u32, count: usize, report: &Report) -> Result<Vec<u32>, Refusal>
    requires few { length report.now.history.events ≤ MAX_STEPS }
    requires number { length (generations report.now.history.events) ≡ count }
    ensures no_fault { OnOk result (report.now.fault ≡ None) }
    ensures once { OnOk result (IsDoneOnceInEach tasks report.now) }
    ensures sent { IfOk result (λ sent. sent.items ≡ reverse (map sent_in (generations report.now.history.events))) }
    ensures refusal { IfErr result (λ e.
        MatchOption report.now.fault (Lacks (IsDoneOnceInEach tasks report.now) e) (λ fault.
        IsRefusalForFault (length report.now.history.events) fault e)) }
{
    match report.fault {
        Some(fault) => Err(answer_to(fault, report.history.len())),
        None => or_lack(sent_where_once(alloc, tasks, count, report)),
    }
}

/// Returns what a check made. Refused with `Missing` if the check failed, and `NoMemory` if an allocation failed in it.
fn or_lack<T: Drop>(made: Result<Option<T>, AllocError>) -> Result<T, Refusal>
    ensures { MatchResult made
        (λ it. MatchOption it (result ≡ Err Missing) (λ made. result ≡ Ok made))
        (λ _. result ≡ Err NoMemory) }
{
    match made {
        Ok(Some(made)) => Ok(made),
        Ok(None) => Err(Refusal::Missing),
        Err(_) => Err(Refusal::NoMemory),
    }
}

/// Returns the number of messages of each generation, if each task has one result in the present one, and lived once in
/// each.
fn sent_where_once(
    alloc: Global,
    tasks: u32,
    count: usize,
    report: &Report,
) -> Result<Option<Vec<u32>>, AllocError>
    requires few { length report.now.history.events ≤ MAX_STEPS }
    requires number { length (generations report.now.history.events) ≡ count }
    ensures once { IfOk result (λ sent.
        MatchOption sent (IsDoneOnceInEach tasks report.now → ⊥) (λ _. IsDoneOnceInEach tasks report.now)) }
    ensures sent { IfOk result (λ sent. IfSome sent (λ each. each.items ≡ reverse (map sent_in (generations report.now.history.events)))) }
{
    if !each_once(alloc, tasks, &report.results)? {
        return Ok(None);
    }
    sent_in_each(alloc, tasks, count, &report.history)
}

/// Sets in each round the number of messages of its generation.
fn tell(rounds: &mut [Round], sent: &[u32])
    requires { length rounds.old ≡ length sent.now }
    ensures length { length rounds.new ≡ length rounds.old }
    ensures told { (k : ℕ) (r : Round) → k < length rounds.old
        → slice_index_or rounds.new k r ≡ with_messages (slice_index sent.now k) (slice_index_or rounds.old k r) }
{
    for place in 0..rounds.len() {
        rounds[place].messages = sent[place];
    }
}

/// Returns the refusal for a fault, after `events` events.
fn answer_to(fault: Refusal, events: usize) -> Refusal
    ensures { IsRefusalForFault events fault result }
{
    let Refusal::HistoryFull(_) = fault else {
        return fault;
    };
    if events as u64 == MAX_STEPS as u64 || events as u64 == MAX_STEPS as u64 - 1 {
        return Refusal::HistoryFull(events as u32);
    }
    Refusal::Missing
}

/// Returns what is missing, by a check: `Missing` if it fails, and `NoMemory` if an allocation failed in it.
fn lack_by(checked: Result<bool, AllocError>) -> Option<Refusal>
    ensures { MatchResult checked (λ yes. result ≡ (if yes then None else Some Missing)) (λ _. result ≡ Some NoMemory) }
{
    match checked {
        Ok(true) => None,
        Ok(false) => Some(Refusal::Missing),
        Err(_) => Some(Refusal::NoMemory),
    }
}
