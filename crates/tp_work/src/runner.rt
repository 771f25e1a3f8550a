//! Runs one generation of a pool: starts the workers, waits for them, and takes the pool out of its locks.
ghost use Rattle.std.specs.{Option.unwrap_or, Prelude.{◌≡◌, ◌≢◌, ◌≤◌, ◌↔◌, ◌*◌, ◌-◌, length, vec_len, IfErr, IfOk, IfSome, IsTrue}};
ghost use Rattle.{std.specs.Prelude.{MatchOption, MatchResult, Err, IsOk, None, OnOk, Some}, tp_board.specs.States.with_fault};
ghost use Rattle.tp_base.specs.declared.{limits.TheConstants.MAX_STEPS, refusal.Refusal.TheVariants.{Missing, NoMemory, Stranger}};
ghost use Rattle.tp_wave.specs.{Generations.present, Machine.steps_of, Sums.is_ended};
ghost use Rattle.tp_work.specs.Reports.{IsReportOf, nodes_announced};
ghost use Rattle.tp_work.specs.{Lives.generations, Outcomes.{IsMisplaced, IsUngathered, IsWithinLimits}, Places.IsWhole, Reports.IsEnd};

use crate::config::{Config, Fault};
use crate::failed_task::FailedTask;
use crate::gate::Gate;
use crate::gathered::{Report, count_told, finish};
use crate::locks::{Locks, check_places, lock_pool};
use crate::oversubscription::Oversubscription;
use crate::run_queue::BatchSize;
use crate::worker::{Worker, set_fault};
use std::alloc::{AllocError, Global};
use std::sync::Wait;
use std::thread;
use std::thread::{JoinHandle, SpawnError, Threads};
use tp_base::{MAX_STEPS, NodeId, Refusal};
use tp_board::{Blanks, Board, Ended, Ledgers};
use tp_graph::{Comparable, Graph};
use tp_node::{Node, Pool, open_pool};

/// What is common to the generations of a pool: the graph, the gate and the configuration.
#[derive(Drop)]
pub(crate) struct Runner<'a, G: Graph, A: Gate, R: Wait> {
    pub rt: &'a R,
    pub alloc: Global,
    pub graph: G,
    pub config: Config,
    pub gate: &'a A,
    pub failed: &'a FailedTask,
}

impl<G: Comparable, A: Gate, R: Threads + Wait + Sync> Runner<'_, G, A, R> {
    /// Opens a pool with the highest limit of events.
    pub fn open<K: Ledgers>(&self, blanks: Blanks) -> Result<Pool<G, K>, Refusal>
        requires limits { IsWithinLimits self.now.config }
        requires names { blanks ≡ K.names }
        requires nodes { blanks.nodes ≡ self.now.config.nodes }
        ensures nodes { IfOk result (λ p. vec_len p.nodes ≡ K.names.nodes) }
        ensures links { IfOk result (λ p. vec_len p.links ≡ K.names.nodes * (K.names.nodes - 1)) }
        ensures limit { IfOk result (λ p. p.board.limit ≡ MAX_STEPS) }
        ensures refusal { IfErr result (λ e. e ≡ NoMemory) }
    {
        open_pool(self.alloc, blanks, self.graph, self.config.nodes, MAX_STEPS)
    }

    /// Runs the generation of this number.
    ///
    /// Refused with `NoMemory` if an allocation fails; `NoNode` and `Stranger` if a part of the pool is not at its
    /// place afterwards. The pool is lost then.
    pub fn run_generation<K: Ledgers + Send + Sync>(
        &self,
        pool: Pool<G, K>,
        number: u32,
    ) -> Result<Ran<G, K>, Refusal>
        requires limits { IsWithinLimits self.now.config }
        requires nodes { vec_len pool.nodes ≡ K.names.nodes }
        requires links { vec_len pool.links ≡ K.names.nodes * (K.names.nodes - 1) }
        ensures whole { IfOk result (λ r. IsWhole K.names.nodes self.now.graph r.pool.nodes.items r.pool.links.items) }
        ensures limit { IfOk result (λ r. r.pool.board.limit ≡ MAX_STEPS) }
        ensures number { IfOk result (λ r. length (generations r.pool.board.history) ≡ number) }
        ensures end { IfOk result (λ r. IsEnd K.names.nodes r.pool.nodes.items r.pool.board r.end) }
        ensures workers { IfOk result (λ r. r.pool.board.fault ≡ None → r.workers ≡ self.now.config.nodes * self.now.config.workers) }
        ensures refusal { IfErr result IsUngathered }
    {
        let ran = self.run_round(pool)?;
        match check_whole(&ran.pool, &self.graph, number) {
            Ok(()) => Ok(ran),
            Err(refusal) => Err(refusal),
        }
    }

    /// Puts a pool under locks, runs it, and takes it out when all its threads have ended. If a worker returned a
    /// refusal, or not all could be started, that is the pool's fault unless it has one. If it has none then, its fault
    /// is `Missing` unless the termination token is there and termination was announced to each node.
    fn run_round<K: Ledgers + Send + Sync>(&self, pool: Pool<G, K>) -> Result<Ran<G, K>, Refusal>
        requires limits { IsWithinLimits self.now.config }
        requires nodes { vec_len pool.nodes ≡ K.names.nodes }
        ensures nodes { IfOk result (λ r. vec_len r.pool.nodes ≡ vec_len pool.nodes) }
        ensures links { IfOk result (λ r. vec_len r.pool.links ≡ vec_len pool.links) }
        ensures end { IfOk result (λ r. IsEnd K.names.nodes r.pool.nodes.items r.pool.board r.end) }
        ensures workers { IfOk result (λ r. r.pool.board.fault ≡ None → r.workers ≡ self.now.config.nodes * self.now.config.workers) }
        ensures refusal { IfErr result (λ e. e ≡ NoMemory) }
    {
        let surplus = self.surplus();
        let oversubscription = Oversubscription::new(self.config.workers, surplus);
        let (locks, room) = lock_pool(self.alloc, pool, oversubscription)?;
        let answers = self.run_workers(&locks, surplus);
        let (mut pool, token) = locks.into_pool(room);
        tell_fault(&mut pool.board, answers.refusal);
        let end = end_of(&pool.nodes, &mut pool.board, token);
        Ok(Ran {
            pool,
            end,
            workers: answers.workers,
        })
    }

    /// Returns the number of workers beyond one for each processor: 0 if the number of processors is not known. It is
    /// not asked for a single worker.
    fn surplus(&self) -> u32
        requires limits { IsWithinLimits self.now.config }
    {
        let all = self.config.nodes * self.config.workers;
        if all == 1 {
            return 0;
        }
        match thread::available_parallelism(self.rt) {
            Ok(processors) => (all as usize).saturating_sub(processors.get()) as u32,
            Err(_) => 0,
        }
    }

    /// Starts all workers, and waits for their results. The first ones begin at once: one for each node, and as many as
    /// there are processors. Each of the others sleeps until there is work for it. If one cannot be started, `NoMemory`
    /// is among the refusals.
    fn run_workers<K: Ledgers + Send + Sync>(
        &self,
        locks: &Locks<G, K>,
        surplus: u32,
    ) -> WorkerAnswers
        requires limits { IsWithinLimits self.now.config }
        ensures all { result.refusal ≡ None → result.workers ≡ self.now.config.nodes * self.now.config.workers }
    {
        let all = self.config.nodes * self.config.workers;
        let nodes = self.config.nodes;
        let begin_at_once = nodes.max(all.saturating_sub(surplus));
        let first = Worker {
            rt: self.rt,
            alloc: self.alloc,
            graph: self.graph,
            place: NodeId(0),
            batch_size: BatchSize::new(self.config.nodes, self.config.workers),
            is_alone: self.config.workers == 1,
            idle_turns: self.config.idle_turns,
            is_spare: false,
            locks,
            gate: self.gate,
            failed: self.failed,
        };
        let answers = thread::scope(
            thread::scope_env(),
            self.rt,
            |scope|
                requires { 1 ≤ nodes }
            {
                let mut handles = Vec::new(first.alloc);
                for number in 0..all {
                    let worker = first.at(NodeId(number % nodes), number >= begin_at_once);
                    if keep(&mut handles, scope.spawn(move || worker.run())).is_err() {
                        set_fault(first.rt, first.locks, Refusal::NoMemory);
                        break;
                    }
                }
                answers_of(first.rt, handles)
            },
        );
        answers.of_all(all)
    }
}

/// A pool whose threads have ended.
#[derive(Drop)]
pub(crate) struct Ran<G: Graph, K: Ledgers> {
    /// The pool.
    pub pool: Pool<G, K>,
    /// The termination token, if no fault was set, and termination was detected and announced to each node; otherwise
    /// the pool's fault.
    pub end: Result<Ended<K>, Refusal>,
    /// The number of workers that returned.
    pub workers: u32,
}

/// The results of the workers of a pool.
#[derive(Clone, Copy)]
struct WorkerAnswers {
    /// The number of workers that returned.
    workers: u32,
    /// A refusal that one of them returned, if there is one.
    refusal: Option<Refusal>,
}

impl WorkerAnswers {
    /// Returns the same, or adds the refusal `NoMemory` if fewer than `wanted` workers returned and none returned a
    /// refusal: the others could not be started.
    fn of_all(self, wanted: u32) -> Self
        ensures workers { result.workers ≡ self.workers }
        ensures all { result.refusal ≡ None → result.workers ≡ wanted }
        ensures refusal { IfSome self.refusal (λ e. result.refusal ≡ Some e) }
        ensures short { self.refusal ≡ None → self.workers ≢ wanted → result.refusal ≡ Some NoMemory }
        ensures same { self.workers ≡ wanted → result ≡ self }
    {
        if self.refusal.is_none() && self.workers != wanted {
            return WorkerAnswers {
                workers: self.workers,
                refusal: Some(Refusal::NoMemory),
            };
        }
        self
    }
}

/// Keeps the handle of a thread, if it could be started and there is room.
fn keep<T: Drop, F: Drop>(
    handles: &mut Vec<JoinHandle<T>>,
    started: Result<JoinHandle<T>, SpawnError<F>>,
) -> Result<(), AllocError> {
    handles.push(started?)?;
    Ok(())
}

/// Joins each thread, and counts those that returned.
fn answers_of<R: Threads>(rt: &R, handles: Vec<JoinHandle<Option<Refusal>>>) -> WorkerAnswers
    ensures { result.workers ≤ vec_len handles }
{
    let mut answers = WorkerAnswers {
        workers: 0,
        refusal: None,
    };
    for handle in handles {
        let refusal = handle.join(rt);
        answers.workers = answers.workers.saturating_add(1);
        answers.refusal = answers.refusal.or(refusal);
    }
    answers
}

/// Sets a refusal that a worker returned as the fault, if none was set. The first one was set under the board's lock
/// when its worker ended.
fn tell_fault<K: Ledgers>(board: &mut Board<K>, refusal: Option<Refusal>)
    ensures { MatchOption refusal (board.new ≡ board.old) (λ fault. board.new ≡ with_fault fault board.old) }
{
    if let Some(fault) = refusal {
        board.set_fault(fault);
    }
}

/// Returns the termination token of a pool whose threads have ended, or its fault. If it has none, and the token is not
/// there or termination was not announced to each node, `Missing` is set.
fn end_of<G: Graph, K: Ledgers>(
    nodes: &[Node<G, K>],
    board: &mut Board<K>,
    token: Option<Ended<K>>,
) -> Result<Ended<K>, Refusal>
    requires { length nodes.now ≡ K.names.nodes }
    ensures end { IsEnd K.names.nodes nodes.now board.new result }
    ensures over { OnOk result (board.new ≡ board.old) }
    ensures fault { IfErr result (λ e. board.new ≡ with_fault e board.old) }
    ensures missing { IfErr result (λ e. board.old.fault ≡ None → (e ≡ Missing)
        × (IfSome token (λ _. nodes_announced nodes.now ≡ K.names.nodes → ⊥))) }
{
    match token {
        Some(ended) if is_free_of_fault(nodes, board) => Ok(audited(board, ended)),
        _ => Err(fault_or_missing(board)),
    }
}

/// Returns whether no fault was set, and termination was announced to each node.
fn is_free_of_fault<G: Graph, K: Ledgers>(nodes: &[Node<G, K>], board: &Board<K>) -> bool
    requires { length nodes.now ≡ K.names.nodes }
    ensures { IsTrue result ↔ ((board.now.fault ≡ None) × (nodes_announced nodes.now ≡ K.names.nodes)) }
{
    let count = board.nodes();
    board.fault().is_none() && count_told(nodes) == count
}

/// Returns the termination token, which shows that termination was detected.
fn audited<K: Ledgers>(board: &mut Board<K>, ended: Ended<K>) -> Ended<K>
    ensures same { board.new ≡ board.old }
    ensures detected { IsTrue (is_ended K.names.nodes (present (steps_of board.old.history))) }
{
    let mut ended = ended;
    board.audit_ended(&mut ended);
    ended
}

/// Returns the fault of a board. If none was set, `Missing` is set and returned.
fn fault_or_missing<K: Ledgers>(board: &mut Board<K>) -> Refusal
    ensures first { result ≡ unwrap_or board.old.fault Missing }
    ensures board { board.new ≡ with_fault result board.old }
    ensures fault { board.new.fault ≡ Some result }
{
    let fault = board.fault().unwrap_or(Refusal::Missing);
    board.set_fault(fault);
    fault
}

/// Returns the report of a pool of `nodes` nodes.
///
/// Refused with `NoMemory` if an allocation fails. The pool is lost then.
pub(crate) fn report_of<G: Graph, K: Ledgers>(
    alloc: Global,
    nodes: u32,
    graph: &G,
    pool: Pool<G, K>,
) -> Result<Report, Refusal>
    requires nodes { nodes ≡ K.names.nodes }
    requires whole { IsWhole K.names.nodes graph.now pool.nodes.items pool.links.items }
    ensures report { IfOk result (IsReportOf nodes (G.meaning graph.now) pool.nodes.items pool.board) }
    ensures refusal { IfErr result (λ e. e ≡ NoMemory) }
{
    let (_nodes, _graph) = (nodes, *graph);
    match finish(alloc, pool) {
        Ok(report) => Ok(report),
        Err((refusal, _)) => Err(refusal),
    }
}

/// Returns the fault of a pool without a report.
pub(crate) fn ungathered(refusal: Refusal) -> Fault
    ensures { result ≡ record { refusal = refusal; report = None; failed = None } }
{
    Fault {
        refusal,
        report: None,
        failed: None,
    }
}

/// Returns the fault of a pool that stops for a refusal, with its report if that could be gathered. If not, the refusal
/// is why.
pub(crate) fn fault_with(refusal: Refusal, gathered: Result<Report, Refusal>) -> Fault
    ensures { MatchResult gathered
        (λ report. result ≡ record { refusal = refusal; report = Some report; failed = None })
        (λ e. result ≡ record { refusal = e; report = None; failed = None }) }
{
    match gathered {
        Ok(report) => Fault {
            refusal,
            report: Some(report),
            failed: None,
        },
        Err(refusal) => ungathered(refusal),
    }
}

/// Checks that each part of a pool is at its place, and that the board has this generation and the highest limit of
/// events.
///
/// Refused with `Stranger` if the board is not that of the pool; then with `NoNode` if a node or a link is not at its
/// place, and with `Stranger` if a node is of another graph.
fn check_whole<G: Comparable, K: Ledgers>(
    pool: &Pool<G, K>,
    graph: &G,
    number: u32,
) -> Result<(), Refusal>
    requires nodes { vec_len pool.now.nodes ≡ K.names.nodes }
    requires links { vec_len pool.now.links ≡ K.names.nodes * (K.names.nodes - 1) }
    ensures whole { OnOk result (IsWhole K.names.nodes graph.now pool.now.nodes.items pool.now.links.items) }
    ensures limit { OnOk result (pool.now.board.limit ≡ MAX_STEPS) }
    ensures number { OnOk result (length (generations pool.now.board.history) ≡ number) }
    ensures board { (pool.now.board.limit ≡ MAX_STEPS → length (generations pool.now.board.history) ≡ number → ⊥)
        → result ≡ Err Stranger }
    ensures refusal { IfErr result IsMisplaced }
{
    check_board(&pool.board, number)?;
    check_places(pool, graph)
}

fn check_board<K: Ledgers>(board: &Board<K>, number: u32) -> Result<(), Refusal>
    ensures limit { OnOk result (board.now.limit ≡ MAX_STEPS) }
    ensures number { OnOk result (length (generations board.now.history) ≡ number) }
    ensures right { board.now.limit ≡ MAX_STEPS → length (generations board.now.history) ≡ number → IsOk result }
    ensures refusal { IfErr result (λ e. e ≡ Stranger) }
{
    if board.generation().0 != number || board.limit() != MAX_STEPS {
        return Err(Refusal::Stranger);
    }
    Ok(())
}
