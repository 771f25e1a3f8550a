//! The run queue of a node: begun tasks that wait for a worker, and how many of the ready ones begin at a time.
ghost use Rattle.std.specs.{Option.option_to_list, Prelude.{◌≡◌, ◌≢◌, ◌⊎◌, ◌+◌, ◌-◌, ◌++◌, ◌*◌, ◌/◌, ◌<◌, ◌≤◌, [], None, Some, IfErr, max}};
ghost use Rattle.std.specs.Prelude.{IfNone, IsFalse, IsOk, IsTrue, MatchOption, OnErr, OnOk, length, min, reverse, vec_capacity, vec_len};
ghost use Rattle.{tp_base.specs.declared.refusal.Refusal.TheVariants.NoMemory, tp_board.specs.{Calls.Appends, States.IsCheckedFor}};
ghost use Rattle.{tp_node.specs.{Begins.{next_task, ready_count}, Refused.begin_checks}, tp_work.specs.RunQueues.BeginsEach};

use std::alloc::Global;
use std::marker::Model;
use tp_base::{MAX_STEPS, Refusal};
use tp_board::{Board, Ledgers};
use tp_graph::Graph;
use tp_node::{Node, Work};

/// How many of a node's ready tasks a worker begins in one critical section: its share of them, within limits.
#[derive(Clone, Copy)]
pub(crate) struct BatchSize {
    // The number of workers at the node.
    workers: u32,
    // The most tasks that begin in one critical section.
    most: u32,
    ghost some_workers: { 1 ≤ workers },
    ghost few: { (1 ≤ most) × (most ≤ 8) },
}

impl BatchSize {
    /// Returns that of a pool: up to 8 tasks begin at a time, as a batch, so that the board's lock is acquired
    /// less often. The only worker of a pool with one node begins one at a time.
    pub fn new(nodes: u32, workers: u32) -> Self
        requires { 1 ≤ workers }
        ensures workers { result.workers ≡ workers }
        ensures alone { (nodes ≡ 1) × (workers ≡ 1) → result.most ≡ 1 }
        ensures several { (nodes ≢ 1) ⊎ (workers ≢ 1) → result.most ≡ 8 }
    {
        BatchSize {
            workers,
            most: if nodes == 1 && workers == 1 { 1 } else { 8 },
        }
    }

    /// Returns a worker's share of `ready` ready tasks, at least 1, if the history has `events` events. A batch is
    /// never larger than the number of places left, so a history is full at the same event as if tasks began one at a
    /// time.
    #[inline(always)]
    fn of_ready(self, ready: u32, events: usize) -> u32
        requires { events ≤ 1048576 }
        ensures few { (1 ≤ result) × (result ≤ self.most) }
        ensures share { 1 < result → result * self.workers ≤ ready }
        ensures places { 1 < result → events + result ≤ 1048576 }
        ensures same { result ≡ max (min (min (ready / self.workers) (1048576 - events)) self.most) 1 }
    {
        if self.most == 1 {
            return 1;
        }
        let left = MAX_STEPS - events as u32;
        (ready / self.workers).min(left).min(self.most).max(1)
    }
}

/// What a node's lock protects: the node, and the begun work that waits for a worker. Any free worker takes the next
/// one, whichever worker began it, so that none waits behind a long body while another worker of the node is idle. Its
/// invariant: at most seven wait, each of the node's graph. Contracts see the node and the work, next one first.
#[derive(Drop)]
pub(crate) struct RunQueue<G: Graph, K: Ledgers> {
    /// The node.
    pub node: Node<G, K>,
    // The next one is last.
    begun: Vec<Work<G>>,
}

impl<G: Graph, K: Ledgers> Model for RunQueue<G, K> {
    ghost use Rattle.{std.specs.Prelude.reverse, tp_work.specs.RunQueues.{RunQueueState, IsRunQueue, run_queue_code}};

    ghost Value = { RunQueueState G };

    ghost coded = { run_queue_code G.code };

    ghost view = { λ d. record { node = d.node; begun = reverse d.begun.items } };

    ghost invariant = { λ d. IsRunQueue (record { node = d.node; begun = reverse d.begun.items }) };
}

impl<G: Graph, K: Ledgers> RunQueue<G, K> {
    /// Returns the run queue of a node, without work. It allocates nothing.
    pub fn new(alloc: Global, node: Node<G, K>) -> Self
        ensures node { result.node ≡ node }
        ensures none { result.begun ≡ [] }
    {
        RunQueue {
            node,
            begun: Vec::new(alloc),
        }
    }

    /// Returns the node. Work that waits is dropped; there is some only if a fault has stopped the pool.
    pub fn into_node(self) -> Node<G, K>
        ensures { result ≡ self.node }
    {
        let RunQueue { node, begun: _ } = self;
        node
    }

    /// Removes the next waiting work and puts it into `begun`, where the worker needs it, so that it is moved only
    /// once. Returns whether there was one; if not, nothing changes.
    #[inline(always)]
    pub fn take(&mut self, begun: &mut Option<Work<G>>) -> bool
        ensures node { self.new.node ≡ self.old.node }
        ensures next { IsTrue result → self.old.begun ≡ option_to_list begun.new ++ self.new.begun }
        ensures taken { IsTrue result → begun.new ≢ None }
        ensures none { IsFalse result → (self.old.begun ≡ []) × (self.new ≡ self.old) × (begun.new ≡ begun.old) }
    {
        if self.begun.is_empty() {
            return false;
        }
        *begun = self.take_last();
        true
    }

    /// Removes the next waiting work, if there is one. It is separate from `take`, since mostly there is none.
    #[inline(never)]
    fn take_last(&mut self) -> Option<Work<G>>
        ensures node { self.new.node ≡ self.old.node }
        ensures next { self.old.begun ≡ option_to_list result ++ self.new.begun }
        ensures none { IfNone result (self.new.begun ≡ []) }
    {
        self.begun.pop()
    }

    /// Returns the number of tasks that wait for a worker: ready ones, and begun ones.
    #[inline(always)]
    pub fn waiting(&self) -> u64
        ensures { result ≡ ready_count self.now.node + length self.now.begun }
    {
        self.node.counts().ready as u64 + self.begun.len() as u64
    }

    /// Begins a worker's share of the node's ready tasks, and sets `begun` to the first of them, or to `None` if no
    /// task is ready. So the worker gets the task where it needs it, and it is moved only once. The queue has to be
    /// empty, so that work is taken in the order in which it began.
    ///
    /// Refused, if a task is ready: `HistoryFull` if the history has reached its limit; `NoMemory` if the board has to
    /// allocate for the first event and the allocation fails. Nothing changes then.
    #[inline(always)]
    pub(crate) fn begin(
        &mut self,
        board: &mut Board<K>,
        batch_size: BatchSize,
        begun: &mut Option<Work<G>>,
    ) -> Result<(), Refusal>
        requires empty { self.old.begun ≡ [] }
        ensures none { next_task self.old.node ≡ None → IsOk result × (begun.new ≡ None) }
        ensures first { OnOk result
            (MatchOption begun.new (next_task self.old.node ≡ None) (λ first. next_task self.old.node ≡ Some first.task)) }
        ensures begun { OnOk result
            (BeginsEach (option_to_list begun.new ++ self.new.begun) self.old.node self.new.node board.old board.new) }
        ensures refusal { MatchOption (next_task self.old.node) (Unit {0}) (λ t. IsCheckedFor (begin_checks board.old) 1 board.old result) }
        ensures refused { OnErr result (Appends [] board.old board.new × (self.new ≡ self.old) × (begun.new ≡ begun.old)) }
        ensures full { board.old.limit ≡ 1048576 → length board.old.history < 1048576 → IfErr result (λ e. e ≡ NoMemory) }
    {
        let share = batch_size.of_ready(self.node.counts().ready, board.len());
        *begun = self.node.begin(board)?;
        if share > 1 {
            self.begin_more(board, share - 1);
        }
        Ok(())
    }

    /// Begins `count` more ready tasks, which then wait. A refusal ends the loop: the worker that begins the next task
    /// gets it again.
    fn begin_more(&mut self, board: &mut Board<K>, count: u32)
        requires empty { self.old.begun ≡ [] }
        requires few { count ≤ 7 }
        ensures { BeginsEach self.new.begun self.old.node self.new.node board.old board.new }
    {
        if self.begun.reserve(count as usize).is_err() {
            return;
        }
        begin_works(&mut self.node, board, count, &mut self.begun);
        reverse_list(&mut self.begun);
    }
}

/// Begins `count` ready tasks of a node, or fewer if a call is refused or no more are ready, and appends their work to
/// a list in that order.
fn begin_works<G: Graph, K: Ledgers>(
    node: &mut Node<G, K>,
    board: &mut Board<K>,
    count: u32,
    works: &mut Vec<Work<G>>,
)
    requires empty { works.old.items ≡ [] }
    requires room { count ≤ vec_capacity works.old }
    ensures few { vec_len works.new ≤ count }
    ensures begun { BeginsEach works.new.items node.old node.new board.old board.new }
{
    for _ in 0..count {
        match node.begin(board) {
            Ok(Some(work)) => works.push_reserved(work),
            Ok(None) => return,
            Err(_) => return,
        }
    }
}

/// Reverses a list.
fn reverse_list<T>(items: &mut Vec<T>)
    ensures { items.new.items ≡ reverse items.old.items }
{
    items.as_mut_slice().reverse();
}
