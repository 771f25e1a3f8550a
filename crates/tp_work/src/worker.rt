//! The worker: a thread that takes turns at a node until the pool has ended. How it passes on feeds and receives
//! messages is in its submodules.
ghost use Rattle.std.specs.Prelude.{◌≡◌, IfOk, None, OnOk, Some, if◌then◌else◌};

mod passing;
mod receiving;

use crate::backoff::lock_with_backoff;
use crate::failed_task::FailedTask;
use crate::gate::Gate;
use crate::hints::KnownHints;
use crate::locks::{Locks, NodeSlot};
use crate::run_queue::{BatchSize, RunQueue};
use std::alloc::{AllocError, Global};
use std::hint::spin_loop;
use std::sync::Wait;
use tp_base::{MAX_NODES, NodeId, Refusal};
use tp_board::{Board, Ended, Ledgers};
use tp_graph::{Comparable, Graph, Value, is_same};
use tp_monitor::TaskpoolState;
use tp_node::{Finished, Node, Turn as ControlTurn, Work};

/// The most messages that are received in one critical section of the node's lock, each in a turn of its own.
const MESSAGES_IN_A_HOLD: u32 = 8;

/// The number of tasks that are inserted in one critical section of the board's lock.
const SEEDS_IN_A_HOLD: u32 = 64;

/// How often an idle worker polls the hints before its first sleep, with a short spin before each poll. A message or a
/// task mostly comes before that. docs/measurements/experiments.md has the measurements.
const MAX_POLLS: u32 = 40;

/// The length of that spin: a poll holds the hints for a moment, and must not slow down the threads that write them.
const SPINS_BEFORE_A_POLL: u32 = 32;

/// A worker of a node, with what it shares with the others.
#[derive(Drop)]
pub(crate) struct Worker<'a, G: Graph, K: Ledgers, A: Gate, R: Wait> {
    pub rt: &'a R,
    pub alloc: Global,
    pub graph: G,
    pub place: NodeId,
    /// How many of its node's ready tasks it begins at a time.
    pub batch_size: BatchSize,
    /// Whether it is the only worker of its node.
    pub is_alone: bool,
    pub idle_turns: u32,
    /// Whether it sleeps at first, because each processor and each node has a worker that started before it.
    pub is_spare: bool,
    pub locks: &'a Locks<G, K>,
    pub gate: &'a A,
    pub failed: &'a FailedTask,
}

/// The task that a worker has in flight between two critical sections of its node's lock. Each turn borrows it, so that
/// a task, which is large, stays at one address until it has run.
#[derive(Drop)]
struct InFlight<G: Graph> {
    /// A task that has begun.
    begun: Option<Work<G>>,
    /// A task that has run, whose feeds are not all passed on.
    finished: Option<Finished<G>>,
}

/// The result of a turn.
enum WorkerTurn<K: Ledgers> {
    /// There was nothing to do.
    Idle,
    /// Something was done.
    Moved,
    /// A task is in flight. It began in this turn, or before and waited for a worker.
    Begun {
        /// Whether another worker was marked as woken and has to be notified.
        wakes: bool,
    },
    /// Termination was detected.
    Over(Ended<K>),
    /// A fault was set, or termination was announced.
    Stop,
}

/// What a worker observed when its node could make no control step: the number of control steps of the node and its
/// neighbours in the tree of the waves, and whether the node was idle. Which step is enabled depends on nothing else, so
/// while both are the same the worker need not try again.
#[derive(Clone, Copy, PartialEq, Eq)]
struct Seen {
    control_steps: u64,
    is_idle: bool,
}

impl<'a, G: Comparable, K: Ledgers, A: Gate, R: Wait> Worker<'a, G, K, A, R> {
    /// Returns the same worker at another node, as a spare one or not.
    pub fn at(&self, place: NodeId, is_spare: bool) -> Self {
        Worker {
            rt: self.rt,
            alloc: self.alloc,
            graph: self.graph,
            place,
            batch_size: self.batch_size,
            is_alone: self.is_alone,
            idle_turns: self.idle_turns,
            is_spare,
            locks: self.locks,
            gate: self.gate,
            failed: self.failed,
        }
    }

    /// Works until the pool has ended. Returns the refusal that stops it before, which it sets as the pool's fault.
    pub fn run(&self) -> Option<Refusal> {
        match self.take_turns() {
            Ok(()) => None,
            Err(refusal) => {
                set_fault(self.rt, self.locks, refusal);
                Some(refusal)
            }
        }
    }

    fn take_turns(&self) -> Result<(), Refusal> {
        let Some(node_slot) = self.locks.node_slots.get(self.place.0 as usize) else {
            return Err(Refusal::NoNode);
        };
        let mut in_flight = InFlight {
            begun: None,
            finished: None,
        };
        let ended = self.work_at(node_slot, &mut in_flight);
        // A task whose body failed is still in flight.
        if let (Err(Refusal::BodyFailed), Some(work)) = (&ended, &in_flight.begun) {
            self.failed.note(self.rt, work.task());
        }
        ended
    }

    /// Takes turns until the pool has ended. The in-flight task is borrowed, so that no way out of this function has to
    /// drop it.
    fn work_at(
        &self,
        node_slot: &NodeSlot<G, K>,
        in_flight: &mut InFlight<G>,
    ) -> Result<(), Refusal> {
        let mut idle = 0u32;
        let mut seen = None;
        if self.is_spare {
            self.sleep_at_start(node_slot);
        }
        for _ in self.rt.forever() {
            match self.turn(node_slot, in_flight, idle, &mut seen)? {
                WorkerTurn::Idle => {
                    idle = idle.saturating_add(1);
                    if idle >= self.idle_turns {
                        return Err(Refusal::Stalled(idle));
                    }
                    self.rest(node_slot, seen, idle);
                }
                WorkerTurn::Moved => idle = 0,
                WorkerTurn::Begun { wakes } => {
                    if wakes {
                        node_slot.hints.notify();
                    }
                    self.perform(in_flight, idle)?;
                    idle = 0;
                }
                WorkerTurn::Over(ended) => return self.announce(ended),
                WorkerTurn::Stop => return Ok(()),
            }
        }
        unreachable!()
    }

    /// Sleeps before the first turn: until the worker is woken, at most for the longest time of a sleep.
    #[cold]
    #[inline(never)]
    fn sleep_at_start(&self, node_slot: &NodeSlot<G, K>) {
        self.locks.oversubscription.add_sleeper(self.rt);
        node_slot.hints.sleep_at_start(self.rt);
        self.locks.oversubscription.remove_sleeper(self.rt);
    }

    /// After the first idle turn in a row, polls the hints; after each further one, sleeps unless the hints show
    /// something that a turn may do. If there are more workers than processors it does not poll: that would keep a
    /// processor from another worker.
    #[cold]
    #[inline(never)]
    fn rest(&self, node_slot: &NodeSlot<G, K>, seen: Option<Seen>, idle: u32) {
        let control_steps = match seen {
            Some(seen) => Some(seen.control_steps),
            None => None,
        };
        if !self.locks.oversubscription.has_surplus() {
            if idle == 1 {
                poll_hints(node_slot, control_steps);
            } else {
                node_slot.hints.sleep(self.rt, control_steps, idle);
            }
        } else if !node_slot.hints.poll(control_steps) {
            self.locks.oversubscription.add_sleeper(self.rt);
            self.locks.wake_elsewhere(self.rt);
            node_slot.hints.sleep(self.rt, control_steps, idle);
            self.locks.oversubscription.remove_sleeper(self.rt);
        }
    }

    /// Passes on what the worker's last task computed, and takes a turn, all in one critical section of the node's
    /// lock.
    #[inline(always)]
    fn turn(
        &self,
        node_slot: &NodeSlot<G, K>,
        in_flight: &mut InFlight<G>,
        idle: u32,
        seen: &mut Option<Seen>,
    ) -> Result<WorkerTurn<K>, Refusal> {
        // It is dropped after the lock, which is acquired later: it may have many numbers.
        let mut spent = None;
        let mut locked = self.locks.lock_node(self.rt, node_slot);
        let locked = &mut *locked;
        self.turn_at(
            &mut locked.run_queue,
            &mut locked.known,
            node_slot,
            in_flight,
            idle,
            seen,
            &mut spent,
        )
    }

    /// Passes on what the worker's last task computed, and takes a turn of the node. A copy of a value that the graph
    /// does not keep is left in `spent`, so that the node does not drop the last copy under its lock.
    #[inline(always)]
    fn turn_at(
        &self,
        run_queue: &mut RunQueue<G, K>,
        known: &mut KnownHints,
        node_slot: &NodeSlot<G, K>,
        in_flight: &mut InFlight<G>,
        idle: u32,
        seen: &mut Option<Seen>,
        spent: &mut Option<Value>,
    ) -> Result<WorkerTurn<K>, Refusal> {
        check_node(&run_queue.node, self.place, &self.graph)?;
        if let Some(finished) = &in_flight.finished {
            *spent = unkept(finished)?;
            self.pass_on(&mut run_queue.node, &mut in_flight.finished)?;
        }
        if known.is_stopped {
            return Ok(WorkerTurn::Stop);
        }
        if !self.gate.inside(self.place) {
            return Err(Refusal::Stalled(idle));
        }
        match run_queue.node.state() {
            TaskpoolState::Terminated => Ok(WorkerTurn::Stop),
            TaskpoolState::NotReady => self.open(&mut run_queue.node, known, node_slot),
            _ => self.go_on(run_queue, known, node_slot, in_flight, seen),
        }
    }

    /// Inserts tasks without inputs, and closes the opening action after the last.
    fn open(
        &self,
        here: &mut Node<G, K>,
        known: &mut KnownHints,
        node_slot: &NodeSlot<G, K>,
    ) -> Result<WorkerTurn<K>, Refusal>
        ensures { here.new.graph ≡ here.old.graph }
    {
        let mut board = lock_with_backoff(self.rt, &self.locks.board);
        let opened = open_tasks(here, &mut board);
        drop(board);
        opened?;
        self.store_waiting_hint(known, node_slot, here.counts().ready > 0, false);
        Ok(WorkerTurn::Moved)
    }

    /// Takes a turn of a node whose opening action is closed. If messages were received, those turns and the one that
    /// begins a task share one critical section of the node's lock.
    #[inline(always)]
    fn go_on(
        &self,
        run_queue: &mut RunQueue<G, K>,
        known: &mut KnownHints,
        node_slot: &NodeSlot<G, K>,
        in_flight: &mut InFlight<G>,
        seen: &mut Option<Seen>,
    ) -> Result<WorkerTurn<K>, Refusal> {
        if run_queue.node.nodes() > 1 {
            node_slot.hints.take_senders(self.rt, &mut known.senders);
        }
        let took = !known.senders.is_empty()
            && self.receive_some(&mut run_queue.node, &mut known.senders)?;
        let waiting = run_queue.waiting();
        if took {
            if waiting == 0 {
                let has_waiting = !known.senders.is_empty();
                self.store_waiting_hint(known, node_slot, has_waiting, false);
                return Ok(WorkerTurn::Moved);
            }
            self.may_go_on()?;
        }
        let has_waiting = waiting > 1 || !known.senders.is_empty();
        let wakes = self.store_waiting_hint(known, node_slot, has_waiting, waiting > 1);
        if waiting > 0 {
            self.next_work(run_queue, &mut in_flight.begun)?;
            if in_flight.begun.is_some() {
                return Ok(WorkerTurn::Begun { wakes });
            }
        }
        self.control(&mut run_queue.node, node_slot, seen)
    }

    /// Stores whether work waits at the node for a worker, unless the hints say so already. If a worker is to be woken
    /// for it and one sleeps, marks it as woken. Returns whether the caller has to notify it, after it has released the
    /// node's lock. If the worker is the only one of its node, no thread reads that hint.
    #[inline(always)]
    fn store_waiting_hint(
        &self,
        known: &mut KnownHints,
        node_slot: &NodeSlot<G, K>,
        has_waiting: bool,
        wakes: bool,
    ) -> bool {
        if self.is_alone
            || known.are_stored(has_waiting, self.locks.oversubscription.has_surplus())
        {
            return false;
        }
        self.store_changed_hint(known, node_slot, has_waiting, wakes)
    }

    #[inline(never)]
    fn store_changed_hint(
        &self,
        known: &mut KnownHints,
        node_slot: &NodeSlot<G, K>,
        has_waiting: bool,
        wakes: bool,
    ) -> bool {
        let least = if wakes {
            self.locks.oversubscription.least_sleepers()
        } else {
            u32::MAX
        };
        let (sleepers, wakes) = node_slot.hints.store_waiting(self.rt, has_waiting, least);
        known.note_stored(has_waiting, sleepers);
        wakes
    }

    /// Takes the next work of the run queue in flight. If none waits there, the worker's share of the ready tasks
    /// begins.
    #[inline(always)]
    fn next_work(
        &self,
        run_queue: &mut RunQueue<G, K>,
        begun: &mut Option<Work<G>>,
    ) -> Result<(), Refusal> {
        if run_queue.take(begun) {
            return Ok(());
        }
        let mut board = lock_with_backoff(self.rt, &self.locks.board);
        run_queue.begin(&mut board, self.batch_size, begun)
    }

    /// Makes a control step, if one is enabled for the node.
    fn control(
        &self,
        here: &mut Node<G, K>,
        node_slot: &NodeSlot<G, K>,
        seen: &mut Option<Seen>,
    ) -> Result<WorkerTurn<K>, Refusal>
        ensures { here.new ≡ here.old }
    {
        // The steps are counted after the board is released, so a step that comes after this try changes the number.
        let now = Some(Seen {
            control_steps: node_slot.hints.control_steps(self.rt),
            is_idle: here.pending() == 0,
        });
        if *seen == now {
            return Ok(WorkerTurn::Idle);
        }
        match self.control_turn(here)? {
            ControlTurn::Idle => {
                *seen = now;
                Ok(WorkerTurn::Idle)
            }
            ControlTurn::Moved => {
                self.locks.wake_tree_neighbours(self.rt, self.place);
                Ok(WorkerTurn::Moved)
            }
            ControlTurn::Over(ended) => Ok(WorkerTurn::Over(ended)),
        }
    }

    #[inline(always)]
    fn control_turn(&self, here: &mut Node<G, K>) -> Result<ControlTurn<K>, Refusal>
        ensures { here.new ≡ here.old }
    {
        let mut board = lock_with_backoff(self.rt, &self.locks.board);
        here.control_turn(&mut board)
    }

    /// Runs the body of the in-flight task, while the worker holds no lock.
    #[inline(always)]
    fn perform(&self, in_flight: &mut InFlight<G>, idle: u32) -> Result<(), Refusal> {
        if let Some(work) = &in_flight.begun {
            if !self.gate.before(work.task()) {
                return Err(Refusal::Stalled(idle));
            }
            in_flight.finished = Some(work.run(self.alloc)?);
        }
        in_flight.begun = None;
        Ok(())
    }

    /// Announces termination to each node, stores the termination token and stops the workers.
    fn announce(&self, ended: Ended<K>) -> Result<(), Refusal> {
        let mut ended = ended;
        for place in 0..MAX_NODES {
            let Some(node_slot) = self.locks.node_slots.get(place as usize) else {
                break;
            };
            self.announce_at(node_slot, NodeId(place), &mut ended)?;
        }
        *lock_with_backoff(self.rt, &self.locks.token) = Some(ended);
        self.locks.stop(self.rt);
        Ok(())
    }

    fn announce_at(
        &self,
        node_slot: &NodeSlot<G, K>,
        place: NodeId,
        ended: &mut Ended<K>,
    ) -> Result<(), Refusal> {
        let mut locked = lock_with_backoff(self.rt, &node_slot.locked);
        let checked = check_node(&locked.run_queue.node, place, &self.graph);
        if checked.is_ok() {
            let mut board = lock_with_backoff(self.rt, &self.locks.board);
            tell_end(&mut locked.run_queue, ended, &mut board);
        }
        checked
    }
}

/// Announces termination to the node of a run queue.
fn tell_end<G: Graph, K: Ledgers>(
    run_queue: &mut RunQueue<G, K>,
    ended: &mut Ended<K>,
    board: &mut Board<K>,
) {
    run_queue.node.quiet_under(ended, board);
}

/// Polls the hints of a node until they show something that a turn may do, for a limited time in which the thread keeps
/// the processor.
fn poll_hints<G: Graph, K: Ledgers>(node_slot: &NodeSlot<G, K>, control_steps: Option<u64>) {
    for _ in 0..MAX_POLLS {
        for _ in 0..SPINS_BEFORE_A_POLL {
            spin_loop();
        }
        if node_slot.hints.poll(control_steps) {
            return;
        }
    }
}

/// Returns a copy of a finished task's value, if the graph does not keep it.
#[inline(always)]
fn unkept<G: Graph>(finished: &Finished<G>) -> Result<Option<Value>, AllocError>
    ensures { IfOk result (λ copy.
        copy ≡ (if (G.meaning finished.now.graph).keeps finished.now.task.0 then None else Some finished.now.value)) }
{
    if finished.graph().keeps(finished.task()) {
        return Ok(None);
    }
    Ok(Some(finished.value().clone()?))
}

/// Inserts tasks without inputs, and closes the opening action after the last.
fn open_tasks<G: Graph, K: Ledgers>(
    here: &mut Node<G, K>,
    board: &mut Board<K>,
) -> Result<(), Refusal>
    ensures { here.new.graph ≡ here.old.graph }
{
    for _ in 0..SEEDS_IN_A_HOLD {
        if !here.seed(board)? {
            return here.ready(board);
        }
    }
    Ok(())
}

/// Checks that a node has this number and is of this graph.
fn check_node<G: Comparable, K: Ledgers>(
    node: &Node<G, K>,
    place: NodeId,
    graph: &G,
) -> Result<(), Refusal>
    ensures place { OnOk result (node.now.numbers.node ≡ place.0) }
    ensures graph { OnOk result (node.now.graph ≡ graph.now) }
{
    if node.number() != place {
        return Err(Refusal::NoNode);
    }
    if !is_same(&node.graph(), graph) {
        return Err(Refusal::Stranger);
    }
    Ok(())
}

/// Sets the pool's fault, unless one was set before, and stops the workers.
pub(crate) fn set_fault<G: Graph, K: Ledgers, R: Wait>(
    rt: &R,
    locks: &Locks<G, K>,
    refusal: Refusal,
) {
    locks.board.lock(rt).set_fault(refusal);
    locks.stop(rt);
}
