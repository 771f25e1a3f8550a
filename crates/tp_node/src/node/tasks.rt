//! The calls of a node that insert, begin and finish tasks, and pass on their feeds within the node.
ghost use Rattle.std.specs.Prelude.{◌≡◌, ◌≤◌, ◌<◌, ◌+◌, ◌-◌, ℕ, [], ◌∷◌, false, Some, None, if◌then◌else◌, is_some, IfErr, IfOk, IsTrue};
ghost use Rattle.{std.specs.Prelude.{MatchBool, MatchOption, OnErr, OnOk}, tp_graph.specs.{Carried.IsFeed, Left.left_of, Values.IsInput}};
ghost use Rattle.tp_base.specs.{Checks.first_refusal, declared.refusal.Refusal.TheVariants.{NoMemory, StoreFull, WrongLife}};
ghost use Rattle.tp_board.specs.{Calls.{IsChecked, IsCheckedForWith, Appends}, States.{IsCheckedFor, IsAtPiece, IsPastPiece, full_check}};
ghost use Rattle.tp_node.specs.{Calls.{Begins, Rests, SeedsIf}, Feeds.{HasFeed, next_feed_of, next_home, passed_on}, Nodes.HasNoSeed};
ghost use Rattle.tp_node.specs.Nodes.{IsFirst, IsNextSeed, IsSeed, IsSeedOf, done_with, event_of, fed_with, inserting, putting_at, seeded};
ghost use Rattle.tp_node.specs.{Nodes.{seeding, task_at}, Refused.{begin_checks, done_checks, feed_checks, lacks_place, runs, seed_checks}};
ghost use Rattle.{tp_node.specs.Refused.slot_checks, tp_slots.specs.Content.front, tp_store.specs.Content.{refusal_of_deliver, task_of}};
ghost use Rattle.tp_base.specs.declared.step.Step.TheVariants as steps;

use crate::Local;
use crate::node::Node;
use crate::work::{Finished, Work};
use tp_base::{Inputs, NodeId, Refusal, Step, TaskId};
use tp_board::{Board, Ledgers};
use tp_graph::{Feed, Graph, Value};
use tp_store::Life;

impl<G: Graph, K: Ledgers> Node<G, K> {
    /// Inserts the lowest task of this node without inputs that was not inserted yet. Returns `false` if none is left.
    ///
    /// Refused, if one is left: `Inactive` if nothing is pending; `HistoryFull` if the history has reached its limit;
    /// `StoreFull` if 65,536 tasks are not done; `NoMemory`.
    pub fn seed(&mut self, board: &mut Board<K>) -> Result<bool, Refusal>
        ensures none { HasNoSeed (G.meaning self.old.graph) self.old → result ≡ Ok false }
        ensures seeded { IfOk result (SeedsIf self.old self.new board.old board.new (G.meaning self.old.graph)) }
        ensures refusal { (t : ℕ) → IsNextSeed (G.meaning self.old.graph) self.old t
            → IsChecked (seed_checks self.old board.old (task_at t)) result }
        ensures refused { OnErr result (Appends [] board.old board.new × (self.new ≡ self.old)) }
    {
        let Some(task) = self.next_seed() else {
            return Ok(false);
        };
        self.insert_seed(board, task)?;
        Ok(true)
    }

    /// Begins the next ready task, of the lowest class that has one, and returns it with its inputs, or returns `None`
    /// if no task is ready.
    ///
    /// Refused, if a task is ready: `HistoryFull` if the history has reached its limit; `NoMemory` if the board has to
    /// allocate for the event, as it may at each 1,024th event or message, and the allocation fails.
    pub fn begin(&mut self, board: &mut Board<K>) -> Result<Option<Work<G>>, Refusal>
        ensures none { front self.old.state.store.ready ≡ None → result ≡ Ok None }
        ensures begun { IfOk result (λ work. MatchOption work
            ((front self.old.state.store.ready ≡ None) × Rests self.old self.new board.old board.new)
            (Begins self.old self.new board.old board.new)) }
        ensures refusal { MatchOption (front self.old.state.store.ready) (Unit {0})
            (λ t. IsCheckedFor (begin_checks board.old) 1 board.old result) }
        ensures piece { IfErr result (IsPastPiece 1 board.old) }
        ensures refused { OnErr result (Appends [] board.old board.new × (self.new ≡ self.old)) }
    {
        if !self.local.has_ready() {
            return Ok(None);
        }
        board.reserve(1)?;
        Ok(self.begin_next(board))
    }

    /// Passes the next feed of a task that runs here on to a task of this node, which is inserted if it is unknown and
    /// else supplied.
    ///
    /// Refused with `WrongLife` if the finished task does not run here; `TaskKnown` if the target has begun or is done;
    /// `SlotTaken` if its slot has its value; `HistoryFull` if the history has reached its limit; `StoreFull` if the
    /// target is unknown and 65,536 tasks are not done; `NoMemory`.
    pub fn feed(&mut self, board: &mut Board<K>, finished: &mut Finished<G>) -> Result<(), Refusal>
        requires graph { finished.old.graph ≡ self.old.graph }
        requires next { HasFeed (G.meaning self.old.graph) finished.old }
        requires here { next_home (G.meaning self.old.graph) finished.old self.old.nodes ≡ self.old.numbers.node }
        ensures event { OnOk result
            (Appends (event_of self.old
            (putting_at (G.meaning self.old.graph) (next_feed_of (G.meaning self.old.graph) finished.old) self.old)
            ∷ []) board.old board.new) }
        ensures put { OnOk result (self.new
            ≡ fed_with (G.meaning self.old.graph) (next_feed_of (G.meaning self.old.graph) finished.old) finished.old.value self.old) }
        ensures passed { OnOk result (finished.new ≡ passed_on finished.old) }
        ensures refusal { IsChecked (feed_checks (G.meaning self.old.graph) self.old board.old finished.old.task
            (next_feed_of (G.meaning self.old.graph) finished.old)) result }
        ensures refused { OnErr result (Appends [] board.old board.new × (self.new ≡ self.old) × (finished.new ≡ finished.old)) }
    {
        self.check_runs(finished.task())?;
        let feed = finished.next_feed();
        let is_full = self.check_put(feed)?;
        make_room(board, 1, is_full)?;
        let value = finished.value().clone()?;
        match self.put(board, feed, value) {
            Ok(()) => {
                finished.pass_on();
                Ok(())
            }
            Err((refusal, _)) => Err(refusal),
        }
    }

    /// Records that a task that runs here is done, after all its feeds were passed on. Its value is appended to the
    /// results if the graph keeps it; else the value is dropped, and the result has no numbers. A finished task that
    /// outlives its generation is accepted if its task runs again in a later one: its value is the right one, and its
    /// feeds count as passed on.
    ///
    /// Refused, and the finished task returned, with `WrongLife` if the task does not run here; `HistoryFull` if the
    /// history has reached its limit; `NoMemory` if the board has to allocate for the event and the allocation fails.
    pub fn done(
        &mut self,
        board: &mut Board<K>,
        finished: Finished<G>,
    ) -> Result<(), (Refusal, Finished<G>)>
        requires graph { finished.graph ≡ self.old.graph }
        requires all_fed { finished.fed ≡ (G.meaning self.old.graph).feeds finished.task.0 }
        ensures event { OnOk result (Appends (event_of self.old (steps.Done finished.task) ∷ []) board.old board.new) }
        ensures done { OnOk result (self.new
            ≡ done_with finished.task (left_of (G.meaning self.old.graph) finished.task.0 finished.value) self.old) }
        ensures refusal { IsCheckedForWith (done_checks self.old board.old finished.task) 1 board.old finished result }
        ensures piece { IfErr result (λ e. IsAtPiece board.old e.0) }
        ensures refused { OnErr result (Appends [] board.old board.new × (self.new ≡ self.old)) }
    {
        let task = finished.task();
        if let Err(refusal) = self.check_runs(task) {
            return Err((refusal, finished));
        }
        if let Err(refusal) = board.append(Step::Done(task), &mut self.shares) {
            return Err((refusal, finished));
        }
        let left = finished.into_left(self.alloc);
        let Ok(()) = self.local.done(task, left) else {
            unreachable!()
        };
        Ok(())
    }
}

// The parts of these calls.
impl<G: Graph, K: Ledgers> Node<G, K> {
    /// Returns the lowest task of this node without inputs that was not inserted yet.
    fn next_seed(&mut self) -> Option<u32>
        ensures same { self.new ≡ self.old }
        ensures next { MatchOption result (HasNoSeed (G.meaning self.old.graph) self.old) (IsNextSeed (G.meaning self.old.graph) self.old) }
    {
        let node = self.shares.node();
        let next = find_seed(&self.graph, self.nodes, node, &self.local, self.next);
        if let Some(task) = next {
            self.next = task;
        }
        next
    }

    /// Inserts a task of this node without inputs.
    fn insert_seed(&mut self, board: &mut Board<K>, task: u32) -> Result<(), Refusal>
        requires seed { IsSeedOf (G.meaning self.old.graph) self.old task }
        ensures event { OnOk result (Appends (event_of self.old (seeding self.old task) ∷ []) board.old board.new) }
        ensures seeded { OnOk result (self.new ≡ seeded (G.meaning self.old.graph) task self.old) }
        ensures refusal { IsChecked (seed_checks self.old board.old (task_at task)) result }
        ensures refused { OnErr result (Appends [] board.old board.new × (self.new ≡ self.old)) }
    {
        let task = TaskId(task);
        if self.local.pending() == 0 {
            return Err(Refusal::Inactive);
        }
        let is_full = self.local.check(task, 0, 0).is_err();
        make_room(board, 1, is_full)?;
        self.local.insert(task, self.graph.class(task))?;
        let Some(none) = Inputs::new(0) else {
            unreachable!()
        };
        let step = Step::Insert(self.shares.node(), task, none);
        let Ok(()) = board.append(step, &mut self.shares) else {
            unreachable!()
        };
        Ok(())
    }

    /// Checks whether the task runs here.
    #[inline(always)]
    pub(crate) fn check_runs(&self, task: TaskId) -> Result<(), Refusal>
        ensures running { MatchBool (runs self.now.state.store task) (result ≡ Ok tt) (result ≡ Err WrongLife) }
        ensures active { IsTrue (runs self.now.state.store task) → 0 < self.now.numbers.pending }
    {
        match self.local.life(task) {
            Some(Life::Running) => Ok(()),
            _ => Err(Refusal::WrongLife),
        }
    }

    /// Checks whether a value can be put at the end of a feed, apart from a full store. Returns whether the task is
    /// unknown and no more tasks can be inserted.
    #[inline(always)]
    pub(crate) fn check_put(&self, feed: Feed) -> Result<bool, Refusal>
        requires active { 0 < self.now.numbers.pending }
        requires feed { IsFeed (G.meaning self.now.graph) feed }
        ensures refusal { MatchOption (first_refusal (slot_checks (G.meaning self.now.graph) self.now.state.store feed)) (result
            ≡ Ok (lacks_place self.now.state.store feed.target)) (λ e. result ≡ Err e) }
        ensures free { IfOk result (λ is_full. is_full ≡ false
            → refusal_of_deliver self.now.state.store feed.target ((G.meaning self.now.graph).arity feed.target.0) feed.slot ≡ None) }
    {
        match self
            .local
            .check(feed.target, self.graph.arity(feed.target), feed.slot)
        {
            Err(Refusal::StoreFull) => Ok(true),
            Err(refusal) => Err(refusal),
            Ok(()) => Ok(false),
        }
    }

    /// Puts a value at the end of a feed, in the place that was reserved for the event. Refused only with `NoMemory`;
    /// the value is then returned.
    #[inline(always)]
    pub(crate) fn put(
        &mut self,
        board: &mut Board<K>,
        feed: Feed,
        value: Value,
    ) -> Result<(), (Refusal, Value)>
        requires reserved { 0 < board.old.reserved }
        requires active { 0 < self.old.numbers.pending }
        requires feed { IsFeed (G.meaning self.old.graph) feed }
        requires here { (G.meaning self.old.graph).home feed.target.0 self.old.nodes ≡ self.old.numbers.node }
        requires input { IsInput (G.meaning self.old.graph) feed.target.0 feed.slot value }
        requires free { refusal_of_deliver self.old.state.store feed.target ((G.meaning self.old.graph).arity feed.target.0) feed.slot
            ≡ None }
        ensures event { OnOk result
            (Appends (event_of self.old (putting_at (G.meaning self.old.graph) feed self.old) ∷ []) board.old board.new) }
        ensures put { OnOk result (self.new ≡ fed_with (G.meaning self.old.graph) feed value self.old) }
        ensures left { OnOk result (board.new.reserved + 1 ≡ board.old.reserved) }
        ensures refused { IfErr result (λ e. e ≡ (NoMemory, value)) }
        ensures kept { OnErr result ((board.new ≡ board.old) × (self.new ≡ self.old)) }
    {
        let arity = self.graph.arity(feed.target);
        let class = self.graph.class(feed.target);
        let step = self.putting_step(feed.target, arity);
        self.local
            .deliver(feed.target, arity, class, feed.slot, value)?;
        let Ok(()) = board.append(step, &mut self.shares) else {
            unreachable!()
        };
        Ok(())
    }

    /// Returns the step that puts a value to a task.
    #[inline(always)]
    fn putting_step(&self, task: TaskId, arity: u8) -> Step
        requires { (0 < arity) × (arity ≤ 16) }
        ensures { result
            ≡ (if is_some (task_of self.now.state.store task) then steps.Supply task else inserting self.now.numbers.node task
            (arity - 1)) }
    {
        if self.local.is_known(task) {
            return Step::Supply(task);
        }
        let Some(inputs) = Inputs::new(arity - 1) else {
            unreachable!()
        };
        Step::Insert(self.shares.node(), task, inputs)
    }
}

/// Returns the lowest task of a node without inputs, from a number on, that was not inserted.
fn find_seed<G: Graph>(graph: &G, nodes: u32, node: NodeId, local: &Local, from: u32) -> Option<u32>
    requires nodes { (1 ≤ nodes) × (nodes ≤ 8) }
    ensures next { IsFirst (IsSeed (G.meaning graph.now) nodes node.0 local.now.store) from result }
{
    for task in from..graph.tasks() {
        if is_seed(graph, nodes, node, local, task) {
            return Some(task);
        }
    }
    None
}

/// Returns whether a task is one of a node without inputs and was not inserted.
fn is_seed<G: Graph>(graph: &G, nodes: u32, node: NodeId, local: &Local, task: u32) -> bool
    requires known { task < (G.meaning graph.now).tasks }
    requires nodes { (1 ≤ nodes) × (nodes ≤ 8) }
    ensures yes { IsTrue result → IsSeed (G.meaning graph.now) nodes node.0 local.now.store task }
    ensures no { IsSeed (G.meaning graph.now) nodes node.0 local.now.store task → IsTrue result }
{
    let task = TaskId(task);
    graph.arity(task) == 0 && graph.home(task, nodes) == node && !local.is_known(task)
}

/// Reserves places and memory for `events` events. A full store is refused before an allocation failure.
pub(crate) fn make_room<K: Ledgers>(
    board: &mut Board<K>,
    events: u32,
    is_full: bool,
) -> Result<(), Refusal>
    ensures reserved { OnOk result (events ≤ board.new.reserved) }
    ensures refusal { IsChecked (full_check events board.old ∷ (is_full, StoreFull) ∷ []) result }
    ensures same { Appends [] board.old board.new }
{
    let room = board.reserve(events);
    if let Err(Refusal::HistoryFull(length)) = room {
        return Err(Refusal::HistoryFull(length));
    }
    if is_full {
        return Err(Refusal::StoreFull);
    }
    room
}
