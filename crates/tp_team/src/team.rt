//! The team: its calls. Each is made under one lock of the caller.
ghost use Rattle.std.specs.Prelude.{◌≡◌, ◌≤◌, ◌<◌, ◌+◌, ◌-◌, ◌⊎◌, ℕ, length, Ok, Err, Some, None, IsTrue, true, false, IfOk, OnOk, OnErr};
ghost use Rattle.std.specs.Prelude.{IfErr, IfSome};
ghost use Rattle.tp_base.specs.declared.refusal.Refusal.TheVariants as refusal;
ghost use Rattle.tp_dag.specs.State.{is_traced, ready_tasks, unfinished_tasks};
ghost use Rattle.tp_dag.specs.Calls as dag;
ghost use Rattle.tp_dag.specs.{Calls.{Becomes, one_more, one_less}, Describing.fault_of};
ghost use Rattle.tp_team.specs.declared.refusal.TeamRefusal.TheVariants as team;
ghost use Rattle.tp_team.specs.Calls.{first, of_pool, fault_check, describe_checks, record_checks, start_checks, again_checks};
ghost use Rattle.tp_team.specs.Calls.{reset_checks, spawn_checks, IsGraphRefusal, opened, Changes, with_pool, with_graph, repeated, Starts};
ghost use Rattle.tp_team.specs.{Calls.{Stops, TakesTurn}, Laws.NeverStuck, State.{LosesNoWakeUp, Settles}};

use crate::refusal::{Fault, TeamRefusal};
use crate::state::State;
use crate::turn::{Arrival, Reply, Spawned};
use crate::waiting::Waiting;
use std::alloc::Global;
use std::marker::Model;
use tp_base::Refusal;
use tp_dag::{Event, Pool, never_silent};

/// A pool of tasks and the threads that run them.
#[derive(Drop)]
pub struct Team {
    state: State,
}

impl Model for Team {
    ghost use Rattle.tp_team.specs.{State.LosesNoWakeUp, declared.state.State.State};

    ghost Value = { State };

    ghost view = { λ t. t.state };

    ghost invariant = { λ t. LosesNoWakeUp t.state };
}

impl Team {
    /// A team with an empty graph, on a machine that runs this number of threads at once. It takes no memory.
    pub fn open(alloc: Global, traced: bool, processors: u32) -> Team
        ensures { result ≡ opened traced processors }
    {
        Team {
            state: State {
                pool: Pool::new(alloc, traced),
                processors,
                threads: 0,
                waiting: Waiting::none(),
                fault: None,
            },
        }
    }

    /// What holds between any two calls, in whatever order they are made.
    pub fn invariant(&self)
        ensures wake_ups { LosesNoWakeUp self.now }
        ensures never_stuck { NeverStuck self.now }
    {
        let _ready = self.state.has_ready();
        self.state.pool.invariant();
        never_silent();
    }

    /// Describes a whole graph of `offsets.len() - 1` tasks, as `Pool::describe` does, all of it or nothing.
    ///
    /// Refused with the number of a task, and nothing changes: the fault, with 0; `WrongLife` with 0 if the team has tasks or a run was
    /// started; and as the pool's `describe`.
    pub fn describe(
        &mut self,
        classes: &[u8],
        offsets: &[u32],
        inputs: &[u32],
    ) -> Result<(), (TeamRefusal, u32)>
        ensures ok { OnOk result (self.new ≡
            with_graph (record { classes = classes.now; offsets = offsets.now; inputs = inputs.now }) self.old) }
        ensures none { OnOk result ((t : ℕ) → t + 1 < length offsets.now
            → fault_of (record { classes = classes.now; offsets = offsets.now; inputs = inputs.now }) t self.old.pool ≡ None) }
        ensures err { OnErr result (self.new ≡ self.old) }
        ensures checks { IfSome (first (describe_checks
            (record { classes = classes.now; offsets = offsets.now; inputs = inputs.now }) self.old)) (λ r. result ≡ Err (r, 0)) }
        ensures exact { IfErr result (λ e. IsGraphRefusal
            (record { classes = classes.now; offsets = offsets.now; inputs = inputs.now }) self.old e.0 e.1) }
    {
        if let Some(fault) = self.state.fault {
            return Err((fault.refusal, 0));
        }
        if let Err((refusal, task)) = self.state.pool.describe(classes, offsets, inputs) {
            return Err((TeamRefusal::Pool(refusal), task));
        }
        Ok(())
    }

    /// Whether the caller may begin or end to record times: no thread can be in a turn then.
    ///
    /// Refused: the fault; `Running` if a turn has not returned or a task runs; `WrongLife` if a run was started.
    pub fn may_record(&self) -> Result<(), TeamRefusal>
        ensures checks { IfSome (first (record_checks self.now)) (λ r. result ≡ Err r) }
        ensures exact { IfErr result (λ r. first (record_checks self.now) ≡ Some r) }
    {
        if let Some(refusal) = self.state.again_refusal() {
            return Err(refusal);
        }
        if self.state.pool.is_started() {
            return Err(TeamRefusal::Pool(Refusal::WrongLife));
        }
        Ok(())
    }

    /// Starts a run on this number of threads. Returns how many sleeping threads are to be signalled: all.
    ///
    /// Refused, and nothing changes: the fault; in a run `Running` if a turn has not returned or a task runs, else `Ended` if all tasks
    /// are done, else `WrongLife`; `NoThread` if there are to be 0; and of a traced pool `HistoryFull` or `NoMemory`.
    pub fn start(&mut self, threads: u32) -> Result<u32, TeamRefusal>
        ensures ok { IfOk result (λ signals. Starts threads self.old self.new signals) }
        ensures err { OnErr result (self.new ≡ self.old) }
        ensures checks { IfSome (first (start_checks self.old threads (of_pool (dag.start_checks self.old.pool)))) (λ r. result ≡ Err r) }
        ensures exact { IfErr result (λ r. (first (start_checks self.old threads (of_pool (dag.start_checks self.old.pool))) ≡ Some r)
            ⊎ ((r ≡ team.Pool refusal.NoMemory) × IsTrue (is_traced self.old.pool))) }
    {
        if let Some(refusal) = self.state.start_refusal(threads) {
            return Err(refusal);
        }
        self.state.pool.start()?;
        let signals = self.state.waiting.sleeping;
        self.state.waiting = self.state.waiting.signalled_by(signals);
        self.state.threads = threads;
        Ok(signals)
    }

    /// One turn of a thread: it comes back if it spun or slept, and reports the task that it ran (`None`: none). Returns what it is to do
    /// next: to spin only if `polls` is not 0 and the machine has a processor for each thread of the run.
    ///
    /// A task that does not run ends the team: the fault is then the pool's `NoTask` or `WrongLife`, with that task. A thread that has to
    /// wait is refused as `HistoryFull` if `MAX_THREADS` wait.
    pub fn turn(&mut self, arrival: Arrival, done: Option<u32>, polls: u32) -> Reply
        ensures { TakesTurn arrival done polls self.old self.new result }
    {
        self.state.waiting = self.state.waiting.without(arrival);
        self.state.report(done);
        let turn = self.state.decide(polls);
        let signals = self.state.settle();
        Reply { turn, signals }
    }

    /// Ends the team because of a task, or of none: each later turn is refused as `Stopped`. Once there is a fault, and once all tasks
    /// are done, nothing changes. Returns how many sleeping threads are to be signalled.
    pub fn stop(&mut self, task: Option<u32>) -> u32
        ensures { Stops task self.old self.new result }
    {
        let _ended = self.state.stop(task);
        self.state.settle()
    }

    /// The same graph once more: `start` may be called again.
    ///
    /// Refused, and nothing changes: the fault; `Running` if a turn has not returned or a task runs; `WrongLife` if not all tasks of a
    /// run are done, or if tasks were added in it.
    pub fn again(&mut self) -> Result<(), TeamRefusal>
        ensures ok { OnOk result (self.new ≡ repeated self.old) }
        ensures err { OnErr result (self.new ≡ self.old) }
        ensures checks { IfSome (first (again_checks self.old (of_pool (dag.again_checks self.old.pool)))) (λ r. result ≡ Err r) }
        ensures exact { IfErr result (λ r. first (again_checks self.old (of_pool (dag.again_checks self.old.pool))) ≡ Some r) }
    {
        if let Some(refusal) = self.state.again_refusal() {
            return Err(refusal);
        }
        self.state.pool.again()?;
        self.state.threads = 0;
        Ok(())
    }

    /// The same graph once more, also after a fault, which is forgotten, or before a run: the tasks of a run that was ended early count as
    /// never dispatched. After a fault the team does not know which bodies still run: the caller calls this when all have returned.
    ///
    /// Refused, and nothing changes: `Running` if a turn has not returned, or if a task runs and there is no fault; `WrongLife` if tasks
    /// were added in a run.
    pub fn reset(&mut self) -> Result<(), TeamRefusal>
        ensures ok { OnOk result (self.new ≡ repeated self.old) }
        ensures err { OnErr result (self.new ≡ self.old) }
        ensures checks { IfSome (first (reset_checks self.old (of_pool (dag.reset_checks self.old.pool)))) (λ r. result ≡ Err r) }
        ensures exact { IfErr result (λ r. first (reset_checks self.old (of_pool (dag.reset_checks self.old.pool))) ≡ Some r) }
    {
        if self.state.may_have_bodies() {
            return Err(TeamRefusal::Running);
        }
        self.state.pool.reset()?;
        self.state.threads = 0;
        self.state.fault = None;
        Ok(())
    }

    /// One more input from outside for a task. Returns how many sleeping threads are to be signalled.
    ///
    /// Refused, and nothing changes: the fault; and as the pool's `outside`.
    pub fn outside(&mut self, task: u32) -> Result<u32, TeamRefusal>
        ensures ok { IfOk result (λ signals. Changes (Becomes task one_more) self.old self.new signals) }
        ensures err { OnErr result (self.new ≡ self.old) }
        ensures checks { IfSome (first (fault_check self.old.fault (of_pool (dag.outside_checks self.old.pool task))))
            (λ r. result ≡ Err r) }
        ensures exact { IfErr result (λ r. first (fault_check self.old.fault (of_pool (dag.outside_checks self.old.pool task))) ≡ Some r) }
    {
        if let Some(fault) = self.state.fault {
            return Err(fault.refusal);
        }
        match self.state.pool.outside(task) {
            Ok(()) => Ok(self.state.settle()),
            Err(refusal) => Err(TeamRefusal::Pool(refusal)),
        }
    }

    /// One input from outside of a task is there. Returns how many sleeping threads are to be signalled.
    ///
    /// Refused, and nothing changes: the fault; and as the pool's `release`.
    pub fn release(&mut self, task: u32) -> Result<u32, TeamRefusal>
        ensures ok { IfOk result (λ signals. Changes (Becomes task one_less) self.old self.new signals) }
        ensures err { OnErr result (self.new ≡ self.old) }
        ensures checks { IfSome (first (fault_check self.old.fault (of_pool (dag.release_checks self.old.pool task))))
            (λ r. result ≡ Err r) }
        ensures exact { IfErr result (λ r. first (fault_check self.old.fault (of_pool (dag.release_checks self.old.pool task))) ≡ Some r) }
    {
        if let Some(fault) = self.state.fault {
            return Err(fault.refusal);
        }
        match self.state.pool.release(task) {
            Ok(()) => Ok(self.state.settle()),
            Err(refusal) => Err(TeamRefusal::Pool(refusal)),
        }
    }

    /// Adds a task of a class 0 to 3, before a run or in it. It reads what the tasks `inputs` make, and waits for `outside` inputs from
    /// outside. Before the lock is released, no thread can take it. Returns its number, and how many sleeping threads are to be
    /// signalled.
    ///
    /// Refused, and nothing changes: the fault; `Ended` if all tasks of a run are done; and as the pool's `spawn`.
    pub fn spawn(
        &mut self,
        class: u32,
        inputs: &[u32],
        outside: u32,
    ) -> Result<Spawned, TeamRefusal>
        ensures task { IfOk result (λ s. s.task ≡ length self.old.pool.tasks) }
        ensures ok { IfOk result (λ s.
            Settles (with_pool (dag.with_spawned class inputs.now outside self.old.pool) self.old) self.new s.signals) }
        ensures err { OnErr result (self.new ≡ self.old) }
        ensures checks { IfSome (first (spawn_checks self.old (of_pool (dag.spawn_checks self.old.pool class inputs.now outside))))
            (λ r. result ≡ Err r) }
        ensures exact { IfErr result (λ r.
            (first (spawn_checks self.old (of_pool (dag.spawn_checks self.old.pool class inputs.now outside))) ≡ Some r)
            ⊎ (r ≡ team.Pool refusal.NoMemory)) }
    {
        match self.state.spawn(class, inputs, outside) {
            Ok(task) => Ok(Spawned {
                task,
                signals: self.state.settle(),
            }),
            Err(refusal) => Err(refusal),
        }
    }

    /// Returns the number of tasks.
    pub fn tasks(&self) -> u32
        ensures { result ≡ length self.now.pool.tasks }
    {
        self.state.pool.tasks()
    }

    /// Returns the number of tasks that are not done.
    pub fn left(&self) -> u32
        ensures { result ≡ unfinished_tasks self.now.pool }
    {
        self.state.pool.left()
    }

    /// Returns the number of ready tasks: a thread that spins polls whether it is 0.
    pub fn ready(&self) -> u32
        ensures { result ≡ ready_tasks self.now.pool }
    {
        self.state.pool.ready()
    }

    /// Returns event number `k` of this run, the oldest being 0, if the team is traced and has as many.
    pub fn event(&self, k: u32) -> Option<Event>
        ensures { result ≡ dag.event_at self.now.pool.kept k }
    {
        self.state.pool.event(k)
    }

    /// The fault that ends each turn.
    pub fn fault(&self) -> Option<Fault>
        ensures { result ≡ self.now.fault }
    {
        self.state.fault
    }

    /// The threads in turns that have not returned.
    pub fn waiting(&self) -> Waiting
        ensures { result ≡ self.now.waiting }
    {
        self.state.waiting
    }
}
