//! A team's parts, and the steps that its calls are made of. Between two steps a wake-up may be missing.
ghost use Rattle.std.specs.Prelude.{◌&&◌, ◌==◌, ◌≡◌, ◌≤◌, ◌<◌, ◌+◌, ◌↔◌, ◌⊎◌, ◌∷◌, [], ℕ, IsTrue, length, IsSome, IfSome, IfNone, IfOk};
ghost use Rattle.std.specs.Prelude.{IfErr, OnOk, OnErr, Some, None, Ok, Err};
ghost use Rattle.tp_base.specs.declared.refusal.Refusal.TheVariants as refusal;
ghost use Rattle.tp_dag.specs.Calls as dag;
ghost use Rattle.tp_team.specs.declared.refusal.TeamRefusal.TheVariants as team;
ghost use Rattle.tp_team.specs.Calls.{first, of_pool, fault_check, again_checks, spawn_checks, start_checks, with_pool, Reports, Decides};
ghost use Rattle.tp_team.specs.{Calls.{HasToWait, stopped_by, may_spin}, State.{in_turns, HasEnded, HasFinished, HasReady, Settles}};
ghost use Rattle.tp_team.specs.{State.LosesNoWakeUp, declared.{limits.TheConstants.MAX_THREADS, state.State.State}};
ghost use Rattle.tp_team.specs.Calls as of_calls;

use crate::limits::MAX_THREADS;
use crate::refusal::{Fault, TeamRefusal};
use crate::turn::Turn;
use crate::waiting::Waiting;
use tp_base::Refusal;
use tp_dag::{Next, Pool, ready_is_this};

/// A team's parts.
#[derive(Drop)]
pub struct State {
    pub(crate) pool: Pool,
    /// How many threads the machine runs at once.
    pub(crate) processors: u32,
    /// How many threads were announced for the run; 0 if none was started.
    pub(crate) threads: u32,
    pub(crate) waiting: Waiting,
    /// Why each turn is refused.
    pub(crate) fault: Option<Fault>,
}

impl State {
    // whether all tasks of a run are done
    #[inline]
    pub(crate) fn has_finished(&self) -> bool
        ensures finished { IsTrue result ↔ HasFinished self.now }
        ensures test { result ≡ of_calls.has_finished self.now }
    {
        self.pool.is_over()
    }

    // whether no turn waits any more
    #[inline]
    pub(crate) fn has_ended(&self) -> bool
        ensures { IsTrue result ↔ HasEnded self.now }
    {
        if self.fault.is_some() {
            return true;
        }
        self.has_finished()
    }

    // whether a run is on, in which a task is ready
    #[inline]
    pub(crate) fn has_ready(&self) -> bool
        ensures { IsTrue result ↔ HasReady self.now }
    {
        ready_is_this();
        if self.pool.is_started() {
            return self.pool.ready() > 0;
        }
        false
    }

    // whether a turn has not returned or a task runs
    pub(crate) fn is_busy(&self) -> bool
        requires { in_turns self.now.waiting ≤ MAX_THREADS }
        ensures { result ≡ of_calls.is_busy self.now }
    {
        if self.waiting.total() > 0 {
            return true;
        }
        self.pool.running() > 0
    }

    /// Whether a turn has not returned, or a task runs and there is no fault.
    pub(crate) fn may_have_bodies(&self) -> bool
        requires { in_turns self.now.waiting ≤ MAX_THREADS }
        ensures { result ≡ of_calls.may_have_bodies self.now }
    {
        if self.fault.is_some() {
            return self.waiting.total() > 0;
        }
        self.is_busy()
    }

    // the fault, and then what comes of the test
    #[inline]
    fn fault_or(&self, holds: bool, refusal: TeamRefusal) -> Option<TeamRefusal>
        ensures { result ≡ first (fault_check self.now.fault ((holds, refusal) ∷ [])) }
    {
        if let Some(fault) = self.fault {
            return Some(fault.refusal);
        }
        if holds {
            return Some(refusal);
        }
        None
    }

    /// Why no run may be prepared now, but for the pool's reasons.
    pub(crate) fn again_refusal(&self) -> Option<TeamRefusal>
        requires { in_turns self.now.waiting ≤ MAX_THREADS }
        ensures { result ≡ first (again_checks self.now []) }
    {
        self.fault_or(self.is_busy(), TeamRefusal::Running)
    }

    /// Why no task may be added now, but for the pool's reasons.
    fn spawn_refusal(&self) -> Option<TeamRefusal>
        ensures { result ≡ first (spawn_checks self.now []) }
    {
        self.fault_or(self.has_finished(), TeamRefusal::Pool(Refusal::Ended))
    }

    /// Adds a task to the pool. A sleeping thread may have to be signalled then.
    pub(crate) fn spawn(
        &mut self,
        class: u32,
        inputs: &[u32],
        outside: u32,
    ) -> Result<u32, TeamRefusal>
        ensures task { IfOk result (λ t. t ≡ length self.old.pool.tasks) }
        ensures ok { OnOk result (self.new ≡ with_pool (dag.with_spawned class inputs.now outside self.old.pool) self.old) }
        ensures err { OnErr result (self.new ≡ self.old) }
        ensures checks { IfSome (first (spawn_checks self.old (of_pool (dag.spawn_checks self.old.pool class inputs.now outside))))
            (λ r. result ≡ Err r) }
        ensures exact { IfErr result (λ r.
            (first (spawn_checks self.old (of_pool (dag.spawn_checks self.old.pool class inputs.now outside))) ≡ Some r)
            ⊎ (r ≡ team.Pool refusal.NoMemory)) }
    {
        if let Some(refusal) = self.spawn_refusal() {
            return Err(refusal);
        }
        match self.pool.spawn(class, inputs, outside) {
            Ok(task) => Ok(task),
            Err(refusal) => Err(TeamRefusal::Pool(refusal)),
        }
    }

    /// Why no run may be started now on this number of threads, but for the pool's reasons.
    pub(crate) fn start_refusal(&self, threads: u32) -> Option<TeamRefusal>
        requires { in_turns self.now.waiting ≤ MAX_THREADS }
        ensures { result ≡ first (start_checks self.now threads []) }
    {
        if let Some(fault) = self.fault {
            return Some(fault.refusal);
        }
        if self.pool.is_started() {
            if self.is_busy() {
                return Some(TeamRefusal::Running);
            }
            if self.has_finished() {
                return Some(TeamRefusal::Pool(Refusal::Ended));
            }
            return Some(TeamRefusal::Pool(Refusal::WrongLife));
        }
        if threads == 0 {
            return Some(TeamRefusal::NoThread);
        }
        None
    }

    /// Counts sleeping threads as signalled, as many as have to be. Returns their number.
    #[inline]
    pub(crate) fn settle(&mut self) -> u32
        requires { in_turns self.old.waiting ≤ MAX_THREADS }
        ensures signals { Settles self.old self.new result }
        ensures awake { LosesNoWakeUp self.new }
    {
        let ended = self.has_ended();
        let ready = self.has_ready();
        let signals = self.waiting.needed(ended, ready);
        self.waiting = self.waiting.signalled_by(signals);
        signals
    }

    /// A turn reports a task as done, or none.
    #[inline]
    pub(crate) fn report(&mut self, done: Option<u32>)
        ensures reports { Reports done self.old self.new }
        ensures waiting { self.new.waiting ≡ self.old.waiting }
    {
        let Some(task) = done else {
            return;
        };
        if self.fault.is_some() {
            return;
        }
        if let Err(refusal) = self.pool.done(task) {
            self.fault = Some(Fault {
                refusal: TeamRefusal::Pool(refusal),
                task: done,
            });
        }
    }

    /// Sets a fault, unless the team has ended. Returns whether it had.
    pub(crate) fn stop(&mut self, task: Option<u32>) -> bool
        ensures ended { IsTrue result ↔ HasEnded self.old }
        ensures stopped { self.new ≡ stopped_by result task self.old }
    {
        if self.has_ended() {
            return true;
        }
        self.fault = Some(Fault {
            refusal: TeamRefusal::Stopped,
            task,
        });
        false
    }

    /// What a thread is to do next.
    #[inline]
    pub(crate) fn decide(&mut self, polls: u32) -> Turn
        requires { in_turns self.old.waiting ≤ MAX_THREADS }
        ensures decides { Decides polls result self.old self.new }
        ensures few { in_turns self.new.waiting ≤ MAX_THREADS }
    {
        if let Some(fault) = self.fault {
            return Turn::Refused(fault);
        }
        if !self.pool.is_started() {
            return self.wait(polls);
        }
        match self.pool.next() {
            Ok(Next::Run(task)) => Turn::Run(task),
            Ok(Next::Finished) => Turn::Over,
            Ok(Next::Wait) => self.wait(polls),
            Err(refusal) => Turn::Refused(Fault {
                refusal: TeamRefusal::Pool(refusal),
                task: None,
            }),
        }
    }

    // a thread has to wait
    fn wait(&mut self, polls: u32) -> Turn
        requires waits { HasToWait self.old }
        requires few { in_turns self.old.waiting ≤ MAX_THREADS }
        ensures decides { Decides polls result self.old self.new }
        ensures few { in_turns self.new.waiting ≤ MAX_THREADS }
    {
        if self.waiting.total() >= MAX_THREADS {
            return Turn::Refused(Fault {
                refusal: TeamRefusal::Pool(Refusal::HistoryFull(MAX_THREADS)),
                task: None,
            });
        }
        if self.may_spin(polls) {
            self.waiting.spinning += 1;
            return Turn::Spin;
        }
        self.waiting.sleeping += 1;
        Turn::Sleep
    }

    fn may_spin(&self, polls: u32) -> bool
        ensures { result ≡ may_spin polls self.now }
    {
        polls > 0 && self.threads <= self.processors
    }
}
