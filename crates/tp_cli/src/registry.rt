//! The registry, with its calls.
ghost use Rattle.std.specs.{List.count_by, Prelude.{◌≡◌, ◌≤◌, ◌++◌, ◌∷◌, [], IfErr, IfOk, MatchOption, OnErr, OnOk, length}};
ghost use Rattle.std.specs.Result.{result_err};
ghost use Rattle.tp_base.specs.{Checks.first_refusal, declared.{limits.TheConstants.MAX_POOLS, refusal.Refusal.TheVariants.BadSpec}};
ghost use Rattle.tp_base.specs.declared.refusal.Refusal.TheVariants.{NoMemory, NoPool, PoolKnown, WrongLife};
ghost use Rattle.tp_cli.specs.Registry.{IsUnregistered, is_named, register_checks, registered, standing_checks, standing_of, with_standing};
ghost use Rattle.tp_cli.specs.Registry.{AreSettled, graphs_to_run, is_waiting};
ghost use Rattle.tp_cli.specs.declared.entry.Standing.TheVariants as stand;
ghost use Rattle.pool_samples.specs.{Words.word_of, declared.any.AnyGraph.AnyGraph};

use crate::entry::{PoolEntry, Standing};
use pool_samples::{AnyGraph, checked};
use std::alloc::{AllocError, Global};
use std::marker::Model;
use tp_base::{MAX_POOLS, PoolId, Refusal};

/// At most 8 pools, in the order of registration. A pool's number is its position. A refused call changes nothing.
#[derive(Drop)]
pub struct Registry {
    alloc: Global,
    pools: Vec<PoolEntry>,
}

impl Model for Registry {
    ghost use Rattle.std.specs.Prelude.{◌≤◌, length};
    ghost use Rattle.tp_base.specs.declared.limits.TheConstants.{MAX_POOLS};
    ghost use Rattle.tp_cli.specs.Registry.{Pools};

    ghost Value = { Pools };

    ghost view = { λ r. r.pools.items };

    ghost invariant = { λ r. length r.pools.items ≤ MAX_POOLS };
}

impl Registry {
    /// Returns an empty registry. It allocates nothing.
    pub fn new(alloc: Global) -> Self
        ensures { result ≡ [] }
    {
        Registry {
            alloc,
            pools: Vec::new(alloc),
        }
    }

    /// Registers a pool under a name, after the others, and returns its number. `spec` is the specification of a sample
    /// pool.
    ///
    /// Refused with `BadSpec` if the specification names no pool; `PoolKnown` if a pool has the name; `StoreFull` if
    /// there are 8 pools; `NoMemory`.
    pub fn register(&mut self, name: &str, spec: &str) -> Result<PoolId, Refusal>
        ensures registered { IfOk result (λ pool. (graph : AnyGraph) × (spec.now ≡ word_of graph) × (pool.0 ≡ length self.old)
            × (self.new ≡ self.old ++ registered name.now graph ∷ [])) }
        ensures no_spec { ((graph : AnyGraph) → spec.now ≡ word_of graph → ⊥) → result ≡ Err BadSpec }
        ensures refusal { (graph : AnyGraph) → spec.now ≡ word_of graph
            → MatchOption (first_refusal (register_checks self.old name.now)) (IfErr result (λ e. e ≡ NoMemory)) (λ e. result ≡ Err e) }
        ensures why { IfErr result (IsUnregistered self.old name.now spec.now) }
        ensures refused { OnErr result (self.new ≡ self.old) }
    {
        let graph = checked(spec)?;
        if self.is_named(name) {
            return Err(Refusal::PoolKnown);
        }
        let number = self.pools.len() as u32;
        if number == MAX_POOLS {
            return Err(Refusal::StoreFull);
        }
        let name = String::from_str(self.alloc, name)?;
        self.pools.push(PoolEntry::new(name, graph))?;
        Ok(PoolId(number))
    }

    /// Makes a registered pool active.
    ///
    /// Refused with `NoPool` if there is no such pool; `PoolKnown` if it is not registered.
    pub fn monitor(&mut self, pool: PoolId) -> Result<(), Refusal>
        ensures moved { OnOk result (self.new ≡ with_standing self.old pool.0 stand.Active) }
        ensures refusal { result_err result ≡ first_refusal (standing_checks self.old pool.0 stand.Registered PoolKnown) }
        ensures refused { OnErr result (self.new ≡ self.old) }
    {
        self.move_on(
            pool,
            Standing::Registered,
            Standing::Active,
            Refusal::PoolKnown,
        )
    }

    /// Makes a pool that is over registered again.
    ///
    /// Refused with `NoPool` if there is no such pool; `WrongLife` if it is not over.
    pub fn unmonitor(&mut self, pool: PoolId) -> Result<(), Refusal>
        ensures moved { OnOk result (self.new ≡ with_standing self.old pool.0 stand.Registered) }
        ensures refusal { result_err result ≡ first_refusal (standing_checks self.old pool.0 stand.Over WrongLife) }
        ensures refused { OnErr result (self.new ≡ self.old) }
    {
        self.move_on(
            pool,
            Standing::Over,
            Standing::Registered,
            Refusal::WrongLife,
        )
    }

    /// Makes a pool that is over active again.
    ///
    /// Refused with `NoPool` if there is no such pool; `WrongLife` if it is not over.
    pub fn reopen(&mut self, pool: PoolId) -> Result<(), Refusal>
        ensures moved { OnOk result (self.new ≡ with_standing self.old pool.0 stand.Active) }
        ensures refusal { result_err result ≡ first_refusal (standing_checks self.old pool.0 stand.Over WrongLife) }
        ensures refused { OnErr result (self.new ≡ self.old) }
    {
        self.move_on(pool, Standing::Over, Standing::Active, Refusal::WrongLife)
    }

    /// Makes an active pool over.
    ///
    /// Refused with `NoPool` if there is no such pool; `WrongLife` if it is not active.
    pub fn set_over(&mut self, pool: PoolId) -> Result<(), Refusal>
        ensures moved { OnOk result (self.new ≡ with_standing self.old pool.0 stand.Over) }
        ensures refusal { result_err result ≡ first_refusal (standing_checks self.old pool.0 stand.Active WrongLife) }
        ensures refused { OnErr result (self.new ≡ self.old) }
    {
        self.move_on(pool, Standing::Active, Standing::Over, Refusal::WrongLife)
    }

    /// Makes an active pool failed.
    ///
    /// Refused with `NoPool` if there is no such pool; `WrongLife` if it is not active.
    pub fn set_failed(&mut self, pool: PoolId) -> Result<(), Refusal>
        ensures moved { OnOk result (self.new ≡ with_standing self.old pool.0 stand.Failed) }
        ensures refusal { result_err result ≡ first_refusal (standing_checks self.old pool.0 stand.Active WrongLife) }
        ensures refused { OnErr result (self.new ≡ self.old) }
    {
        self.move_on(pool, Standing::Active, Standing::Failed, Refusal::WrongLife)
    }

    /// Returns the state of a pool. Refused with `NoPool` if there is no such pool.
    pub fn state(&self, pool: PoolId) -> Result<Standing, Refusal>
        ensures { MatchOption (standing_of self.now pool.0) (result ≡ Err NoPool) (λ s. result ≡ Ok s) }
    {
        match self.pools.get(pool.0 as usize) {
            Some(entry) => Ok(entry.standing()),
            None => Err(Refusal::NoPool),
        }
    }

    /// Returns all pools, in the order of registration.
    pub fn list(&self) -> &[PoolEntry]
        ensures same { result.now ≡ self.now }
        ensures few { length result.now ≤ MAX_POOLS }
    {
        self.pools.as_slice()
    }
}

// The parts of a run of all registered pools.
impl Registry {
    /// Returns the graphs of the registered pools, in the order of registration. Refused if an allocation fails.
    pub fn graphs_to_run(&self) -> Result<Vec<AnyGraph>, AllocError>
        ensures { IfOk result (λ graphs. graphs.items ≡ graphs_to_run self.now) }
    {
        self.pools
            .iter()
            .filter(|entry| entry.is_waiting())
            .map(|entry| entry.graph())
            .collect(self.alloc)
    }

    /// Sets the state of each registered pool by the result of its run; the results are in the order of registration. A
    /// pool is over if its result is `Ok`, and else failed. The other pools are unchanged. It allocates nothing.
    pub fn settle<T, E>(&mut self, answers: &[Result<T, E>])
        requires { length answers.now ≡ count_by is_waiting self.old }
        ensures { AreSettled answers.now self.old self.new }
    {
        settle_each(self.pools.as_mut_slice(), answers);
    }
}

/// Sets the state of each registered pool by the result of its rank.
fn settle_each<T, E>(pools: &mut [PoolEntry], answers: &[Result<T, E>])
    requires { length answers.now ≡ count_by is_waiting pools.old }
    ensures { AreSettled answers.now pools.old pools.new }
{
    let mut answers = answers.iter();
    for entry in pools.iter_mut() {
        if entry.is_waiting() {
            if let Some(answer) = answers.next() {
                entry.standing = Standing::after(answer);
            }
        }
    }
}

// The parts of these calls.
impl Registry {
    /// Returns whether a pool has the name.
    fn is_named(&self, name: &str) -> bool
        ensures { result ≡ is_named self.now name.now }
    {
        self.pools.iter().any(|entry| entry.name() == name)
    }

    /// Moves a pool from the state `from` to another. If it is in a third state, that is refused with `refusal`.
    fn move_on(
        &mut self,
        pool: PoolId,
        from: Standing,
        to: Standing,
        refusal: Refusal,
    ) -> Result<(), Refusal>
        ensures moved { OnOk result (self.new ≡ with_standing self.old pool.0 to) }
        ensures refusal { result_err result ≡ first_refusal (standing_checks self.old pool.0 from refusal) }
        ensures refused { OnErr result (self.new ≡ self.old) }
    {
        let Some(entry) = self.pools.get_mut(pool.0 as usize) else {
            return Err(Refusal::NoPool);
        };
        if entry.standing != from {
            return Err(refusal);
        }
        entry.standing = to;
        Ok(())
    }
}
