//! Why a run of a grid has no row, why there is no table of a grid, and what is wrong with a graph.
ghost use Rattle.std.specs.Prelude.{◌≡◌};
ghost use Rattle.pool_kernels.specs.RunFaults.{refusal_of};

use std::alloc::{AllocError, AllocFailed};
use tp_base::{Refusal, TaskId};
use tp_work::{Fault, Outcome};

/// Why a run of a grid has no row, or there is no table of the grid.
#[derive(Drop)]
pub enum GridFault {
    /// There is no table of the grid.
    Table(TableFault),
    /// The pool was refused, or the allocation of the row failed.
    Run(RunFault),
}

/// Why a run of a grid has no row.
#[derive(Drop)]
pub enum RunFault {
    /// The pool was refused: this is the fault of its run, with its report.
    Run(Fault),
    /// The pool ended with this outcome, and the allocation of the row failed.
    Unmade(Outcome),
}

impl RunFault {
    /// Returns the refusal of the fault: that of the pool's own fault if it was refused, and `NoMemory` if the
    /// allocation of the row failed.
    pub fn refusal(&self) -> Refusal
        ensures { result ≡ refusal_of self.now }
    {
        match self {
            RunFault::Run(fault) => fault.refusal,
            RunFault::Unmade(_) => Refusal::NoMemory,
        }
    }
}

/// Why there is no table of a grid.
#[derive(Clone, Copy, Debug, PartialEq, Eq)]
pub enum TableFault {
    /// There are no columns, or no rows.
    Empty,
    /// A task has more than 16 inputs.
    TooManyInputs,
    /// The tasks take more events than a run may have: 1,048,576.
    TooManyEvents,
    /// An allocation failed.
    NoMemory,
}

impl From<AllocError> for TableFault {
    ghost use Rattle.std.specs.Prelude.{◌≡◌};
    ghost use Rattle.pool_kernels.specs.declared.fault.TableFault.TheVariants.{NoMemory};

    ghost from_gives = { λ _ e. e ≡ NoMemory };

    fn from(_: AllocError) -> Self {
        TableFault::NoMemory
    }
}

impl<T: Drop> From<AllocFailed<T>> for TableFault {
    ghost use Rattle.std.specs.Prelude.{◌≡◌};
    ghost use Rattle.pool_kernels.specs.declared.fault.TableFault.TheVariants.{NoMemory};

    ghost from_gives = { λ _ e. e ≡ NoMemory };

    fn from(_: AllocFailed<T>) -> Self {
        TableFault::NoMemory
    }
}

/// What is wrong with a graph, where it is first.
#[derive(Clone, Copy, Debug, PartialEq, Eq)]
pub enum GraphFault {
    /// The task waits for more than 16 inputs.
    Inputs(TaskId),
    /// The task has no class: a number above 3.
    Class(TaskId),
    /// The task has no home: a number that is not below the number of nodes.
    Home(TaskId),
    /// No feed of a lower task fills the task's slot.
    Empty(TaskId, u8),
    /// The task's feed of this number, counted from 0, goes to no higher task of the graph.
    Target(TaskId, u32),
    /// The task's feed goes to a slot that its target does not have.
    Slot(TaskId, u32),
    /// The task's feed goes to a slot that an earlier feed fills.
    Taken(TaskId, u32),
    /// An allocation failed.
    NoMemory,
}

impl From<AllocError> for GraphFault {
    ghost use Rattle.std.specs.Prelude.{◌≡◌};
    ghost use Rattle.pool_kernels.specs.declared.fault.GraphFault.TheVariants.{NoMemory};

    ghost from_gives = { λ _ e. e ≡ NoMemory };

    fn from(_: AllocError) -> Self {
        GraphFault::NoMemory
    }
}
