//! Why a run over borrowed data has no result.
ghost use Rattle.std.specs.Prelude.{◌≡◌};
ghost use Rattle.pool_blocks.specs.Faults.{refusal_of};

use tp_base::Refusal;
use tp_work::{Fault, Outcome};

/// Why a run over borrowed data has no result.
#[derive(Drop)]
pub enum LentFault {
    /// The data give no graph, or a graph of which a single step takes too many events. Nothing was run.
    BadInput,
    /// The pool was refused: this is the fault of its run, with its report.
    Run(Fault),
    /// The pool ended with this outcome, and the allocation of the result failed.
    Unmade(Outcome),
}

impl LentFault {
    /// Returns the refusal of the fault: `BadSpec` if the input is at fault, that of the pool's own fault if it was
    /// refused, and `NoMemory` if the allocation of the result failed.
    pub fn refusal(&self) -> Refusal
        ensures { result ≡ refusal_of self.now }
    {
        match self {
            LentFault::BadInput => Refusal::BadSpec,
            LentFault::Run(fault) => fault.refusal,
            LentFault::Unmade(_) => Refusal::NoMemory,
        }
    }
}
