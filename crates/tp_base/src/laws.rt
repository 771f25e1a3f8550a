//! The theorem that states the value of each limit, as a call without arguments.
ghost use Rattle.std.specs.Prelude.{◌≡◌, ◌*◌, ◌<◌};

use crate::limits::{
    CLASSES, MAX_IDLE_TURNS, MAX_INPUTS, MAX_LEAVES, MAX_LIVE_TASKS, MAX_MESSAGES, MAX_NODES,
    MAX_ORDER, MAX_POOLS, MAX_SEED, MAX_SIDE, MAX_STEPS, MAX_WORKERS,
};

/// The limits have these values.
pub fn limits_are_these()
    ensures nodes { MAX_NODES ≡ 8 }
    ensures workers { MAX_WORKERS ≡ 8 }
    ensures pools { MAX_POOLS ≡ 8 }
    ensures live_tasks { MAX_LIVE_TASKS ≡ 65536 }
    ensures inputs { MAX_INPUTS ≡ 16 }
    ensures classes { CLASSES ≡ 4 }
    ensures steps { MAX_STEPS ≡ 1048576 }
    ensures messages { MAX_MESSAGES ≡ 536870911 }
    ensures sums { MAX_NODES * MAX_MESSAGES < 4294967296 }
    ensures order { MAX_ORDER ≡ 64 }
    ensures side { MAX_SIDE ≡ 64 }
    ensures leaves { MAX_LEAVES ≡ 1024 }
    ensures seed { MAX_SEED ≡ 9999 }
    ensures idle_turns { MAX_IDLE_TURNS ≡ 1000000000 }
{}
