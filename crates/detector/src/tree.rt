//! A pseudorandom tree of tasks: a task's seed determines its children and the process where it runs, so the tree does
//! not depend on where and when its tasks run.

ghost use Rattle.std.specs.Prelude.{◌<◌, ◌≤◌};

/// The upper bound on the depth of the tree.
const DEPTH: u32 = 10;

/// A task of the tree.
#[derive(Clone, Copy, Debug, PartialEq, Eq)]
pub struct Task {
    seed: u64,
    /// The number of levels of tasks that may be below it.
    depth: u32,
}

impl Task {
    /// Returns the root of the tree of an epoch.
    pub fn root(epoch: u64) -> Task {
        Task {
            seed: mixed(epoch),
            depth: DEPTH,
        }
    }

    /// Returns the number of children: 8 at the root, 0 at the greatest depth, else 0 to 4.
    pub fn children(self) -> u64
        ensures { result ≤ 8 }
    {
        match self.depth {
            0 => 0,
            DEPTH => 8,
            _ => self.seed % 5,
        }
    }

    /// Returns the child of this number, from 0.
    pub fn child(self, number: u64) -> Task {
        Task {
            seed: mixed(self.seed.wrapping_add(number)),
            depth: self.depth.saturating_sub(1),
        }
    }

    /// Returns the process, of `processes` processes, where the task runs; 0 if there are none.
    pub fn home(self, processes: u32) -> u64
        ensures { 0 < processes → result < processes }
    {
        if processes == 0 {
            return 0;
        }
        (self.seed >> 32) % u64::from(processes)
    }

    /// Returns what the task adds to the checksum when it runs.
    pub fn result(self) -> u64 {
        mixed(self.seed ^ u64::from(self.depth))
    }
}

/// The finalizer of SplitMix64 (Steele, Lea and Flood 2014): maps consecutive numbers to numbers that look random.
fn mixed(number: u64) -> u64 {
    let sum = number.wrapping_add(0x9E37_79B9_7F4A_7C15);
    let first = (sum ^ (sum >> 30)).wrapping_mul(0xBF58_476D_1CE4_E5B9);
    let second = (first ^ (first >> 27)).wrapping_mul(0x94D0_49BB_1331_11EB);
    second ^ (second >> 31)
}
