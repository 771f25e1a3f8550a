//! Task Bench's patterns, and the relation of each and its period.
ghost use Rattle.pool_kernels.specs.{Grids.AreSizes, Patterns.{doublings, fifth, is_drawn, period_of, relates}};
ghost use Rattle.std.specs.Prelude.{◌≡◌, ◌≤◌, ◌<◌, ◌^◌};

use crate::relation::Relation;
use crate::stirring::stirred;

/// Task Bench's patterns: which columns of a row feed which of the next.
#[derive(Clone, Copy, Debug, PartialEq, Eq)]
pub enum Pattern {
    /// No column feeds another.
    Trivial,
    /// Each column feeds itself: independent chains.
    NoComm,
    /// A column is fed by itself and its two neighbours.
    Stencil,
    /// As in a stencil, and the first and the last column are neighbours.
    StencilPeriodic,
    /// A column is fed by itself and its left neighbour.
    Dom,
    /// A column feeds its two children, as in a heap that begins with 0.
    Tree,
    /// A column is fed by itself and by a partner on either side, at a distance that doubles from row to row, and is 1
    /// again before it exceeds half of the width.
    Fft,
    /// Each column feeds every column.
    AllToAll,
    /// A column is fed by itself and by `radius` columns on each side.
    Nearest {
        /// The number of columns on each side.
        radius: u32,
    },
    /// A column is fed by itself and by four others, a fifth of the width apart, which move by one from row to row.
    Spread {
        /// The offset of the four in the first row.
        seed: u32,
    },
    /// A column is fed by itself, and by a pseudo-random choice of `radius` columns on each side.
    RandomNearest {
        /// The number of columns on each side.
        radius: u32,
        /// The seed of the choice.
        seed: u32,
    },
}

impl Relation for Pattern {
    ghost relation = { relates };

    fn relates(&self, width: u32, step: u32, from: u32, to: u32) -> bool {
        let apart = from.abs_diff(to);
        match *self {
            Pattern::Trivial => false,
            Pattern::NoComm => from == to,
            Pattern::Stencil => apart <= 1,
            Pattern::StencilPeriodic => apart <= 1 || apart + 1 == width,
            Pattern::Dom => from == to || from + 1 == to,
            Pattern::Tree => from == to / 2,
            Pattern::Fft => from == to || apart == 1 << ((step - 1) % doublings(width)),
            Pattern::AllToAll => true,
            Pattern::Nearest { radius } => apart <= radius,
            Pattern::Spread { seed } => {
                from == to
                    || from == fifth(width, step, seed, to, 1)
                    || from == fifth(width, step, seed, to, 2)
                    || from == fifth(width, step, seed, to, 3)
                    || from == fifth(width, step, seed, to, 4)
            }
            Pattern::RandomNearest { radius, seed } => {
                from == to || (apart <= radius && is_drawn(step, seed, from, to))
            }
        }
    }

    #[tactic(auto, using(crate::proofs::Patterns::comes_again))]
    fn period(&self, width: u32, steps: u32) -> u32 {
        period_of(*self, width, steps)
    }
}

/// Returns the period of a pattern's relation in rows: all rows if it is pseudo-random.
fn period_of(pattern: Pattern, width: u32, steps: u32) -> u32
    requires { AreSizes width steps }
    ensures same { result ≡ period_of pattern width steps }
    ensures some { 1 ≤ result }
{
    match pattern {
        Pattern::Fft => doublings(width),
        Pattern::Spread { .. } => width,
        Pattern::RandomNearest { .. } => steps,
        _ => 1,
    }
}

/// Returns how many of 2, 4, 8 and so on are at most a width, but at least 1.
fn doublings(width: u32) -> u32
    requires { (1 ≤ width) × (width < 2 ^ 20) }
    ensures same { result ≡ doublings width }
    ensures few { (1 ≤ result) × (result ≤ 20) }
{
    width.ilog2().max(1)
}

/// Returns the column `fifths` fifths of a row to the right of a column, moved by one from row to row.
fn fifth(width: u32, step: u32, seed: u32, to: u32, fifths: u32) -> u32
    requires sizes { AreSizes width step }
    requires within { (to < width) × (fifths ≤ 4) }
    ensures { result ≡ fifth width step seed to fifths }
{
    let moved = u64::from(to)
        + u64::from(fifths * width / 5)
        + u64::from(step - 1)
        + u64::from(seed);
    (moved % u64::from(width)) as u32
}

/// Returns one pseudo-random bit from three numbers and a seed.
fn is_drawn(step: u32, seed: u32, from: u32, to: u32) -> bool
    requires { (step < 2 ^ 20) × (from < 2 ^ 20) × (to < 2 ^ 20) }
    ensures { result ≡ is_drawn step seed from to }
{
    let mixed = u64::from(seed)
        + 7919 * u64::from(step)
        + 104729 * u64::from(from)
        + 1299709 * u64::from(to);
    stirred(stirred(mixed % 2147483648)) / 1048576 % 2 == 0
}
