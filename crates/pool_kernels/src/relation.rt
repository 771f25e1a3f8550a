//! The trait of relations, which say which columns of a row feed which of the next.
ghost use Rattle.std.specs.Prelude.{◌≡◌, ◌≤◌, ◌<◌, ℕ, Bool};
ghost use Rattle.pool_kernels.specs.Grids.{AreSizes, ComesAgain};

/// A relation: which columns of a row feed which of the next. The author of one gets the grid of tasks over it, with
/// its laws.
pub trait Relation: Copy {
    ghost relation: { Self → ℕ → ℕ → ℕ → ℕ → Bool };

    /// Returns whether column `from` of the row before feeds column `to` of row `step`, which is 1 or more, in rows of
    /// `width` columns.
    fn relates(&self, width: u32, step: u32, from: u32, to: u32) -> bool
        requires sizes { AreSizes width step }
        requires columns { (from < width) × (to < width) }
        ensures { result ≡ relation self.now width step from to };

    /// Returns the period of the relation: after how many rows it repeats, in a grid of `steps` rows. A table of the
    /// grid computes that many rows. `steps` is right for every relation.
    fn period(&self, width: u32, steps: u32) -> u32
        requires sizes { AreSizes width steps }
        ensures some { 1 ≤ result }
        ensures again { ComesAgain (relation self.now width) width steps result };
}
