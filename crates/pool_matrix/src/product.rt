//! The product of two borrowed matrices in tiles, as a graph.
ghost use Rattle.pool_matrix.specs.{Matrices.{AreMatrices, AreNoMatrices, IsProduct, matrix_graph}, MatrixLaws.matrix_lawful};
ghost use Rattle.std.specs.Prelude.{◌≡◌, ◌<◌, ◌≤◌, ◌+◌, ◌-◌, ◌*◌, ◌/◌, ◌%◌, ◌^◌, length, IfNone, IfSome};

use crate::row::LentMatrices;
use crate::tile::make_tile;
use std::alloc::Global;
use tp_base::{NodeId, Refusal, TaskId};
use tp_graph::{Graph, Value};

/// The product of two matrices, in tiles.
#[derive(Clone, Copy)]
pub struct Product<'a> {
    left: &'a [i64],
    right: &'a [i64],
    tiles: u32,
    side: u32,
    ghost in_rules: { IsProduct tiles side (length left.now) (length right.now) },
}

impl<'a> Product<'a> {
    /// Returns the product of two matrices of `order` rows and columns, which are borrowed row by row, in tiles of
    /// `side` rows and columns. `None` if the tiles do not fill the matrices, `order` is 0 or 32,768 or more, a list
    /// has another length than `order * order`, or the number of tasks would be 1,048,576 or more.
    #[tactic(auto, using(crate::proofs::Refused::too_many))]
    pub fn new(left: &'a [i64], right: &'a [i64], order: u32, side: u32) -> Option<Self>
        ensures made { IfSome result
            (λ p. (p.left.now ≡ left.now) × (p.right.now ≡ right.now) × (p.tiles * p.side ≡ order) × (p.side ≡ side)) }
        ensures right { IfSome result (λ p. AreMatrices order side (length left.now) (length right.now)) }
        ensures refused { IfNone result (AreNoMatrices order side (length left.now) (length right.now)) }
    {
        if order == 0 || order >= 1 << 15 || side == 0 || order % side != 0 {
            return None;
        }
        let tiles = order / side;
        let numbers = order as usize * order as usize;
        if tiles > 101 || left.len() != numbers || right.len() != numbers {
            return None;
        }
        Some(Product {
            left,
            right,
            tiles,
            side,
        })
    }

    /// Returns the number of rows and columns.
    pub(crate) fn order(&self) -> u32
        ensures same { result ≡ self.now.tiles * self.now.side }
        ensures some { (1 ≤ result) × (result < 2 ^ 15) }
    {
        self.tiles * self.side
    }

    /// Returns the number of tasks.
    pub(crate) fn count(&self) -> u32
        ensures { result ≡ self.now.tiles * self.now.tiles * self.now.tiles }
    {
        self.tiles * self.tiles * self.tiles
    }

    /// Returns the tile, along a side, that has a row or a column.
    #[tactic(auto, using(crate::proofs::Refused::tile_below))]
    fn tile_of(&self, x: u32) -> u32
        requires { x < self.now.tiles * self.now.side }
        ensures same { result ≡ x / self.now.side }
        ensures few { result < self.now.tiles }
    {
        x / self.side
    }

    /// Returns the last task that adds to a number of the product.
    pub(crate) fn task_at(&self, x: u32, y: u32) -> u32
        requires { (x < self.now.tiles * self.now.side) × (y < self.now.tiles * self.now.side) }
        ensures { result ≡ (x / self.now.side * self.now.tiles + y / self.now.side) * self.now.tiles + (self.now.tiles - 1) }
    {
        let (row, column) = (self.tile_of(x), self.tile_of(y));
        (row * self.tiles + column) * self.tiles + (self.tiles - 1)
    }

    /// Returns the position of a number in its tile.
    pub(crate) fn place_at(&self, x: u32, y: u32) -> usize
        ensures { result ≡ (x % self.now.side) * self.now.side + y % self.now.side }
    {
        (x % self.side) as usize * self.side as usize + (y % self.side) as usize
    }
}

#[tactic(auto, unfolding(crate::specs::Matrices::matrix_graph))]
impl<'a> Graph for Product<'a> {
    ghost meaning = { λ p. matrix_graph p.left.now p.right.now p.tiles p.side };

    ghost lawful = { λ p. matrix_lawful p.left.now p.right.now p.tiles p.side p.in_rules.some_tiles };

    fn tasks(&self) -> u32 {
        self.tiles * self.tiles * self.tiles
    }

    fn arity(&self, task: TaskId) -> u8 {
        if task.0 % self.tiles == 0 { 0 } else { 1 }
    }

    fn class(&self, task: TaskId) -> u8 {
        if task.0 % self.tiles == 0 { 1 } else { 0 }
    }

    fn feeds(&self, task: TaskId) -> u32 {
        if task.0 % self.tiles + 1 < self.tiles {
            1
        } else {
            0
        }
    }

    fn feed(&self, task: TaskId, _turn: u32) -> (TaskId, u8) {
        prove!(task.0 < self.tasks());
        (TaskId(task.0 + 1), 0)
    }

    fn home(&self, task: TaskId, nodes: u32) -> NodeId {
        NodeId((task.0 / self.tiles + task.0 % self.tiles) % nodes)
    }

    /// Keeps the last sum of each tile.
    fn keeps(&self, task: TaskId) -> bool {
        task.0 % self.tiles + 1 == self.tiles
    }

    fn body(&self, alloc: Global, task: TaskId, inputs: &[Value]) -> Result<Value, Refusal> {
        let matrices = LentMatrices {
            left: self.left,
            right: self.right,
            order: self.tiles as usize * self.side as usize,
        };
        let before = if inputs.is_empty() {
            &[]
        } else {
            inputs[0].as_slice()
        };
        let i = task.0 / self.tiles / self.tiles;
        let j = task.0 / self.tiles % self.tiles;
        let k = task.0 % self.tiles;
        let made = make_tile(
            alloc,
            matrices,
            self.side as usize,
            i as usize,
            j as usize,
            k as usize,
            before,
        )?;
        Ok(Value::from_vec(made)?)
    }
}
