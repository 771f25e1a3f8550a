//! The product of two matrices in tiles, as a graph.
ghost use Rattle.std.specs.Prelude.{◌≡◌, ◌<◌, ◌≤◌, ◌+◌, ◌-◌, ◌*◌, ◌/◌, ◌%◌, ℕ, pos, ◌+ℤ◌, ◌-ℤ◌, ◌∷◌, ◌++◌, [], ◌*ℤ◌, unsigned_abs, true};
ghost use Rattle.std.specs.Prelude.{false, length, slice_index_or, vec_len, vec_capacity, IfOk, MatchResult, Some, None};
ghost use Rattle.pool_samples.specs.Products.{IsProduct, product_graph, term, sum_from, list_of, tile, tile_and_input, added, place_sum};
ghost use Rattle.pool_samples.specs.ProductLaws.{product_lawful};
ghost use Rattle.tp_graph.specs.Values.{fits, all_fit, fitting, then_some};
ghost use Rattle.tp_base.specs.declared.Refusal.TheVariants.{BodyFailed};

use crate::entries::{left_entries, next_place, right_entries, right_place};
use std::alloc::{AllocError, Global};
use tp_base::{NodeId, Refusal, TaskId};
use tp_graph::{Comparable, Graph, Value};

/// The product of two matrices, in tiles.
#[derive(Clone, Copy, Debug, PartialEq, Eq)]
pub struct Product {
    /// The number of tiles on a side of a matrix: 1 to 64.
    pub tiles: u32,
    /// The number of rows and columns of a tile: 1 to 64. The order of the matrices, tiles times side, is at most 64.
    pub side: u32,
    /// The seed of the matrices' entries: 0 to 9,999.
    pub seed: u32,
    pub ghost in_rules: { IsProduct tiles side seed },
}

/// Returns the product of two small numbers.
fn multiply(a: i32, b: i32) -> i64
    requires left { unsigned_abs a ≤ 10 }
    requires right { unsigned_abs b ≤ 10 }
    ensures same { result ≡ a *ℤ b }
    ensures small { unsigned_abs result ≤ 100 }
{
    i64::from(a) * i64::from(b)
}

/// Returns the sum of a small number and a product of two.
fn plus(sum: i64, product: i64) -> i64
    requires left { unsigned_abs sum ≤ 6400 }
    requires right { unsigned_abs product ≤ 100 }
    ensures same { result ≡ sum +ℤ product }
    ensures small { unsigned_abs result ≤ unsigned_abs sum + 100 }
{
    sum + product
}

/// Returns the sum of the products of two lists of small numbers, position by position.
fn sum_at(left: &[i32], right: &[i32]) -> i64
    requires long { (length left.now ≡ length right.now) × (length left.now ≤ 64) }
    requires small_left { (n : ℕ) → n < length left.now → unsigned_abs (slice_index_or left.now n (pos 0)) ≤ 10 }
    requires small_right { (n : ℕ) → n < length right.now → unsigned_abs (slice_index_or right.now n (pos 0)) ≤ 10 }
    ensures same { result ≡ sum_from 0 (length left.now) (λ n. slice_index_or left.now n (pos 0) *ℤ slice_index_or right.now n (pos 0)) }
    ensures fit { fits result ≡ true }
{
    let mut sum = 0;
    for n in 0..left.len() {
        sum = plus(sum, multiply(left[n], right[n]));
    }
    sum
}

impl Comparable for Product {
    ghost use Rattle.pool_samples.specs.Same.{product_same, three_same};

    ghost same = { λ a b h. product_same a b (three_same a.tiles b.tiles a.side b.side a.seed b.seed h) };
}

#[tactic(auto, unfolding(crate::specs::Products::product_graph))]
impl Graph for Product {
    ghost meaning = { λ p. product_graph p.tiles p.side p.seed };

    ghost lawful = { λ p. product_lawful p.tiles p.side p.seed p.in_rules };

    fn tasks(&self) -> u32 {
        self.tiles * self.tiles * self.tiles
    }

    fn arity(&self, task: TaskId) -> u8 {
        if task.0 % self.tiles == 0 { 0 } else { 1 }
    }

    fn class(&self, task: TaskId) -> u8 {
        if task.0 % self.tiles == 0 { 1 } else { 0 }
    }

    fn feeds(&self, task: TaskId) -> u32 {
        if task.0 % self.tiles + 1 < self.tiles {
            1
        } else {
            0
        }
    }

    fn feed(&self, task: TaskId, _turn: u32) -> (TaskId, u8) {
        prove!(task.0 < self.tasks());
        (TaskId(task.0 + 1), 0)
    }

    fn home(&self, task: TaskId, nodes: u32) -> NodeId {
        NodeId((task.0 / self.tiles + task.0 % self.tiles) % nodes)
    }

    fn keeps(&self, _task: TaskId) -> bool {
        true
    }

    fn body(&self, alloc: Global, task: TaskId, inputs: &[Value]) -> Result<Value, Refusal> {
        let i = task.0 / self.tiles / self.tiles;
        let j = task.0 / self.tiles % self.tiles;
        let k = task.0 % self.tiles;
        if self.side == 1 {
            return lone_value(alloc, lone_product(self.seed, i, j, k), inputs);
        }
        let mut made = make_tile(alloc, self.side, self.seed, i, j, k)?;
        match inputs {
            [] => Ok(Value::from_vec(made)?),
            [input] => {
                add_to(&mut made, input.as_slice())?;
                Ok(Value::from_vec(made)?)
            }
            _ => Err(Refusal::BodyFailed),
        }
    }
}

/// Returns the number of a tile with one entry.
fn lone_product(seed: u32, i: u32, j: u32, k: u32) -> i64
    requires places { (i < 64) × (j < 64) × (k < 64) }
    requires seed_small { seed ≤ 9999 }
    ensures { tile 1 seed i j k ≡ result ∷ [] }
{
    let left = left_entries(seed, i, k, 1);
    let right = right_entries(right_place(seed, k, j), 1);
    multiply(left[0], right[0])
}

/// Returns the value of a task whose tile has one entry: that number, or its sum with the one number of the input.
/// Refused with `BodyFailed` exactly if the rule fails or the sum does not fit `i64`. It allocates nothing.
fn lone_value(alloc: Global, product: i64, inputs: &[Value]) -> Result<Value, Refusal>
    ensures { MatchResult result (λ value. then_some (tile_and_input 1 (product ∷ []) inputs.now) fitting
        ≡ Some value) (λ refusal. (refusal ≡ BodyFailed) × (then_some (tile_and_input 1 (product ∷ []) inputs.now) fitting ≡ None)) }
{
    match inputs {
        [] => Ok(Value::one(alloc, product)?),
        [input] => Value::sum(alloc, input.lone()?, product),
        _ => Err(Refusal::BodyFailed),
    }
}

/// Returns a tile of products.
fn make_tile(
    alloc: Global,
    side: u32,
    seed: u32,
    i: u32,
    j: u32,
    k: u32,
) -> Result<Vec<i64>, AllocError>
    requires places { (i * side + side ≤ 64) × (j * side + side ≤ 64) × (k * side + side ≤ 64) }
    requires seed_small { seed ≤ 9999 }
    ensures { IfOk result (λ made. (made.items ≡ tile side seed i j k) × (all_fit made.items ≡ true)) }
{
    let mut made = Vec::with_capacity(alloc, (side * side) as usize)?;
    for r in 0..side {
        push_row(&mut made, side, seed, i * side + r, j * side, k * side);
    }
    Ok(made)
}

/// Appends a row of a tile of products: row x, from column y on.
fn push_row(made: &mut Vec<i64>, side: u32, seed: u32, x: u32, y: u32, start: u32)
    requires places { (x < 64) × (y + side ≤ 64) × (start + side ≤ 64) }
    requires seed_small { seed ≤ 9999 }
    requires room { vec_len made.old + side ≤ vec_capacity made.old }
    requires fit { all_fit made.old.items ≡ true }
    ensures items { made.new.items ≡ made.old.items ++ list_of side (λ c. sum_from start side (term seed x (y + c))) }
    ensures fit { all_fit made.new.items ≡ true }
    ensures len { vec_len made.new ≡ vec_len made.old + side }
    ensures capacity { vec_capacity made.new ≡ vec_capacity made.old }
{
    let count = side as usize;
    let left = left_entries(seed, x, start, count);
    let mut place = right_place(seed, start, y);
    for _ in 0..side {
        made.push_reserved(sum_at(left, right_entries(place, count)));
        place = next_place(place);
    }
}

/// Adds the numbers of a list to those of another of the same length, in place. Refused with `BodyFailed` exactly if
/// the lengths differ or a sum does not fit `i64`; some sums may be changed by then. Overflows are counted, since only
/// a loop without an early exit is vectorized.
#[tactic(auto, using(crate::proofs::Keeping::add_unlike))]
fn add_to(sums: &mut [i64], input: &[i64]) -> Result<(), Refusal>
    ensures { MatchResult result (λ _. added input.now sums.old ≡ Some sums.new) (λ refusal. (refusal ≡ BodyFailed)
        × (added input.now sums.old ≡ None)) }
{
    if input.len() != sums.len() {
        return Err(Refusal::BodyFailed);
    }
    let mut lost = 0;
    for e in 0..input.len() {
        let (sum, is_lost) = sum_of_places(input, sums, e);
        sums[e] = sum;
        lost += is_lost;
    }
    if lost == 0 {
        Ok(())
    } else {
        Err(Refusal::BodyFailed)
    }
}

/// Returns the sum of the numbers at a position of two lists and 0, or some number and 1 if the sum does not fit `i64`.
fn sum_of_places(a: &[i64], b: &[i64], e: usize) -> (i64, u64)
    requires left { e < length a.now }
    requires right { e < length b.now }
    ensures fit { result.1 ≡ 0 → (place_sum a.now b.now e ≡ result.0) × (fits (place_sum a.now b.now e) ≡ true) }
    ensures lost { 0 < result.1 → fits (place_sum a.now b.now e) ≡ false }
    ensures one { result.1 ≤ 1 }
{
    match a[e].checked_add(b[e]) {
        Some(sum) => (sum, 0),
        None => (a[e].wrapping_add(b[e]), 1),
    }
}
