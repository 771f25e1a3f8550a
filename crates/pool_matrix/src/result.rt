//! The product of the matrices, from a pool's results or from one thread.
ghost use Rattle.pool_matrix.specs.Matrices.{IsMatrixRefusal, LacksTile, matrix_graph, product_of};
ghost use Rattle.std.specs.Prelude.{◌≡◌, ◌*◌, IfErr, IfOk};
ghost use Rattle.tp_graph.specs.{Left.AreKept, Serial.IsSerialRefusal};

use crate::product::Product;
use crate::tile::number_at;
use std::alloc::Global;
use tp_base::{Refusal, TaskId};
use tp_graph::{Value, places, serial, value_at};

/// Returns the product of the matrices, from the results of its tasks. Refused with `Missing` if a tile of the product
/// has no result, and with `NoMemory` if an allocation fails first.
pub fn matrix_of(
    alloc: Global,
    product: &Product,
    results: &[(TaskId, Value)],
) -> Result<Vec<i64>, Refusal>
    requires { AreKept
        (matrix_graph product.now.left.now product.now.right.now product.now.tiles product.now.side) results.now }
    ensures made { IfOk result
        (λ made. made.items
        ≡ product_of (product.now.tiles * product.now.side) product.now.left.now product.now.right.now) }
    ensures whole { IfOk result (λ made. LacksTile product.now.tiles results.now → ⊥) }
    ensures refused { IfErr result (IsMatrixRefusal product.now.tiles results.now) }
{
    let order = product.order();
    let places = places(alloc, product.count(), results)?;
    let mut made = Vec::new(alloc);
    for q in 0..order * order {
        let (x, y) = (q / order, q % order);
        let Some(value) = value_at(results, places.as_slice(), TaskId(product.task_at(x, y))) else {
            return Err(Refusal::Missing);
        };
        made.push(number_at(value.as_slice(), product.place_at(x, y)))?;
    }
    Ok(made)
}

/// Returns the product of the matrices, computed on one thread. Refused with `BodyFailed` only if a task has no value,
/// and else with `NoMemory`.
pub fn matrix_by_one(alloc: Global, product: Product) -> Result<Vec<i64>, Refusal>
    ensures made { IfOk result
        (λ made. made.items
        ≡ product_of (product.entry.tiles * product.entry.side) product.entry.left.now product.entry.right.now) }
    ensures refused { IfErr result
        (IsSerialRefusal
        (matrix_graph product.entry.left.now product.entry.right.now product.entry.tiles product.entry.side)) }
{
    let results = serial(alloc, product)?;
    matrix_of(alloc, &product, results.as_slice())
}
