//! The specifications of sample pools, and their parser.
ghost use Rattle.pool_samples.specs.{Trees.is_leaf_count, Words.{IsPlain, joined, two_numbers, three_numbers, word_of}};
ghost use Rattle.pool_samples.specs.declared.{any.AnyGraph.AnyGraph, product.Product.Product, reduce.Reduce.Reduce};
ghost use Rattle.pool_samples.specs.declared.wavefront.Wavefront.{Wavefront};
ghost use Rattle.std.specs.Prelude.{◌≡◌, ◌<◌, ◌↔◌, ◌^◌, ◌*◌, IsTrue, ℕ, List, decimal, IfOk, IfErr, IfSome, IsSomeAnd};
ghost use Rattle.tp_base.specs.declared.Refusal.TheVariants.{BadSpec};

use crate::any::AnyGraph;
use crate::product::Product;
use crate::reduce::Reduce;
use crate::wavefront::Wavefront;
use tp_base::{MAX_ORDER, MAX_SEED, MAX_SIDE, Refusal};

/// Returns the graph that a specification names: `product:ORDER:SIDE:SEED`, `wavefront:ROWS:COLUMNS:SEED` or
/// `reduce:LEAVES:SEED`, in decimal numbers without leading zeros. Refused with `BadSpec` exactly if it names none. It
/// allocates nothing.
pub fn checked(word: &str) -> Result<AnyGraph, Refusal>
    ensures named { (graph : AnyGraph) → word.now ≡ word_of graph → result ≡ Ok graph }
    ensures only { IfOk result (λ graph. word.now ≡ word_of graph) }
    ensures refused { IfErr result (λ refusal. refusal ≡ BadSpec) }
{
    match named(word) {
        Some(graph) => Ok(graph),
        None => Err(Refusal::BadSpec),
    }
}

/// Returns the graph that a specification names.
fn named(word: &str) -> Option<AnyGraph>
    ensures named { (graph : AnyGraph) → word.now ≡ word_of graph → result ≡ Some graph }
    ensures only { IfSome result (λ graph. word.now ≡ word_of graph) }
{
    let (kind, numbers) = word.split_once(':')?;
    match kind {
        "product" => Some(AnyGraph::Product(product_named(numbers)?)),
        "wavefront" => Some(AnyGraph::Wavefront(wavefront_named(numbers)?)),
        "reduce" => Some(AnyGraph::Reduce(reduce_named(numbers)?)),
        _ => None,
    }
}

/// Returns the product that the numbers of a specification name.
fn product_named(text: &str) -> Option<Product>
    ensures named { (p : Product) → text.now ≡ three_numbers (p.tiles * p.side) p.side p.seed → result ≡ Some p }
    ensures only { IfSome result (λ p. text.now ≡ three_numbers (p.tiles * p.side) p.side p.seed) }
{
    let (order, side, seed) = triple(text)?;
    if order < 1 || order > MAX_ORDER || side < 1 || seed > MAX_SEED {
        return None;
    }
    if order % side != 0 {
        return None;
    }
    Some(Product {
        tiles: order / side,
        side,
        seed,
    })
}

/// Returns the wavefront that the numbers of a specification name.
fn wavefront_named(text: &str) -> Option<Wavefront>
    ensures named { (w : Wavefront) → text.now ≡ three_numbers w.rows w.columns w.seed → result ≡ Some w }
    ensures only { IfSome result (λ w. text.now ≡ three_numbers w.rows w.columns w.seed) }
{
    let (rows, columns, seed) = triple(text)?;
    if rows < 1 || rows > MAX_SIDE || columns < 1 || columns > MAX_SIDE || seed > MAX_SEED {
        return None;
    }
    Some(Wavefront {
        rows,
        columns,
        seed,
    })
}

/// Returns the tree of sums that the numbers of a specification name.
fn reduce_named(text: &str) -> Option<Reduce>
    ensures named { (r : Reduce) → text.now ≡ two_numbers r.leaves r.seed → result ≡ Some r }
    ensures only { IfSome result (λ r. text.now ≡ two_numbers r.leaves r.seed) }
{
    let (leaves, rest) = number_and_rest(text)?;
    let seed = number(rest)?;
    if !is_power(leaves) || seed > MAX_SEED {
        return None;
    }
    Some(Reduce { leaves, seed })
}

/// Returns whether a number is a power of two from 1 to 1,024.
fn is_power(n: u32) -> bool
    ensures { result ≡ is_leaf_count n }
{
    matches!(n, 1 | 2 | 4 | 8 | 16 | 32 | 64 | 128 | 256 | 512 | 1024)
}

/// Parses three numbers, joined by colons.
fn triple(text: &str) -> Option<(u32, u32, u32)>
    ensures spelt { (a b d : ℕ) → a < 2 ^ 32 → b < 2 ^ 32 → d < 2 ^ 32 → text.now ≡ three_numbers a b d → result ≡ Some (a, b, d) }
    ensures only { IfSome result (λ n. text.now ≡ three_numbers n.0 n.1 n.2) }
{
    let (first, rest) = number_and_rest(text)?;
    let (second, last) = number_and_rest(rest)?;
    Some((first, second, number(last)?))
}

/// Parses a number, and returns it with the text after its colon.
fn number_and_rest(text: &str) -> Option<(u32, &str)>
    ensures spelt { (n : ℕ) (rest : List ℕ) → n < 2 ^ 32 → text.now ≡ joined (decimal n) rest
        → IsSomeAnd result (λ parts. (parts.0 ≡ n) × (parts.1.now ≡ rest)) }
    ensures only { IfSome result (λ parts. text.now ≡ joined (decimal parts.0) parts.1.now) }
{
    let (first, rest) = text.split_once(':')?;
    Some((number(first)?, rest))
}

/// Parses a decimal number without leading zeros.
fn number(text: &str) -> Option<u32>
    ensures spelt { (n : ℕ) → n < 2 ^ 32 → text.now ≡ decimal n → result ≡ Some n }
    ensures only { IfSome result (λ n. text.now ≡ decimal n) }
{
    if !is_plain(text.as_bytes()) {
        return None;
    }
    text.parse().ok()
}

/// Returns whether digits have neither a sign nor leading zeros, both of which `parse` accepts.
fn is_plain(digits: &[u8]) -> bool
    ensures { IsTrue result ↔ IsPlain digits.now }
{
    !matches!(digits, [b'+', ..] | [b'0', _, ..])
}
