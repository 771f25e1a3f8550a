//! The inner loops of a product: rows of sums of products, each of which is checked for overflow.
ghost use Rattle.pool_matrix.specs.{Matrices.{entry, more, term}, Rows.{one_more, row_entry}};
ghost use Rattle.std.specs.Prelude.{◌≡◌, ◌<◌, ◌≤◌, ◌+◌, ◌*◌, ◌^◌, ◌*ℤ◌, ℕ, pos, length, slice_index_or, MatchOption, MatchResult, Some};
ghost use Rattle.std.specs.Prelude.{None};
ghost use Rattle.tp_base.specs.declared.Refusal.TheVariants.{BodyFailed};
ghost use Rattle.tp_graph.specs.Values.{gather};

use tp_base::Refusal;

/// Two square matrices of the same order, row by row.
#[derive(Clone, Copy)]
pub(crate) struct LentMatrices<'a> {
    pub(crate) left: &'a [i64],
    pub(crate) right: &'a [i64],
    pub(crate) order: usize,
    pub(crate) ghost full: { (length left.now ≡ order * order) × (length right.now ≡ order * order) × (order < 2 ^ 15) },
}

/// Returns a number of a matrix.
fn entry(numbers: &[i64], order: usize, x: usize, y: usize) -> i64
    requires full { (length numbers.now ≡ order * order) × (order < 2 ^ 15) }
    requires places { (x < order) × (y < order) }
    ensures { result ≡ entry order numbers.now x y }
{
    numbers[x * order + y]
}

/// Returns `count` numbers of row z of the right matrix, from column y on.
pub(crate) fn right_part<'a>(
    matrices: LentMatrices<'a>,
    z: usize,
    y: usize,
    count: usize,
) -> &'a [i64]
    requires places { (z < matrices.order) × (y + count ≤ matrices.order) }
    ensures long { length result.now ≡ count }
    ensures same { (n : ℕ) → n < count
        → slice_index_or result.now n (pos 0) ≡ entry matrices.entry.order matrices.entry.right.now z (y + n) }
{
    let from = z * matrices.order + y;
    &matrices.right[from..from + count]
}

/// Returns a sum plus a product, or `None` if one of them does not fit `i64`.
fn add_product(sum: i64, left: i64, right: i64) -> Option<i64>
    ensures { MatchOption result (more sum (left *ℤ right) ≡ None) (λ next. more sum (left *ℤ right) ≡ Some next) }
{
    let product = left.checked_mul(right)?;
    sum.checked_add(product)
}

/// Adds one product to each sum of a row, and checks each. Refused exactly if a number does not fit `i64`.
fn add_row_checked(sums: &mut [i64], left: i64, right: &[i64]) -> Result<(), Refusal>
    requires { length sums.now ≡ length right.now }
    ensures { MatchResult result
        (λ _done. gather (length right.now) (one_more sums.old left right.now) ≡ Some sums.new)
        (λ refusal. (refusal ≡ BodyFailed) × (gather (length right.now) (one_more sums.old left right.now) ≡ None)) }
{
    for n in 0..right.len() {
        let Some(next) = add_product(sums[n], left, right[n]) else {
            return Err(Refusal::BodyFailed);
        };
        sums[n] = next;
    }
    Ok(())
}

/// Adds the products of `count` values of z, from `start` on, to a row of sums that begins at column y of row x, and
/// checks each. Refused exactly if a number does not fit `i64`.
pub(crate) fn add_each(
    matrices: LentMatrices,
    sums: &mut [i64],
    x: usize,
    y: usize,
    start: usize,
    count: usize,
) -> Result<(), Refusal>
    requires places { (x < matrices.order) × (y + length sums.now ≤ matrices.order) × (start + count ≤ matrices.order) }
    ensures { MatchResult result
        (λ _done. gather (length sums.old)
        (row_entry matrices.entry.order matrices.entry.left.now matrices.entry.right.now x y start count sums.old)
        ≡ Some sums.new)
        (λ refusal. (refusal ≡ BodyFailed)
        × (gather (length sums.old)
        (row_entry matrices.entry.order matrices.entry.left.now matrices.entry.right.now x y start count sums.old)
        ≡ None)) }
{
    let side = sums.len();
    for z in 0..count {
        let left = entry(matrices.left, matrices.order, x, start + z);
        let right = right_part(matrices, start + z, y, side);
        add_row_checked(sums, left, right)?;
    }
    Ok(())
}
