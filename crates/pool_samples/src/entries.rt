//! The entries of the two matrices of a product, from tables. An entry depends only on a residue mod 21, so the entries
//! of a row of the left matrix, and of a column of the right one, are a slice of a table.
ghost use Rattle.std.specs.Prelude.{◌≡◌, ◌<◌, ◌≤◌, ◌+◌, ◌*◌, ◌%◌, ℕ, ℤ, pos, ◌-ℤ◌, length, slice_index_or, unsigned_abs};
ghost use Rattle.pool_samples.specs.Products.{left_entry};

// Three runs of 70. The residues of a run are 3 apart; those of the next run are 7 more, as those of the next row are.
static LEFT: [i32; 210] = [
    -10, -7, -4, -1, 2, 5, 8, -10, -7, -4, -1, 2, 5, 8, -10, -7, -4, -1, 2, 5, 8, -10, -7, -4, -1,
    2, 5, 8, -10, -7, -4, -1, 2, 5, 8, -10, -7, -4, -1, 2, 5, 8, -10, -7, -4, -1, 2, 5, 8, -10, -7,
    -4, -1, 2, 5, 8, -10, -7, -4, -1, 2, 5, 8, -10, -7, -4, -1, 2, 5, 8, -3, 0, 3, 6, 9, -9, -6,
    -3, 0, 3, 6, 9, -9, -6, -3, 0, 3, 6, 9, -9, -6, -3, 0, 3, 6, 9, -9, -6, -3, 0, 3, 6, 9, -9, -6,
    -3, 0, 3, 6, 9, -9, -6, -3, 0, 3, 6, 9, -9, -6, -3, 0, 3, 6, 9, -9, -6, -3, 0, 3, 6, 9, -9, -6,
    -3, 0, 3, 6, 9, -9, -6, 4, 7, 10, -8, -5, -2, 1, 4, 7, 10, -8, -5, -2, 1, 4, 7, 10, -8, -5, -2,
    1, 4, 7, 10, -8, -5, -2, 1, 4, 7, 10, -8, -5, -2, 1, 4, 7, 10, -8, -5, -2, 1, 4, 7, 10, -8, -5,
    -2, 1, 4, 7, 10, -8, -5, -2, 1, 4, 7, 10, -8, -5, -2, 1, 4, 7, 10, -8, -5, -2, 1,
];

// One run, whose residues are 5 apart.
static RIGHT: [i32; 84] = [
    -10, -5, 0, 5, 10, -6, -1, 4, 9, -7, -2, 3, 8, -8, -3, 2, 7, -9, -4, 1, 6, -10, -5, 0, 5, 10,
    -6, -1, 4, 9, -7, -2, 3, 8, -8, -3, 2, 7, -9, -4, 1, 6, -10, -5, 0, 5, 10, -6, -1, 4, 9, -7,
    -2, 3, 8, -8, -3, 2, 7, -9, -4, 1, 6, -10, -5, 0, 5, 10, -6, -1, 4, 9, -7, -2, 3, 8, -8, -3, 2,
    7, -9, -4, 1, 6,
];

/// Returns `count` entries of a table, from a position on.
fn part(table: &'static [i32], from: usize, count: usize) -> &'static [i32]
    requires inside { from + count ≤ length table.now }
    ensures long { length result.now ≡ count }
    ensures same { (n : ℕ) → n < count → slice_index_or result.now n (pos 0) ≡ slice_index_or table.now (from + n) (pos 0) }
{
    &table[from..from + count]
}

/// Returns `count` entries of row x of the left matrix, from column z on.
pub(crate) fn left_entries(seed: u32, x: u32, z: u32, count: usize) -> &'static [i32]
    requires places { (x < 64) × (z + count ≤ 64) }
    requires seed_small { seed ≤ 9999 }
    ensures long { length result.now ≡ count }
    ensures same { (n : ℕ) → n < count → slice_index_or result.now n (pos 0) ≡ left_entry seed x (z + n) }
    ensures small { (n : ℕ) → n < count → unsigned_abs (slice_index_or result.now n (pos 0)) ≤ 10 }
{
    let from = (x + seed) % 3 * 70 + (z + 5 * seed) % 7;
    part(&LEFT, from as usize, count)
}

/// Returns the position in the table of the right matrix's entry in row z of column y.
pub(crate) fn right_place(seed: u32, z: u32, y: u32) -> usize
    requires places { (z ≤ 64) × (y ≤ 64) }
    requires seed_small { seed ≤ 9999 }
    ensures inside { result < 21 }
    ensures same { 5 * result % 21 ≡ (5 * z + 2 * y + seed) % 21 }
{
    ((z + 13 * y + 17 * seed) % 21) as usize
}

/// Returns the position of the entry in the same row of the next column.
pub(crate) fn next_place(place: usize) -> usize
    requires inside { place < 21 }
    ensures inside { result < 21 }
    ensures same { 5 * result % 21 ≡ (5 * place + 2) % 21 }
{
    let next = place + 13;
    if next < 21 { next } else { next - 21 }
}

/// Returns `count` entries of a column of the right matrix, from a position on.
pub(crate) fn right_entries(place: usize, count: usize) -> &'static [i32]
    requires places { (place < 21) × (count ≤ 64) }
    ensures long { length result.now ≡ count }
    ensures same { (n : ℕ) → n < count → slice_index_or result.now n (pos 0) ≡ pos (5 * (place + n) % 21) -ℤ pos 10 }
    ensures small { (n : ℕ) → n < count → unsigned_abs (slice_index_or result.now n (pos 0)) ≤ 10 }
{
    part(&RIGHT, place, count)
}
