//! The inputs of a block's task.
ghost use Rattle.std.specs.Prelude.{◌≡◌, slice_index_or, if◌then◌else◌, nat_lt, []};

use tp_graph::Value;

/// Returns the cells of an input, or no cells if there is no such input.
pub(crate) fn cells_at(inputs: &[Value], slot: usize) -> &[i64]
    ensures { result.now ≡ slice_index_or inputs.now slot [] }
{
    match inputs.get(slot) {
        Some(value) => value.as_slice(),
        None => &[],
    }
}

/// Returns the cells of the block before, if there is one.
pub(crate) fn cells_before(inputs: &[Value], befores: usize) -> &[i64]
    ensures { result.now ≡ (if nat_lt 0 befores then slice_index_or inputs.now 0 [] else []) }
{
    if 0 < befores {
        cells_at(inputs, 0)
    } else {
        &[]
    }
}
