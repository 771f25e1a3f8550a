//! Which tiles a product can be computed in.

use crate::fault::InputFault;
use tp_base::MAX_STEPS;

/// Returns the order of the matrices, if tiles of `side` rows and columns fill them and the product's run on `nodes`
/// nodes has no more events than a run may have.
pub(crate) fn tiled_order(order: usize, side: u32, nodes: u32) -> Result<u32, InputFault> {
    if order >= 1 << 15 {
        return Err(InputFault::LargeMatrices);
    }
    let order = order as u32;
    if side == 0 || order % side != 0 {
        return Err(InputFault::Unfilled);
    }
    if product_events(order / side, nodes) > u64::from(MAX_STEPS) {
        return Err(InputFault::LongProduct);
    }
    Ok(order)
}

/// Returns the number of events of a product of `tiles` tiles along a side: 3 per task and 3 per message.
fn product_events(tiles: u32, nodes: u32) -> u64 {
    let tiles = u64::from(tiles);
    let square = tiles.saturating_mul(tiles);
    let tasks = square.saturating_mul(tiles);
    let messages = if nodes > 1 {
        square.saturating_mul(tiles.saturating_sub(1))
    } else {
        0
    };
    tasks.saturating_add(messages).saturating_mul(3)
}
