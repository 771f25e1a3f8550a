//! The events of a long trace share 1,500 columns: which one is an event's, and how many tasks run in each.

pub(crate) const COLUMNS: usize = 1_500;

/// The column of an event, out of `all` events.
pub(crate) fn column(all: u32, event: u32) -> u32 {
    (u64::from(event) * 1_500 / u64::from(all.max(1))).min(1_499) as u32
}

/// Adds the number of tasks that run at each node after an event of this column to the loads of all nodes.
pub(crate) fn add_loads(loads: &mut [u64], counts: &[u32; 8], column: u32) {
    for node in 0..8 {
        if let Some(load) = loads.get_mut(node * COLUMNS + column as usize) {
            *load = load.saturating_add(u64::from(counts[node]));
        }
    }
}
