//! How many handles a flow may have, and how large a graph may be whose missing inputs are counted.

/// The largest number of handles: 2^27.
pub const MAX_HANDLES: u32 = 134_217_728;

/// The largest number of tasks, and of inputs, of a graph that is linked: 2^29.
pub const MAX_LINKED: u32 = 536_870_912;

/// No input: the end of a chain of inputs.
pub const NO_INPUT: u32 = 4_294_967_295;
