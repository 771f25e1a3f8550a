//! How many threads a team has.

/// The largest number of threads that may be in turns that have not returned: 2^22, as many as Linux has.
pub const MAX_THREADS: u32 = 4_194_304;
