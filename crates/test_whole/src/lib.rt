//! Tests: each call that can fail to allocate, slots, the core; readers and writers that fail; a pool on one thread, with forged messages
//! and with failing allocations; pools on worker threads, and with gates between the threads; patterns. They are not in the crates that
//! they test, whose functions would be proved once more with them. They are in one crate, since each program of tests loads all that it
//! tests.
#![tactic(auto)]

#[cfg(test)]
mod books;
#[cfg(test)]
mod calls;
#[cfg(test)]
mod cuts;
#[cfg(test)]
mod ends;
#[cfg(test)]
mod gates;
#[cfg(test)]
mod lent;
#[cfg(test)]
mod memory;
#[cfg(test)]
mod own_values;
#[cfg(test)]
mod patterns;
#[cfg(test)]
mod readers;
#[cfg(test)]
mod refused_runs;
#[cfg(test)]
mod slots;
#[cfg(test)]
mod two_nodes;
