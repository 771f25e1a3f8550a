//! The library for programs in C: the detector (`gerfmuod/core.h`), the detector of one process of a distributed
//! program (`gerfmuod/process.h`), task graphs (`gerfmuod/graph.h`) and parts of task graphs (`gerfmuod/part.h`). The
//! headers state what a caller must ensure.
#![tactic(auto)]

mod answer;
mod batch;
mod calls;
mod exports;
mod graph;
mod links;
mod names;
mod part;
mod pool;
mod process;
mod raw_step;
mod slot;
mod tasks;
mod text;
