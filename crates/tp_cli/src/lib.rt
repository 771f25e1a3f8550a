//! The command line of `tp`, from arguments to a run and its exit status, and the registry of the pools that it runs all
//! at once. The process, its standard streams and the terminal are in the program itself.
#![tactic(auto)]

mod cli;
mod command;
mod entry;
mod fault;
mod kept;
mod laws;
mod pools;
mod printing;
mod reasons;
mod registry;
mod request;
mod run;
mod runs;
mod terminal;
mod text;

pub use cli::main_with;
pub use entry::{PoolEntry, Standing};
pub use laws::limits_are_these;
pub use registry::Registry;
pub use runs::run_pools;
pub use terminal::main_at_terminal;
