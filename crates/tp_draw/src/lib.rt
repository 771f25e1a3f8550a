//! Runs as a picture or as trace events, graphs as text for Graphviz, and the program `draw` as a call over its
//! arguments, its input and its output.
//!
//! What is drawn is tested: it is compared with stored texts. Contracts say that every call is safe and ends, and the
//! clauses of [`draw_with`] and [`draw_run`] say which exit status is returned, and that no picture is drawn from a
//! trace that is not sound.
#![tactic(auto)]

mod cli;
mod columns;
mod command;
mod cuts;
mod events;
mod fault;
mod graphviz;
mod laws;
mod layout;
mod lengths;
mod marks;
mod messages;
mod pauses;
mod ribbons;
mod run;
mod run_page;
mod run_style;
mod scene;
mod sums;
mod tracks;
mod waves;

pub use cli::draw_with;
pub use fault::Fault;
pub use graphviz::dot;
pub use laws::limits_are_these;
pub use run::{Form, View, draw_run};
pub use run_page::svg;
pub use scene::{Scene, scene_of};
