//! Task graphs with their laws, and types whose values are the graph's by contract. Scheduling and termination are not
//! here.
//!
//! A pool is a type that implements [`Graph`]. A feed to another node is sent as a [`Message`], which becomes a
//! [`Parcel`] when it is received. Each of these types has the invariant that the value it carries is the one that the
//! graph defines. A [`Link`] is a FIFO queue of the messages from one node to another. [`run_body`] runs one task, and
//! [`serial`] computes a graph on one thread.
#![tactic(auto)]

mod blocks;
mod body;
mod builder;
mod event_laws;
mod feed;
mod found;
mod graph;
mod laws;
mod link;
mod message;
mod numbers;
mod one_thread;
mod only;
mod routed;
mod value;

pub use blocks::Blocks;
pub use body::run_body;
pub use builder::ValueBuilder;
pub use event_laws::steps_are_counted_on_the_graph;
pub use feed::{Feed, feed_of};
pub use found::{in_order, places, value_at};
pub use graph::{Comparable, Graph, is_same};
pub use laws::{all_results_are_values, results_have_what_is_kept, value_is_what_the_rule_makes};
pub use link::Link;
pub use message::{Message, Parcel};
pub use one_thread::serial;
pub use only::{Named, Only};
pub use routed::Routed;
pub use value::Value;
