//! The sample pools: the product of two matrices, a wavefront over a table, and a tree of sums. How a pool runs is not
//! here.
//!
//! [`checked`] parses the specification of a pool. The table of an [`AnyGraph`] shows a printer which task has which
//! number.
#![tactic(auto)]

mod any;
mod entries;
mod laws;
mod printing;
mod product;
mod reduce;
mod result_table;
mod table;
mod wavefront;
mod words;

pub use any::AnyGraph;
pub use laws::each_task_has_a_value;
pub use printing::print_table;
pub use product::Product;
pub use reduce::Reduce;
pub use result_table::ResultTable;
pub use wavefront::Wavefront;
pub use words::checked;
