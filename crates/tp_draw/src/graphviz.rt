//! A graph as text for graphviz.

ghost use Rattle.std.specs.Prelude.{◌≤◌};
ghost use Rattle.tp_base.specs.declared.limits.TheConstants.{MAX_NODES};

use std::alloc::{AllocError, Global};
use tp_base::TaskId;
use tp_graph::Graph;

/// Returns a graph on `nodes` nodes as text for graphviz: a cluster for each node, an edge for each feed. It allocates
/// only the text. Refused if an allocation fails.
pub fn dot<G: Graph>(alloc: Global, graph: G, nodes: u32) -> Result<String, AllocError>
    requires { (1 ≤ nodes) × (nodes ≤ MAX_NODES) }
{
    let mut out = String::new(alloc);
    out.push_str("digraph graph_of_tasks {\n")?;
    // (eight colours are the nodes')
    out.push_str("node [shape=circle, style=filled, fontcolor=white, colorscheme=dark28];\n")?;
    for node in 0..nodes {
        let colour = u64::from(node) + 1;
        write!(out, "subgraph cluster_{node} {{\nlabel=\"node {node}\";\n")?;
        writeln!(out, "node [fillcolor={colour}];")?;
        for task in 0..graph.tasks() {
            if graph.home(TaskId(task), nodes).0 == node {
                writeln!(out, "t{task};")?;
            }
        }
        out.push_str("}\n")?;
    }
    for task in 0..graph.tasks() {
        for turn in 0..graph.feeds(TaskId(task)) {
            let (target, _) = graph.feed(TaskId(task), turn);
            let target = target.0;
            writeln!(out, "t{task} -> t{target};")?;
        }
    }
    out.push_str("}\n")?;
    Ok(out)
}
