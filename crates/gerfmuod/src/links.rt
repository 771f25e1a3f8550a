//! The exported functions on the missing inputs of a graph whose threads share no lock, which `gerfmuod/graph.h` declares. The
//! lists are the caller's.

ghost use Rattle.gerfmuod.specs.Links.{IsLinkCall};
ghost use Rattle.std.specs.Prelude.{◌≡◌};
ghost use Rattle.tp_flow.specs.Countdown.{after_arrival, graph, is_last, links};

use crate::graph::answer::{GraphResult, plain, refused_with};
use tp_team::TeamRefusal;

/// Writes which tasks wait for which, and for how many inputs, as `tp_flow::link` does. If it is refused, `number` is a task.
#[unsafe(no_mangle)]
pub extern "C" fn gerfmuod_graph_link(
    offsets: &[u32],
    inputs: &[u32],
    missing: &mut [u32],
    newest: &mut [u32],
    older: &mut [u32],
    readers: &mut [u32],
) -> GraphResult
    ensures { IsLinkCall (graph offsets.now inputs.now) (links missing.old newest.old older.old readers.old) result
        (links missing.new newest.new older.new readers.new) }
{
    match tp_flow::link(offsets, inputs, missing, newest, older, readers) {
        Ok(()) => plain(0, 0, 0),
        Err((refusal, task)) => refused_with(TeamRefusal::Pool(refusal), task, 0),
    }
}

/// Counts that an input of a task has arrived. Returns whether the task is ready by that, as `tp_flow::arrive` does.
#[unsafe(no_mangle)]
pub extern "C" fn gerfmuod_graph_arrive(missing: &mut u32) -> bool
    ensures { (missing.new ≡ after_arrival missing.old) × (result ≡ is_last missing.old) }
{
    tp_flow::arrive(missing)
}
