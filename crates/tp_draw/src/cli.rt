//! The program `draw` as a call, from its arguments to its exit status.

ghost use Rattle.std.specs.Prelude.{◌≡◌, ◌≤◌, ◌⊎◌, IfErr, OnOk};
ghost use Rattle.tp_draw.specs.{Ends.HasReadTrace, Faults.{line_of, status_of}};
ghost use Rattle.tp_shell.specs.{Statuses.code_of, Streams.MayExplain};

use crate::command::{Request, requested};
use crate::fault::Fault;
use crate::graphviz::dot;
use crate::run::{draw_run, write_picture};
use pool_samples::checked;
use std::alloc::Global;
use std::io::{Read, Write};
use tp_base::MAX_NODES;
use tp_graph::Graph;
use tp_shell::{Diagnostics, Status, complain, show};

/// A graph that is written has at most this many tasks.
pub(crate) const MAX_TASKS: u32 = 2_000;

/// Runs the program with its arguments, beginning with its own name, and returns the exit status. It reads from
/// `reader`, writes its text to `out` and an error line to `err`, and then why, if `explains` is set. The status is 0
/// if the text was written, or help; 1 if the arguments, the reading or the writing are at fault; 2 if the trace is
/// not sound; 3 if an allocation failed.
pub fn draw_with<I: Read, O: Write, E: Diagnostics>(
    alloc: Global,
    words: &[&str],
    reader: &mut I,
    out: &mut O,
    err: &mut E,
    explains: bool,
) -> u8
    ensures range { result ≤ 3 }
    // 0: nothing is on standard error, and if something was read, it is a sound trace.
    ensures succeeded { result ≡ 0 → (err.new ≡ err.old)
        × (HasReadTrace (I.remaining reader.old) (I.remaining reader.new) ⊎ (reader.new ≡ reader.old)) }
    // Otherwise the status is that of a fault. Its line is printed, and then the reason or nothing.
    ensures complained { 1 ≤ result → (fault : Fault) × (told : E) × (result ≡ code_of (status_of fault))
        × E.tells err.old (line_of fault) told × MayExplain E.tells told err.new }
{
    match answer(alloc, words, reader, out) {
        Ok(()) => 0,
        Err(fault) => complained(&fault, words, explains, err).code(),
    }
}

/// Prints the line of a fault, and then the reason, if there is one and `explains` is set.
fn complained<E: Diagnostics>(fault: &Fault, words: &[&str], explains: bool, err: &mut E) -> Status
    ensures status { result ≡ status_of fault.now }
    ensures told { (told : E) × E.tells err.old (line_of fault.now) told × MayExplain E.tells told err.new }
{
    let status = complain(fault, err);
    if explains {
        fault.explain(words, err);
    }
    status
}

/// Writes what the arguments ask for.
fn answer<I: Read, O: Write>(
    alloc: Global,
    words: &[&str],
    reader: &mut I,
    out: &mut O,
) -> Result<(), Fault>
    ensures { OnOk result (HasReadTrace (I.remaining reader.old) (I.remaining reader.new) ⊎ (reader.new ≡ reader.old)) }
{
    match requested(alloc, words) {
        Ok(Request::Run(view)) => draw_run(alloc, view, reader, out),
        Ok(Request::Graph(spec, nodes)) => draw_graph(alloc, spec, nodes, out),
        Err(error) => match show(alloc, &error, out) {
            Ok(()) => Ok(()),
            Err(fault) => Err(Fault::Words(fault)),
        },
    }
}

/// Writes the graph of a pool specification. Nothing is written before the whole text is complete.
fn draw_graph<O: Write>(alloc: Global, spec: &str, nodes: u32, out: &mut O) -> Result<(), Fault> {
    let Ok(graph) = checked(spec) else {
        return Err(Fault::NoPool(String::from_str(alloc, spec)?));
    };
    if graph.tasks() > MAX_TASKS {
        return Err(Fault::TooLarge);
    }
    let text = dot(alloc, graph, nodes.clamp(1, MAX_NODES))?;
    write_picture(out, &text)
}
