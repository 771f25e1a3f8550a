//! A run as Chrome's trace events in JSON, which viewers of timelines read. A trace has no times: its event n is at n
//! microseconds.

ghost use Rattle.std.specs.Prelude.{◌≤◌};

use crate::lengths::number_of;
use crate::tracks::{Bar, Tracks};
use std::alloc::{AllocError, Global};
use std::fmt;
use tp_base::{Generation, MessageId, NodeId, Refusal, Step};
use tp_core::{Core, Reply};

/// Appends the first fields of an event: its kind, its node and track, its time, and its name, which is the category
/// with a number. Track 0 has everything except tasks.
fn push_head(
    out: &mut String,
    kind: &str,
    (node, track): (NodeId, u32),
    event: u32,
    category: &str,
    number: u32,
) -> Result<(), AllocError> {
    // (all three are numbered from 1)
    let (process, thread, at) = (number_of(node.0), number_of(track), number_of(event));
    out.push_str(",\n")?;
    write!(
        out,
        r#"{{"ph":"{kind}","pid":{process},"tid":{thread},"ts":{at},"cat":"{category}","name":"{category} {number}""#,
    )
}

/// Follows steps in turn, with a core of its own, and writes their events.
#[derive(Drop)]
struct Events {
    core: Core,
    tracks: Tracks,
    // what was last written as pending at each node
    pending: [u32; 8],
    // the wave that ended last
    wave: u32,
    out: String,
}

impl Events {
    fn take(&mut self, step: Step, event: u32) -> Result<(), Refusal> {
        let reply = self.core.step(step)?;
        self.tracks.take(step, event)?;
        self.push_step(step, event)?;
        self.push_reply(reply, event)?;
        Ok(self.push_pending(number_of(event))?)
    }

    /// The task that was done, or what else a step shows by itself.
    fn push_step(&mut self, step: Step, event: u32) -> Result<(), AllocError> {
        let out = &mut self.out;
        match step {
            Step::Insert(node, task, inputs) => {
                push_head(out, "i", (node, 0), event, "insert", task.0)?;
                write!(out, r#","s":"t","args":{{"inputs":{}}}}}"#, inputs.get())
            }
            Step::Supply(task) => {
                let node = self.tracks.home(task);
                push_head(out, "i", (node, 0), event, "supply", task.0)?;
                out.push_str(r#","s":"t"}"#)
            }
            Step::Done(_) => match self.tracks.bars.pop() {
                Some(bar) => push_task(out, &bar, event, "done"),
                None => Ok(()),
            },
            Step::Send(from, to, message, generation) => {
                push_flow(out, ("send", "s"), from, event, message, generation)?;
                write!(out, r#","args":{{"to":{}}}}}"#, to.0)
            }
            Step::Recv(node, message, generation) => {
                push_flow(out, ("recv", "f"), node, event, message, generation)?;
                out.push_str(r#","bp":"e"}"#)
            }
            Step::Give(node) => {
                push_head(out, "i", (node, 0), event, "give", node.0)?;
                out.push_str(r#","s":"p"}"#)
            }
            _ => Ok(()),
        }
    }

    /// The wave that ended, its judgement or the new generation, if the core's reply has one.
    fn push_reply(&mut self, reply: Reply, event: u32) -> Result<(), AllocError> {
        let out = &mut self.out;
        let (category, number) = match reply {
            Reply::Plain => return Ok(()),
            Reply::WaveSums(sums) => {
                self.wave = sums.wave;
                ("wave", sums.wave)
            }
            Reply::Not | Reply::Over(_) => ("judge", self.wave),
            Reply::Opened(generation) => ("generation", generation.0),
        };
        push_head(out, "i", (NodeId(0), 0), event, category, number)?;
        out.push_str(r#","s":"g""#)?;
        match reply {
            Reply::WaveSums(sums) => {
                let (sent, received) = (sums.sent, sums.received);
                write!(out, r#","args":{{"sent":{sent},"received":{received}}}"#)?
            }
            Reply::Not => out.push_str(r#","args":{"ended":null}"#)?,
            Reply::Over(wave) => write!(out, r#","args":{{"ended":{wave}}}"#)?,
            _ => {}
        }
        out.push_str("}")
    }

    /// What is pending at the nodes, if it has changed.
    fn push_pending(&mut self, at: u64) -> Result<(), AllocError> {
        let numbers = self.core.numbers();
        for node in 0..8 {
            let pending = numbers.nodes[node].pending;
            if pending != self.pending[node] {
                self.pending[node] = pending;
                let process = node + 1;
                self.out.push_str(",\n")?;
                write!(
                    self.out,
                    r#"{{"ph":"C","pid":{process},"ts":{at},"name":"pending","args":{{"pending":{pending}}}}}"#,
                )?;
            }
        }
        Ok(())
    }
}

/// A task, from its begin to this event.
fn push_task(out: &mut String, bar: &Bar, to: u32, life: &str) -> Result<(), AllocError> {
    let place = (bar.node, bar.track.saturating_add(1));
    push_head(out, "X", place, bar.from, "task", bar.task.0)?;
    let events = to.saturating_sub(bar.from);
    write!(out, r#","dur":{events},"args":{{"life":"{life}"}}}}"#)
}

/// One end of a message, up to its number. Viewers draw a flow between slices, so each end has one.
fn push_flow(
    out: &mut String,
    (step, kind): (&str, &str),
    node: NodeId,
    event: u32,
    message: MessageId,
    generation: Generation,
) -> Result<(), AllocError> {
    push_head(out, "X", (node, 0), event, step, message.0)?;
    out.push_str(r#","dur":1}"#)?;
    push_head(out, kind, (node, 0), event, "message", message.0)?;
    // (importers take numbers; a message of a trace has at most six digits)
    let id = u64::from(generation.0) * 1_000_000 + u64::from(message.0);
    write!(out, r#","id":{id}"#)
}

/// The name of a node's process or of one of its threads.
fn push_name<T: fmt::Display + Drop>(
    out: &mut String,
    kind: &str,
    (node, track): (u32, u32),
    name: T,
) -> Result<(), AllocError> {
    let (process, thread) = (number_of(node), number_of(track));
    out.push_str(",\n")?;
    write!(
        out,
        r#"{{"ph":"M","pid":{process},"tid":{thread},"name":"{kind}","args":{{"name":"{name}"}}}}"#,
    )
}

/// The names of a node and of its tracks, and its place among the others in a viewer.
fn push_names(out: &mut String, node: u32, tracks: u32) -> Result<(), AllocError> {
    push_name(out, "process_name", (node, 0), format_args!("node {node}"))?;
    let process = number_of(node);
    write!(
        out,
        ",\n{{\"ph\":\"M\",\"pid\":{process},\"name\":\"process_sort_index\",\"args\":{{\"sort_index\":{process}}}}}",
    )?;
    let steps = format_args!("steps of node {node}");
    push_name(out, "thread_name", (node, 0), steps)?;
    for track in 1..=tracks {
        let tasks = format_args!("tasks {track}");
        push_name(out, "thread_name", (node, track), tasks)?;
    }
    Ok(())
}

/// Returns the events of these steps of a run on `nodes` nodes, as one JSON object. If there is a fault after them, its
/// label is the line of an audit: printable ASCII characters without a meaning in JSON.
///
/// A step is refused as a core refuses it; `NoMemory` if an allocation fails.
pub(crate) fn events_of(
    alloc: Global,
    nodes: u32,
    steps: &[Step],
    fault: Option<&str>,
) -> Result<String, Refusal>
    requires { (1 ≤ nodes) × (nodes ≤ 8) }
{
    let mut out = String::new(alloc);
    let all = steps.len();
    write!(
        out,
        r#"{{"otherData":{{"clock":"none: event n of the trace is at n microseconds","nodes":{nodes},"events":{all}}},"#,
    )?;
    out.push_str("\n\"traceEvents\":[\n")?;
    out.push_str(
        r#"{"ph":"i","pid":1,"tid":1,"ts":0,"s":"g","cat":"clock","name":"event n is at n microseconds"}"#,
    )?;
    let mut events = Events {
        core: Core::new(alloc, nodes),
        tracks: Tracks::new(alloc),
        pending: [0; 8],
        wave: 0,
        out,
    };
    events.push_pending(0)?;
    let mut event = 0;
    for step in steps {
        events.take(*step, event)?;
        event = event.saturating_add(1);
    }
    let (tracks, mut out) = (events.tracks, events.out);
    for bar in &tracks.running {
        push_task(&mut out, bar, event, "running")?;
    }
    for node in 0..nodes {
        push_names(&mut out, node, tracks.rows[node as usize])?;
    }
    if let Some(line) = fault {
        let (at, line) = (number_of(event), line.trim_end());
        write!(
            out,
            ",\n{{\"ph\":\"i\",\"pid\":1,\"tid\":1,\"ts\":{at},\"s\":\"g\",\"cat\":\"fault\",\"name\":\"fault: {line}\"}}",
        )?;
    }
    out.push_str("\n]}\n")?;
    Ok(out)
}
