//! The times of a run as Chrome's trace events in JSON, which viewers of timelines read.
use super::log::{Bodies, Body, Log};
use super::tracks::Tracks;
use std::alloc::{AllocError, Global};
use std::fmt;
use std::rt::Clock;
use std::sync::Wait;
use tp_base::MAX_NODES;

/// About how often at most the number of bodies done is written for a node.
const COUNTS: usize = 500;

/// How a pool ran.
#[derive(Clone, Copy, Debug, PartialEq, Eq)]
pub struct Run {
    /// The number of nodes.
    pub nodes: u32,
    /// The number of workers of each node.
    pub workers: u32,
    /// Whether the log has the tasks and their nodes. If not, all bodies are of one process.
    pub has_tasks: bool,
}

/// A time of nanoseconds, written in microseconds.
#[derive(Clone, Copy)]
struct Micros(u64);

impl fmt::Display for Micros {
    fn fmt<W: fmt::Write>(&self, f: &mut fmt::Formatter<W>) -> fmt::Result {
        let (whole, part) = (self.0 / 1000, self.0 % 1000);
        write!(f, "{whole}.{part:03}")
    }
}

/// Returns the events of a run that has just ended, as one JSON object. Refused if an allocation fails.
pub(crate) fn events_of<R: Clock + Wait>(
    alloc: Global,
    rt: &R,
    log: &Log,
    run: Run,
) -> Result<String, AllocError> {
    let elapsed = log.now(rt);
    let bodies = log.bodies(rt, alloc)?;
    let mut text = String::new(alloc);
    push_head(&mut text, &bodies, run, elapsed)?;
    let nodes = if run.has_tasks { run.nodes } else { 1 };
    for node in 0..nodes.min(MAX_NODES) {
        push_bodies(alloc, &mut text, &bodies.kept, node, run.has_tasks)?;
        push_counts(alloc, &mut text, &bodies.kept, node)?;
    }
    text.push_str("\n]}\n")?;
    Ok(text)
}

/// Appends what the file says of the whole run, and an event at its end.
fn push_head(text: &mut String, bodies: &Bodies, run: Run, elapsed: u64) -> Result<(), AllocError> {
    let (nodes, workers, count) = (run.nodes, run.workers, bodies.count);
    let lost = count.saturating_sub(bodies.kept.len() as u64);
    let mut all: u64 = 0;
    for body in &bodies.kept {
        all = all.saturating_add(body.length());
    }
    let (elapsed, all) = (Micros(elapsed), Micros(all));
    write!(
        text,
        r#"{{"otherData":{{"clock":"monotonic, from the start of the run","nodes":{nodes},"workers":{workers},"#,
    )?;
    write!(
        text,
        r#""bodies":{count},"lost_bodies":{lost},"elapsed_us":{elapsed},"bodies_us":{all}}},"#,
    )?;
    text.push_str("\n\"traceEvents\":[\n")?;
    write!(
        text,
        r#"{{"ph":"i","pid":1,"tid":1,"ts":{elapsed},"s":"g","cat":"run","name":"end of the run"}}"#,
    )
}

/// Appends a slice for each body of a node, and the names of the node and of its tracks.
fn push_bodies(
    alloc: Global,
    text: &mut String,
    bodies: &[Body],
    node: u32,
    has_tasks: bool,
) -> Result<(), AllocError> {
    let process = u64::from(node) + 1;
    let mut tracks = Tracks::new(alloc);
    for body in bodies {
        if body.node == node {
            let thread = tracks.take(body.begin, body.end)?.saturating_add(1);
            let (begin, length) = (Micros(body.begin), Micros(body.length()));
            write!(
                text,
                ",\n{{\"ph\":\"X\",\"pid\":{process},\"tid\":{thread},\"ts\":{begin},\"dur\":{length},"
            )?;
            push_what(text, body.task, has_tasks)?;
        }
    }
    push_process(text, node, has_tasks)?;
    for track in 0..tracks.len() {
        let thread = track.saturating_add(1);
        write!(
            text,
            ",\n{{\"ph\":\"M\",\"pid\":{process},\"tid\":{thread},\"name\":\"thread_name\",\"args\":{{\"name\":\"tasks {thread}\"}}}}"
        )?;
    }
    Ok(())
}

/// Appends the last fields of a body's slice.
fn push_what(text: &mut String, task: u32, has_tasks: bool) -> Result<(), AllocError> {
    if has_tasks {
        write!(
            text,
            r#""cat":"task","name":"task {task}","args":{{"task":{task}}}}}"#
        )
    } else {
        text.push_str(r#""cat":"task","name":"block"}"#)
    }
}

fn push_process(text: &mut String, node: u32, has_tasks: bool) -> Result<(), AllocError> {
    let process = u64::from(node) + 1;
    write!(
        text,
        ",\n{{\"ph\":\"M\",\"pid\":{process},\"name\":\"process_name\",\"args\":{{\"name\":\""
    )?;
    if has_tasks {
        write!(text, "node {node}")?;
    } else {
        text.push_str("all nodes")?;
    }
    write!(
        text,
        "\"}}}},\n{{\"ph\":\"M\",\"pid\":{process},\"name\":\"process_sort_index\",\"args\":{{\"sort_index\":{process}}}}}"
    )
}

/// Appends how many bodies of a node were done, over time.
fn push_counts(
    alloc: Global,
    text: &mut String,
    bodies: &[Body],
    node: u32,
) -> Result<(), AllocError> {
    let process = u64::from(node) + 1;
    let mut ends = Vec::new(alloc);
    for body in bodies {
        if body.node == node {
            ends.push(body.end)?;
        }
    }
    ends.sort_unstable();
    let every = (ends.len() / COUNTS).saturating_add(1);
    for (before, end) in ends.iter().enumerate() {
        let done = before.saturating_add(1);
        if done % every == 0 || done == ends.len() {
            let at = Micros(*end);
            write!(
                text,
                ",\n{{\"ph\":\"C\",\"pid\":{process},\"ts\":{at},\"name\":\"done\",\"args\":{{\"done\":{done}}}}}"
            )?;
        }
    }
    Ok(())
}
