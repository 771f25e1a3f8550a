//! The lines of a reply: for a step, for the closing numbers, and for a syntax error.
ghost use Rattle.std.specs.Prelude.{◌≡◌, ◌++◌, ◌+◌, ◌^◌, ◌<◌, ◌≤◌, ℕ, length, decimal, codes, if◌then◌else◌, OnOk, IfOk, Err};
ghost use Rattle.tp_base.specs.{Totals.total, declared.limits.TheConstants.MAX_NODES};
ghost use Rattle.tp_text.specs.{Printed.listed, SimText.{answer_line, counts, node_line, node_lines, closing}, Spelling.line};

use itoa::Buffer;
use std::alloc::{AllocError, Global};
use tp_base::Refusal;
use tp_core::{Core, NodeNumbers, Reply};

/// Appends a label and a number.
pub(crate) fn push_count(out: &mut Vec<u8>, label: &[u8], number: u64) -> Result<(), AllocError>
    ensures { OnOk result (out.new.items ≡ out.old.items ++ (label.now ++ decimal number)) }
{
    out.extend_from_slice(label)?;
    out.extend_from_slice(Buffer::new().format(number).as_bytes())
}

/// Appends the line of the reply to a step.
pub(crate) fn push_answer(
    out: &mut Vec<u8>,
    answer: Result<Reply, Refusal>,
) -> Result<(), AllocError>
    ensures { OnOk result (out.new.items ≡ out.old.items ++ answer_line answer) }
{
    match answer {
        Ok(Reply::Plain) => out.extend_from_slice(b"ok\n"),
        Ok(Reply::WaveSums(sums)) => {
            push_count(out, b"wave ", u64::from(sums.wave))?;
            push_count(out, b" sent ", u64::from(sums.sent))?;
            push_count(out, b" received ", u64::from(sums.received))?;
            out.extend_from_slice(b"\n")
        }
        Ok(Reply::Not) => out.extend_from_slice(b"not\n"),
        Ok(Reply::Over(wave)) => {
            push_count(out, b"ended ", u64::from(wave))?;
            out.extend_from_slice(b"\n")
        }
        Ok(Reply::Opened(generation)) => {
            push_count(out, b"generation ", u64::from(generation.0))?;
            out.extend_from_slice(b"\n")
        }
        Err(refusal) => push_refusal(out, refusal),
    }
}

/// Appends a refusal and the end of its line.
pub(crate) fn push_refusal(out: &mut Vec<u8>, refusal: Refusal) -> Result<(), AllocError>
    ensures { OnOk result (out.new.items ≡ out.old.items ++ answer_line (Err refusal)) }
{
    push_count(out, b"refused ", u64::from(refusal.number()))?;
    out.extend_from_slice(b" ")?;
    out.extend_from_slice(refusal.name().as_bytes())?;
    out.extend_from_slice(b"\n")
}

/// The counters of a node, or their sums over all nodes.
#[derive(Clone, Copy)]
struct LineCounts {
    pending: u64,
    sent: u64,
    received: u64,
}

impl LineCounts {
    fn of(numbers: &NodeNumbers) -> LineCounts
        ensures value { result ≡ record {
          pending = numbers.now.pending;
          sent = numbers.now.sent;
          received = numbers.now.received;
        } }
        ensures small { (result.pending < 2 ^ 32) × (result.sent < 2 ^ 32) × (result.received < 2 ^ 32) }
    {
        LineCounts {
            pending: u64::from(numbers.pending),
            sent: u64::from(numbers.sent),
            received: u64::from(numbers.received),
        }
    }

    fn plus(self, other: LineCounts) -> LineCounts
        requires pending { self.pending + other.pending < 2 ^ 64 }
        requires sent { self.sent + other.sent < 2 ^ 64 }
        requires received { self.received + other.received < 2 ^ 64 }
        ensures { result ≡ record {
          pending = self.pending + other.pending;
          sent = self.sent + other.sent;
          received = self.received + other.received;
        } }
    {
        LineCounts {
            pending: self.pending + other.pending,
            sent: self.sent + other.sent,
            received: self.received + other.received,
        }
    }
}

fn push_counts(out: &mut Vec<u8>, numbers: LineCounts) -> Result<(), AllocError>
    ensures { OnOk result (out.new.items ≡ out.old.items ++ counts (record {
      pending = numbers.pending;
      sent = numbers.sent;
      received = numbers.received;
    })) }
{
    push_count(out, b" pending ", numbers.pending)?;
    push_count(out, b" sent ", numbers.sent)?;
    push_count(out, b" received ", numbers.received)
}

fn push_node(out: &mut Vec<u8>, node: u64, numbers: &NodeNumbers) -> Result<(), AllocError>
    ensures { OnOk result (out.new.items ≡ out.old.items ++ node_line node numbers.now) }
{
    push_count(out, b"node ", node)?;
    push_counts(out, LineCounts::of(numbers))?;
    out.extend_from_slice(b"\n")
}

fn push_nodes(out: &mut Vec<u8>, nodes: &[NodeNumbers]) -> Result<(), AllocError>
    ensures { OnOk result (out.new.items ≡ out.old.items ++ node_lines (length nodes.now) (listed nodes.now)) }
{
    for (i, numbers) in nodes.iter().enumerate() {
        push_node(out, i as u64, numbers)?;
    }
    Ok(())
}

/// Returns the sums of the counters over all these nodes.
fn all_counts(nodes: &[NodeNumbers]) -> LineCounts
    requires { length nodes.now ≤ MAX_NODES }
    ensures pending { result.pending ≡ total (length nodes.now) (λ i. (listed nodes.now i).pending) }
    ensures sent { result.sent ≡ total (length nodes.now) (λ i. (listed nodes.now i).sent) }
    ensures received { result.received ≡ total (length nodes.now) (λ i. (listed nodes.now i).received) }
{
    let mut sums = LineCounts {
        pending: 0,
        sent: 0,
        received: 0,
    };
    for numbers in nodes {
        sums = sums.plus(LineCounts::of(numbers));
    }
    sums
}

fn push_total(out: &mut Vec<u8>, sums: LineCounts, under: u64) -> Result<(), AllocError>
    ensures { OnOk result (out.new.items ≡ out.old.items ++ line (codes "total" ++ counts (record {
      pending = sums.pending;
      sent = sums.sent;
      received = sums.received;
    }) ++ codes " under " ++ decimal under)) }
{
    out.extend_from_slice(b"total")?;
    push_counts(out, sums)?;
    push_count(out, b" under ", under)?;
    out.extend_from_slice(b"\n")?;
    Ok(())
}

fn push_quiet(out: &mut Vec<u8>, quiet: bool) -> Result<(), AllocError>
    ensures { OnOk result (out.new.items ≡ out.old.items
        ++ line (codes "quiet " ++ (if quiet then codes "yes" else codes "no"))) }
{
    if quiet {
        out.extend_from_slice(b"quiet yes\n")
    } else {
        out.extend_from_slice(b"quiet no\n")
    }
}

/// Appends the closing lines, from the numbers of a core of `nodes` nodes.
pub(crate) fn push_closing(out: &mut Vec<u8>, core: &Core, nodes: u32) -> Result<(), AllocError>
    requires { (nodes ≡ core.now.nodes) × (nodes ≤ MAX_NODES) }
    ensures { OnOk result (out.new.items ≡ out.old.items ++ closing core.now) }
{
    let numbers = core.numbers();
    let nodes = &numbers.nodes[..nodes as usize];
    push_nodes(out, nodes)?;
    push_total(out, all_counts(nodes), u64::from(numbers.under))?;
    push_quiet(out, core.quiet())?;
    Ok(())
}

/// Returns the line that reports the first line that does not match the grammar. Refused if an allocation fails.
pub(crate) fn syntax_line(alloc: Global, number: u64) -> Result<Vec<u8>, AllocError>
    ensures { IfOk result (λ out. out.items ≡ line (codes "syntax line " ++ decimal number)) }
{
    let mut out = Vec::new(alloc);
    push_count(&mut out, b"syntax line ", number)?;
    out.extend_from_slice(b"\n")?;
    Ok(out)
}
