//! The reason for a line of a trace in which a node gave its sums while something was pending there.
ghost use Rattle.tp_shell.specs.Streams.{MayExplain};

use crate::reasons::line::find_line;
use itoa::Buffer;
use std::alloc::{AllocError, Global};
use tp_shell::{Diagnostics, cut, number_of};

/// What may be pending, each kind with the numbers below a million. Only the opening has no number.
const KINDS: [&str; 4] = ["opening ", "task ", "action ", "message "];

const NUMBERS: usize = 1_000_000;

const PLACES: usize = 4_000_000;

/// Prints what was pending at the node that gave its sums in this line.
pub(crate) fn explain_pending<E: Diagnostics>(alloc: Global, text: &[u8], line: u32, err: &mut E)
    ensures { MayExplain E.tells err.old err.new }
{
    let (words, _) = find_line(text, line);
    if let (_, Some(node), _) = step_of(words) {
        if let Ok(open) = open_at(alloc, text, line, node) {
            tell_pending(node, &open, err);
        }
    }
}

/// Returns for each number of each kind whether it is pending at a node before a line.
fn open_at(alloc: Global, text: &[u8], line: u32, node: u32) -> Result<Vec<bool>, AllocError> {
    let mut open = Vec::new(alloc);
    open.resize(PLACES, false)?;
    set(&mut open, 0, Some(0), true);
    let mut rest = text;
    for _ in 1..line {
        let (words, behind) = cut(rest, b'\n');
        let (word, first, second) = step_of(words);
        let is_here = first == Some(node);
        match word {
            b"ready" if is_here => set(&mut open, 0, Some(0), false),
            b"insert" if is_here => set(&mut open, 1, second, true),
            b"done" => set(&mut open, 1, first, false),
            b"open" if is_here => set(&mut open, 2, second, true),
            b"close" if is_here => set(&mut open, 2, second, false),
            b"recv" if is_here => set(&mut open, 3, second, true),
            b"end" if is_here => set(&mut open, 3, second, false),
            b"reopen" => {
                open.fill(false);
                set(&mut open, 0, Some(0), true);
            }
            _ => {}
        }
        rest = behind.unwrap_or(&[]);
    }
    Ok(open)
}

/// Returns the first word of a line, and the two after it as numbers.
fn step_of(words: &[u8]) -> (&[u8], Option<u32>, Option<u32>) {
    let (word, rest) = cut(words, b' ');
    let (first, rest) = cut(rest.unwrap_or(&[]), b' ');
    let (second, _) = cut(rest.unwrap_or(&[]), b' ');
    (word, number_of(first), number_of(second))
}

fn set(open: &mut [bool], kind: usize, number: Option<u32>, is_open: bool) {
    let number = number.unwrap_or(0) as usize;
    if let Some(place) = open.get_mut(kind.saturating_mul(NUMBERS).saturating_add(number)) {
        *place = is_open;
    }
}

/// Prints the first thing that is pending, and how many others are.
fn tell_pending<E: Diagnostics>(node: u32, open: &[bool], err: &mut E)
    ensures { MayExplain E.tells err.old err.new }
{
    let Some(first) = open.iter().position(|open| *open) else {
        return;
    };
    let (mut nodes, mut numbers, mut counts) = (Buffer::new(), Buffer::new(), Buffer::new());
    let node = nodes.format(node);
    let kind = KINDS.get(first / NUMBERS).copied().unwrap_or("");
    let number = numbers.format(first % NUMBERS);
    let others = open.iter().filter(|open| **open).count().saturating_sub(1);
    let head = "reason: pending at node ";
    match (first, others) {
        (0, _) => {
            err.tell_parts(&[
                "reason: node ",
                node,
                " is not ready: `ready ",
                node,
                "` is missing\n",
            ])
        }
        (_, 0) => err.tell_parts(&[head, node, ": ", kind, number, "\n"]),
        _ => err.tell_parts(&[
            head,
            node,
            ": ",
            kind,
            number,
            " and ",
            counts.format(others),
            " more\n",
        ]),
    }
}
