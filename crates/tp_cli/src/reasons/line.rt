//! The reason for a line of a script or a trace that is not of the grammar, or that was refused.
ghost use Rattle.tp_shell.specs.Streams.{MayExplain};

use crate::reasons::pending::explain_pending;
use crate::text::TextKind;
use itoa::Buffer;
use std::alloc::Global;
use tp_base::MAX_INPUTS;
use tp_shell::{A_NUMBER, Diagnostics, cut, number_of, short_number_of};

/// The numbers after a keyword.
#[derive(Clone, Copy)]
struct Numbers {
    count: usize,
    last: u32,
}

/// Prints what is wrong with the line that the reply names as not of the grammar, or what is pending if the line was
/// refused for that.
pub(crate) fn explain_text<E: Diagnostics>(
    alloc: Global,
    kind: TextKind,
    text: &[u8],
    answer: &[u8],
    err: &mut E,
)
    ensures { MayExplain E.tells err.old err.new }
{
    if let Some(line) = line_named(answer) {
        explain_line(kind, text, line, err);
    } else if let Some(line) = line_not_idle(answer) {
        explain_pending(alloc, text, line, err);
    }
}

/// Returns the L of the reply `line L refused 11 NotIdle`.
fn line_not_idle(answer: &[u8]) -> Option<u32> {
    let rest = answer.strip_prefix(b"line ")?;
    number_of(rest.strip_suffix(b" refused 11 NotIdle\n")?)
}

/// Returns the L of the reply `syntax line L`. A text has fewer than 1,000,000,000 lines.
fn line_named(answer: &[u8]) -> Option<u32> {
    number_of(answer.strip_prefix(b"syntax line ")?.strip_suffix(b"\n")?)
}

/// Prints what is wrong with a line: the first of the reasons that apply, in this order.
fn explain_line<E: Diagnostics>(kind: TextKind, text: &[u8], line: u32, err: &mut E)
    ensures { MayExplain E.tells err.old err.new }
{
    let is_second = is_second(kind, text);
    let (words, is_ended) = find_line(text, line);
    let mut digits = Buffer::new();
    let number = digits.format(line);
    if let Some(what) = unseen(words, is_ended) {
        err.tell_parts(&["reason: line ", number, what])
    } else if kind == TextKind::Trace && line <= 1 {
        err.tell_parts(&[
            "reason: line ",
            number,
            " is neither `trace 1` nor `trace 2`\n",
        ])
    } else if line <= nodes_at(kind, is_second) {
        err.tell_parts(&[
            "reason: line ",
            number,
            " is not `nodes N`, N from 1 to 8\n",
        ])
    } else {
        explain_step(kind, is_second, number, words, err)
    }
}

/// Returns what is wrong with a line that an editor does not show, if something is.
fn unseen(words: &[u8], is_ended: bool) -> Option<&'static str> {
    match words {
        [] if !is_ended => Some(" is missing\n"),
        _ if !is_ended => Some(" has no end\n"),
        [0xef, 0xbb, 0xbf, ..] => Some(" begins with a byte order mark\n"),
        [.., b'\r'] => Some(" ends with a carriage return: lines end with a line feed alone\n"),
        [.., b' '] => Some(" ends with a space\n"),
        _ => None,
    }
}

/// Returns whether a text is of version 2.
fn is_second(kind: TextKind, text: &[u8]) -> bool {
    let head: &[u8] = match kind {
        TextKind::Script => b"script 2\n",
        TextKind::Trace => b"trace 2\n",
    };
    text.strip_prefix(head).is_some()
}

/// Returns the line of a text, and whether a line feed ends it.
pub(crate) fn find_line(text: &[u8], line: u32) -> (&[u8], bool) {
    let mut rest = text;
    for _ in 1..line {
        match cut(rest, b'\n') {
            (_, Some(behind)) => rest = behind,
            (_, None) => return (&[], false),
        }
    }
    let (words, behind) = cut(rest, b'\n');
    (words, behind.is_some())
}

/// Returns the line that has the number of nodes.
fn nodes_at(kind: TextKind, is_second: bool) -> u32 {
    match kind {
        TextKind::Script if !is_second => 1,
        _ => 2,
    }
}

/// Prints why a line is no step.
fn explain_step<E: Diagnostics>(
    kind: TextKind,
    is_second: bool,
    line: &str,
    words: &[u8],
    err: &mut E,
)
    ensures { MayExplain E.tells err.old err.new }
{
    let (word, rest) = cut(words, b' ');
    let Some(due) = numbers_due(is_second, word) else {
        return explain_unknown(line, word, err);
    };
    match word {
        b"reopen" if !is_second => err.tell_parts(&[
            "reason: line ",
            line,
            ": version 1 has no step `reopen`\n",
        ]),
        b"judge" if kind == TextKind::Trace => err.tell_parts(&[
            "reason: line ",
            line,
            ": after `judge` comes `not` or `ended W`, W at least 1\n",
        ]),
        _ => explain_numbers(line, word, rest, due, err),
    }
}

/// Returns how many numbers follow a keyword, if the word is one. In version 2 a message also has the number of its
/// generation.
fn numbers_due(is_second: bool, word: &[u8]) -> Option<usize> {
    match word {
        b"start" | b"judge" | b"reopen" => Some(0),
        b"supply" | b"begin" | b"done" | b"ready" | b"down" | b"give" | b"up" => Some(1),
        b"open" | b"close" => Some(2),
        b"recv" | b"end" => Some(if is_second { 3 } else { 2 }),
        b"insert" => Some(3),
        b"send" => Some(if is_second { 4 } else { 3 }),
        _ => None,
    }
}

/// Prints that a line begins with no step.
fn explain_unknown<E: Diagnostics>(line: &str, word: &[u8], err: &mut E)
    ensures { MayExplain E.tells err.old err.new }
{
    match shown(word) {
        Some(word) => err.tell_parts(&["reason: line ", line, ": unknown step `", word, "`\n"]),
        None => err.tell_parts(&["reason: line ", line, ": not a step\n"]),
    }
}

/// Prints why the text after a keyword is not the required count of numbers.
fn explain_numbers<E: Diagnostics>(
    line: &str,
    word: &[u8],
    rest: Option<&[u8]>,
    due: usize,
    err: &mut E,
)
    ensures { MayExplain E.tells err.old err.new }
{
    let Numbers { count, last } = match numbers_in(rest) {
        Ok(numbers) => numbers,
        Err(other) => return explain_other(line, other, err),
    };
    if count != due {
        return explain_count(line, count, due, err);
    }
    match word {
        b"insert" if last > u32::from(MAX_INPUTS) => {
            err.tell_parts(&["reason: line ", line, ": a task has at most 16 inputs\n"])
        }
        _ => err.tell_parts(&["reason: line ", line, " does not match the grammar\n"]),
    }
}

/// Prints that more or fewer numbers follow a keyword than it takes.
fn explain_count<E: Diagnostics>(line: &str, count: usize, due: usize, err: &mut E)
    ensures { MayExplain E.tells err.old err.new }
{
    let mut has = Buffer::new();
    let mut takes = Buffer::new();
    err.tell_parts(&[
        "reason: line ",
        line,
        ": wrong count of numbers: ",
        has.format(count),
        " instead of ",
        takes.format(due),
        "\n",
    ])
}

/// Prints that a word after a keyword is no number.
fn explain_other<E: Diagnostics>(line: &str, word: &[u8], err: &mut E)
    ensures { MayExplain E.tells err.old err.new }
{
    match shown(word) {
        Some(word) => err.tell_parts(&["reason: line ", line, ": `", word, "` is not ", A_NUMBER]),
        None => err.tell_parts(&["reason: line ", line, ": not ", A_NUMBER]),
    }
}

/// Returns the numbers after a keyword, or the first word that is none.
fn numbers_in(behind: Option<&[u8]>) -> Result<Numbers, &[u8]> {
    let mut rest = behind;
    let mut last = 0;
    for count in 0..usize::MAX {
        let Some(left) = rest else {
            return Ok(Numbers { count, last });
        };
        let (word, behind) = cut(left, b' ');
        match short_number_of(word) {
            Some(number) => last = number,
            None => return Err(word),
        }
        rest = behind;
    }
    let count = usize::MAX;
    Ok(Numbers { count, last })
}

/// Returns the text of a word of 1 to 32 bytes, each a visible ASCII character. Others could garble a terminal.
fn shown(word: &[u8]) -> Option<&str> {
    let is_shown = matches!(word.len(), 1..=32) && word.iter().all(|byte| byte.is_ascii_graphic());
    if is_shown {
        std::str::from_utf8(word).ok()
    } else {
        None
    }
}
