//! The parser of scripts and traces, line by line.
ghost use Rattle.std.specs.Prelude.{◌≡◌, ◌≢◌, ◌≤◌, ◌++◌, ◌∷◌, [], ℕ, List, codes, Option, MatchOption};
ghost use Rattle.tp_base.specs.declared.Step.{Step};
ghost use Rattle.tp_text.specs.{Keywords.{keyword_text, Names, NamesNone}, Script.{nodes_line, step_line, version_lines, IsNodeCount}};
ghost use Rattle.tp_text.specs.{Script.{BeginsWithNodes, BeginsWithStep, BeginsWithVersion}, Spelling.{spaced, word_of, numbers_of}};
ghost use Rattle.tp_text.specs.{Spelling.IsSpelled, Trace.{format_line, trace_line, words, AreWords, BeginsWithFormat, BeginsWithLine}};
ghost use Rattle.tp_text.specs.{Trace.IsWritten, Words.numbers_in, declared.keyword.Keyword.Keyword};

use crate::keyword::{Keyword, keyword_of};
use crate::step_lines::FIRST;
use crate::traced::TraceLine;
use crate::version::Version;
use crate::words::{Operands, first_word, operands_of};
use tp_base::{ActionId, Generation, Inputs, MAX_NODES, MessageId, NodeId, Step, TaskId};

/// Returns the step that a keyword and its numbers spell, if they spell one.
fn step_named(version: Version, keyword: Keyword, operands: Operands) -> Option<Step>
    ensures { MatchOption result
        (NamesNone version keyword (numbers_in operands))
        (Names version keyword (numbers_in operands)) }
{
    Some(match (keyword, operands) {
        (Keyword::Insert, Operands::Three(i, t, k)) => {
            let inputs = Inputs::new(u8::try_from(k).ok()?)?;
            Step::Insert(NodeId(i), TaskId(t), inputs)
        }
        (Keyword::Supply, Operands::One(t)) => Step::Supply(TaskId(t)),
        (Keyword::Begin, Operands::One(t)) => Step::Begin(TaskId(t)),
        (Keyword::Done, Operands::One(t)) => Step::Done(TaskId(t)),
        (Keyword::Open, Operands::Two(i, a)) => Step::ActionOpen(NodeId(i), ActionId(a)),
        (Keyword::Close, Operands::Two(i, a)) => Step::ActionClose(NodeId(i), ActionId(a)),
        (Keyword::Ready, Operands::One(i)) => Step::Ready(NodeId(i)),
        (Keyword::Send, _) => return send_named(version, operands),
        (Keyword::Recv, _) => return recv_named(version, operands),
        (Keyword::End, _) => return end_named(version, operands),
        (Keyword::Start, Operands::None) => Step::Start,
        (Keyword::Down, Operands::One(i)) => Step::Down(NodeId(i)),
        (Keyword::Give, Operands::One(i)) => Step::Give(NodeId(i)),
        (Keyword::Up, Operands::One(i)) => Step::Up(NodeId(i)),
        (Keyword::Judge, Operands::None) => Step::Judge,
        (Keyword::Reopen, _) => return reopen_named(version, operands),
        _ => return None,
    })
}

// A message of version 1 is of the first generation. In version 2 the last number of its line is its generation.

fn send_named(version: Version, operands: Operands) -> Option<Step>
    ensures { MatchOption result
        (NamesNone version Keyword.Send (numbers_in operands))
        (Names version Keyword.Send (numbers_in operands)) }
{
    match (version, operands) {
        (Version::One, Operands::Three(i, j, m)) => {
            Some(Step::Send(NodeId(i), NodeId(j), MessageId(m), FIRST))
        }
        (Version::Two, Operands::Four(i, j, m, g)) => {
            Some(Step::Send(NodeId(i), NodeId(j), MessageId(m), Generation(g)))
        }
        _ => None,
    }
}

fn recv_named(version: Version, operands: Operands) -> Option<Step>
    ensures { MatchOption result
        (NamesNone version Keyword.Recv (numbers_in operands))
        (Names version Keyword.Recv (numbers_in operands)) }
{
    match (version, operands) {
        (Version::One, Operands::Two(j, m)) => Some(Step::Recv(NodeId(j), MessageId(m), FIRST)),
        (Version::Two, Operands::Three(j, m, g)) => {
            Some(Step::Recv(NodeId(j), MessageId(m), Generation(g)))
        }
        _ => None,
    }
}

fn end_named(version: Version, operands: Operands) -> Option<Step>
    ensures { MatchOption result
        (NamesNone version Keyword.End (numbers_in operands))
        (Names version Keyword.End (numbers_in operands)) }
{
    match (version, operands) {
        (Version::One, Operands::Two(j, m)) => Some(Step::MessageEnd(
            NodeId(j),
            MessageId(m),
            FIRST,
        )),
        (Version::Two, Operands::Three(j, m, g)) => {
            Some(Step::MessageEnd(NodeId(j), MessageId(m), Generation(g)))
        }
        _ => None,
    }
}

/// Returns the reopening, which only version 2 has.
fn reopen_named(version: Version, operands: Operands) -> Option<Step>
    ensures { MatchOption result
        (NamesNone version Keyword.Reopen (numbers_in operands))
        (Names version Keyword.Reopen (numbers_in operands)) }
{
    match (version, operands) {
        (Version::Two, Operands::None) => Some(Step::Reopen),
        _ => None,
    }
}

/// Returns the number of nodes, if it is the only number and is from 1 to 8.
fn node_count(operands: Operands) -> Option<u32>
    ensures { MatchOption result
        ((n : ℕ) → IsNodeCount n → numbers_in operands ≢ n ∷ [])
        (λ n. IsNodeCount n × (numbers_in operands ≡ n ∷ [])) }
{
    match operands {
        Operands::One(nodes) if 1 <= nodes && nodes <= MAX_NODES => Some(nodes),
        _ => None,
    }
}

/// Returns the version of a script, and the text after the line `script 2`, with which version 2 begins.
pub(crate) fn script_head(text: &[u8]) -> (Version, &[u8])
    ensures text { text.now ≡ version_lines result.0 ++ result.1.now }
    ensures two { BeginsWithVersion text.now → result.0 ≡ Version.Two }
{
    match text.strip_prefix(b"script 2\n") {
        Some(rest) => (Version::Two, rest),
        None => (Version::One, text),
    }
}

/// Parses the line for the number of nodes, and returns that number and the text after the line.
pub(crate) fn first_line(text: &[u8]) -> Option<(u32, &[u8])>
    ensures { MatchOption result
        (¬ BeginsWithNodes text.now)
        (λ found. IsNodeCount found.0 × (text.now ≡ nodes_line found.0 ++ found.1.now)) }
{
    let (word, text) = first_word(text);
    if word != b"nodes".as_slice() {
        return None;
    }
    let (operands, rest) = operands_of(text)?;
    Some((node_count(operands)?, rest))
}

/// Parses the numbers after a keyword, and returns the step and the text after its line.
fn step_behind(version: Version, keyword: Keyword, text: &[u8]) -> Option<(Step, &[u8])>
    ensures { MatchOption result
        ((s : Step) (rest : List ℕ) → IsSpelled version s → word_of s ≡ keyword_text keyword
        → text.now ≢ spaced (numbers_of version s) ++ 10 ∷ rest)
        (λ found. IsSpelled version found.0 × (word_of found.0 ≡ keyword_text keyword)
        × (text.now ≡ spaced (numbers_of version found.0) ++ 10 ∷ found.1.now)) }
{
    let (operands, rest) = operands_of(text)?;
    Some((step_named(version, keyword, operands)?, rest))
}

/// Parses the line of a step, and returns the step and the text after the line.
pub(crate) fn next_step(version: Version, text: &[u8]) -> Option<(Step, &[u8])>
    ensures { MatchOption result
        (¬ BeginsWithStep version text.now)
        (λ found. IsSpelled version found.0 × (text.now ≡ step_line version found.0 ++ found.1.now)) }
{
    let (word, text) = first_word(text);
    step_behind(version, keyword_of(word)?, text)
}

/// Parses the format line of a trace, and returns its version and the text after the line.
pub(crate) fn behind_format(text: &[u8]) -> Option<(Version, &[u8])>
    ensures { MatchOption result
        (¬ BeginsWithFormat text.now)
        (λ found. text.now ≡ format_line found.0 ++ found.1.now) }
{
    if let Some(rest) = text.strip_prefix(b"trace 1\n") {
        return Some((Version::One, rest));
    }
    Some((Version::Two, text.strip_prefix(b"trace 2\n")?))
}

/// Parses the claim of a judgement line, and returns it and the text after the line.
fn judge_words(text: &[u8]) -> Option<(Option<u32>, &[u8])>
    ensures { MatchOption result
        ((o : Option ℕ) (rest : List ℕ) → AreWords o → text.now ≢ words o ++ 10 ∷ rest)
        (λ found. AreWords found.0 × (text.now ≡ words found.0 ++ 10 ∷ found.1.now)) }
{
    if let Some(rest) = text.strip_prefix(b" not\n") {
        return Some((None, rest));
    }
    let (operands, rest) = operands_of(text.strip_prefix(b" ended")?)?;
    Some((Some(wave_number(operands)?), rest))
}

/// Returns the number of a wave, if it is the only number. Waves are counted from 1.
fn wave_number(operands: Operands) -> Option<u32>
    ensures { MatchOption result
        ((w : ℕ) → 1 ≤ w → numbers_in operands ≢ w ∷ [])
        (λ w. (1 ≤ w) × (numbers_in operands ≡ w ∷ [])) }
{
    match operands {
        Operands::One(wave) if wave > 0 => Some(wave),
        _ => None,
    }
}

/// Parses the first line after the head of a trace, and returns it and the text after it.
pub(crate) fn next_line(version: Version, text: &[u8]) -> Option<(TraceLine, &[u8])>
    ensures { MatchOption result
        (¬ BeginsWithLine version text.now)
        (λ found. IsWritten version found.0 × (text.now ≡ trace_line version found.0 ++ found.1.now)) }
{
    let (word, text) = first_word(text);
    match keyword_of(word)? {
        Keyword::Judge => {
            let (wave, rest) = judge_words(text)?;
            Some((TraceLine::Judged(wave), rest))
        }
        keyword => {
            let (step, rest) = step_behind(version, keyword, text)?;
            Some((TraceLine::Plain(step), rest))
        }
    }
}
