//! The reasons why a specification names no pool, and why several may not be registered.
ghost use Rattle.tp_shell.specs.Streams.{MayExplain};

use crate::diagnostics::Diagnostics;
use crate::numbers::{A_NUMBER, short_number_of};
use itoa::Buffer;
use tp_base::{MAX_ORDER, MAX_POOLS, MAX_SEED, MAX_SIDE};

/// How a message names the specification of each place.
const SPECS: [&str; MAX_POOLS as usize] = [
    "SPEC 1", "SPEC 2", "SPEC 3", "SPEC 4", "SPEC 5", "SPEC 6", "SPEC 7", "SPEC 8",
];

/// The numbers of a specification.
#[derive(Clone, Copy)]
enum Field {
    /// The order of a product's matrices: 1 to 64.
    Order,
    /// The side of a product's tiles: 1 to 64, and it divides the order.
    Side,
    /// The rows of a wavefront: 1 to 64.
    Rows,
    /// The columns of a wavefront: 1 to 64.
    Columns,
    /// The leaves of a tree: a power of two from 1 to 1,024.
    Leaves,
    /// The seed of a pool: 0 to 9,999.
    Seed,
}

/// Why a specification names no pool.
#[derive(Clone, Copy)]
enum WordReason {
    /// It begins with no known kind.
    UnknownKind,
    /// It has more or fewer numbers than its kind, whose specifications have this form.
    Form(&'static str),
    /// This is the first of its numbers that is wrong: it is not a number of at most six digits without leading zeros.
    NoNumber(Field),
    /// This is the first of its numbers that is wrong: it is this one, which is out of range.
    OutOfRange(Field, u32),
    /// The side of its tiles, the first, does not divide its order.
    Undivided(u32, u32),
    /// It names a pool, and so does the same specification before it.
    Repeated,
}

/// Prints why a specification names no pool, if it names none.
pub fn explain_spec<E: Diagnostics>(word: &str, err: &mut E)
    ensures { MayExplain E.tells err.old err.new }
{
    if let Some(reason) = word_reason(word) {
        write_reason(word, reason, err);
    }
}

/// Prints why several specifications may not be registered, if they may not: they are too many, or the first that names
/// no pool or repeats another.
pub fn explain_specs<E: Diagnostics>(words: &[&str], err: &mut E)
    ensures { MayExplain E.tells err.old err.new }
{
    if words.len() > SPECS.len() {
        return err.tell("reason: more than 8 pools\n");
    }
    if let Some((spec, reason)) = words_reason(words) {
        write_reason(spec, reason, err);
    }
}

/// Returns how a message names the first of several specifications that may not be registered, and why, if there is
/// one.
fn words_reason(words: &[&str]) -> Option<(&'static str, WordReason)> {
    for (before, (word, spec)) in words.iter().zip(SPECS).enumerate() {
        if let Some(reason) = word_reason(word) {
            return Some((spec, reason));
        }
        if words.iter().take(before).any(|other| other == word) {
            return Some((spec, WordReason::Repeated));
        }
    }
    None
}

/// Returns why a specification names no pool, if it names none.
fn word_reason(word: &str) -> Option<WordReason> {
    let mut parts = word.split(':');
    let kind = parts.next();
    match (kind, parts.next(), parts.next(), parts.next(), parts.next()) {
        (Some("product"), Some(order), Some(side), Some(seed), None) => {
            product_reason(order, side, seed)
        }
        (Some("product"), _, _, _, _) => Some(WordReason::Form("product:ORDER:SIDE:SEED")),
        (Some("wavefront"), Some(rows), Some(columns), Some(seed), None) => {
            field_reason(Field::Rows, rows)
                .or(field_reason(Field::Columns, columns))
                .or(field_reason(Field::Seed, seed))
        }
        (Some("wavefront"), _, _, _, _) => Some(WordReason::Form("wavefront:ROWS:COLUMNS:SEED")),
        (Some("reduce"), Some(leaves), Some(seed), None, _) => {
            field_reason(Field::Leaves, leaves).or(field_reason(Field::Seed, seed))
        }
        (Some("reduce"), _, _, _, _) => Some(WordReason::Form("reduce:LEAVES:SEED")),
        _ => Some(WordReason::UnknownKind),
    }
}

/// Returns why these numbers are not those of a product, if they are not.
fn product_reason(order: &str, side: &str, seed: &str) -> Option<WordReason> {
    let wrong = field_reason(Field::Order, order)
        .or(field_reason(Field::Side, side))
        .or(field_reason(Field::Seed, seed));
    if wrong.is_some() {
        return wrong;
    }
    let order = short_number_of(order.as_bytes())?;
    let side = short_number_of(side.as_bytes())?;
    match order.checked_rem(side) {
        Some(0) => None,
        _ => Some(WordReason::Undivided(side, order)),
    }
}

/// Returns why a text may not be this number of a specification, if it may not.
fn field_reason(field: Field, text: &str) -> Option<WordReason> {
    match short_number_of(text.as_bytes()) {
        None => Some(WordReason::NoNumber(field)),
        Some(number) if field.allows(number) => None,
        Some(number) => Some(WordReason::OutOfRange(field, number)),
    }
}

/// Prints the reason after the name of the specification.
fn write_reason<E: Diagnostics>(word: &str, reason: WordReason, err: &mut E)
    ensures { MayExplain E.tells err.old err.new }
{
    match reason {
        WordReason::UnknownKind => {
            err.tell_parts(&[
                "reason: ",
                word,
                ": the kind must be product, wavefront or reduce\n",
            ])
        }
        WordReason::Form(form) => write_form(word, form, err),
        WordReason::NoNumber(field) => write_no_number(word, field.texts().0, err),
        WordReason::OutOfRange(field, number) => {
            let (name, range) = field.texts();
            write_range(word, name, Buffer::new().format(number), range, err)
        }
        WordReason::Repeated => err.tell_parts(&["reason: ", word, " repeats an earlier one\n"]),
        WordReason::Undivided(side, order) => write_undivided(word, side, order, err),
    }
}

/// Prints that a specification has more or fewer numbers than its kind.
fn write_form<E: Diagnostics>(word: &str, form: &str, err: &mut E)
    ensures { MayExplain E.tells err.old err.new }
{
    err.tell_parts(&["reason: ", word, ": the form must be ", form, "\n"])
}

/// Prints that a part of a specification, of this name, is no number.
fn write_no_number<E: Diagnostics>(word: &str, name: &str, err: &mut E)
    ensures { MayExplain E.tells err.old err.new }
{
    err.tell_parts(&["reason: ", word, ": ", name, " is not ", A_NUMBER])
}

/// Prints that a number of a specification, of this name, is out of range.
fn write_range<'a, E: Diagnostics>(
    word: &'a str,
    name: &'a str,
    number: &'a str,
    range: &'a str,
    err: &mut E,
)
    ensures { MayExplain E.tells err.old err.new }
{
    err.tell_parts(&[
        "reason: ", word, ": ", name, " ", number, " is ", range, "\n",
    ])
}

/// Prints that the side of the tiles does not divide the order of a product.
fn write_undivided<E: Diagnostics>(word: &str, side: u32, order: u32, err: &mut E)
    ensures { MayExplain E.tells err.old err.new }
{
    let mut sides = Buffer::new();
    let mut orders = Buffer::new();
    err.tell_parts(&[
        "reason: ",
        word,
        ": SIDE ",
        sides.format(side),
        " does not divide ORDER ",
        orders.format(order),
        "\n",
    ])
}

impl Field {
    /// The name that the help of `tp run` uses, and how a message describes the range.
    fn texts(self) -> (&'static str, &'static str) {
        match self {
            Field::Order => ("ORDER", "not from 1 to 64"),
            Field::Side => ("SIDE", "not from 1 to 64"),
            Field::Rows => ("ROWS", "not from 1 to 64"),
            Field::Columns => ("COLUMNS", "not from 1 to 64"),
            Field::Leaves => ("LEAVES", "not a power of two from 1 to 1024"),
            Field::Seed => ("SEED", "not from 0 to 9999"),
        }
    }

    /// Returns whether a number is in its range.
    fn allows(self, n: u32) -> bool {
        match self {
            Field::Order | Field::Side => 1 <= n && n <= MAX_ORDER,
            Field::Rows | Field::Columns => 1 <= n && n <= MAX_SIDE,
            Field::Leaves => matches!(n, 1 | 2 | 4 | 8 | 16 | 32 | 64 | 128 | 256 | 512 | 1024),
            Field::Seed => n <= MAX_SEED,
        }
    }
}
