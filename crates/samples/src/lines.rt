//! Numbers and rows of numbers as lines of text: reading and writing.

use crate::fault::{Fault, InputFault};
use itoa::Buffer;
use std::alloc::{AllocError, Global};

/// A grid of numbers, row by row.
#[derive(Drop)]
pub(crate) struct Rows {
    pub(crate) width: usize,
    pub(crate) numbers: Vec<i64>,
}

/// Parses the numbers of a text, one per line.
pub(crate) fn numbers_of(alloc: Global, text: &str) -> Result<Vec<i64>, Fault> {
    let mut numbers = Vec::new(alloc);
    let mut place = 0u64;
    for line in text.lines() {
        place = place.saturating_add(1);
        match line.parse::<i64>() {
            Ok(number) => numbers.push(number)?,
            Err(_) => return Err(Fault::Input(InputFault::BadNumber(place))),
        }
    }
    if numbers.is_empty() {
        return Err(Fault::Input(InputFault::NoNumber));
    }
    Ok(numbers)
}

/// Parses the grid of a text: each line is a row, as long as the first.
pub(crate) fn rows_of(alloc: Global, text: &str) -> Result<Rows, Fault> {
    let mut numbers = Vec::new(alloc);
    let (mut width, mut place) = (0, 0u64);
    for line in text.lines() {
        place = place.saturating_add(1);
        if place == 1 {
            width = push_row(&mut numbers, line, place)?;
        } else {
            push_row_of(&mut numbers, line, place, width)?;
        }
    }
    if place == 0 {
        return Err(Fault::Input(InputFault::NoLine));
    }
    Ok(Rows { width, numbers })
}

/// Appends the numbers of a line, separated by single spaces, and returns how many there are.
pub(crate) fn push_row(numbers: &mut Vec<i64>, line: &str, place: u64) -> Result<usize, Fault> {
    let mut count = 0usize;
    for part in line.split(' ') {
        match part.parse::<i64>() {
            Ok(number) => numbers.push(number)?,
            Err(_) => return Err(Fault::Input(InputFault::BadRow(place))),
        }
        count = count.saturating_add(1);
    }
    Ok(count)
}

/// Appends the numbers of a line that has to have `due` of them.
pub(crate) fn push_row_of(
    numbers: &mut Vec<i64>,
    line: &str,
    place: u64,
    due: usize,
) -> Result<(), Fault> {
    let has = push_row(numbers, line, place)?;
    if has != due {
        return Err(Fault::Input(InputFault::Uneven {
            line: place,
            has,
            due,
        }));
    }
    Ok(())
}

/// Returns numbers as lines of `width` numbers each.
pub(crate) fn text_of(alloc: Global, width: usize, numbers: &[i64]) -> Result<Vec<u8>, AllocError> {
    let mut text = Vec::new(alloc);
    let mut left = width;
    for number in numbers {
        text.extend_from_slice(Buffer::new().format(*number).as_bytes())?;
        left = left.saturating_sub(1);
        if left == 0 {
            text.extend_from_slice(b"\n")?;
            left = width;
        } else {
            text.extend_from_slice(b" ")?;
        }
    }
    Ok(text)
}
