//! Two square matrices as lines of text.

use crate::fault::{Fault, InputFault};
use crate::lines::{push_row, push_row_of};
use std::alloc::Global;

/// Two square matrices of the same order, row by row.
#[derive(Drop)]
pub(crate) struct Matrices {
    /// The number of rows and of columns.
    pub(crate) order: usize,
    pub(crate) left: Vec<i64>,
    pub(crate) right: Vec<i64>,
}

/// Parses the matrices of a text: the rows of the first as lines, an empty line, the rows of the second.
pub(crate) fn matrices_of(alloc: Global, text: &str) -> Result<Matrices, Fault> {
    let mut matrices = Matrices {
        order: 0,
        left: Vec::new(alloc),
        right: Vec::new(alloc),
    };
    let mut place = 0usize;
    for line in text.lines() {
        place = place.saturating_add(1);
        matrices.take(line, place)?;
    }
    if place == 0 {
        return Err(Fault::Input(InputFault::NoLine));
    }
    let order = matrices.order;
    // There have to be the rows of both and the line between them.
    if place <= order.saturating_mul(2) {
        return Err(Fault::Input(InputFault::Missing {
            line: (place as u64).saturating_add(1),
            order,
        }));
    }
    Ok(matrices)
}

impl Matrices {
    /// Takes the line at a place, counted from 1. The first line determines the number of columns.
    fn take(&mut self, line: &str, place: usize) -> Result<(), Fault> {
        let (order, at) = (self.order, place as u64);
        if place == 1 {
            self.order = push_row(&mut self.left, line, at)?;
            return Ok(());
        }
        if place <= order {
            return push_row_of(&mut self.left, line, at, order);
        }
        if place > order.saturating_mul(2).saturating_add(1) {
            return Err(Fault::Input(InputFault::Extra(at)));
        }
        if place.saturating_sub(order) > 1 {
            return push_row_of(&mut self.right, line, at, order);
        }
        if line.is_empty() {
            Ok(())
        } else {
            Err(Fault::Input(InputFault::NotEmpty(at)))
        }
    }
}
