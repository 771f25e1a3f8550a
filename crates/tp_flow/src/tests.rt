//! Small descriptions as tables: the tiles of a Cholesky factorization, readers between two writers, a handle that is named twice, what is
//! refused, and what a refusal leaves. And graphs that are linked or refused.

use crate::access::{Access, Handle, Mode};
use crate::countdown::link;
use crate::flow::Flow;
use crate::limits::NO_INPUT;
use std::alloc::Global;
use tp_base::Refusal;

/// A task, the handles that it accesses, and its inputs.
type Row = (u32, &'static [(u32, Mode)], Result<&'static [u32], Refusal>);

const R: Mode = Mode::Read;

const W: Mode = Mode::Write;

const U: Mode = Mode::Update;

fn infer(
    alloc: Global,
    flow: &mut Flow,
    task: u32,
    named: &[(u32, Mode)],
) -> Result<Vec<u32>, Refusal> {
    let mut accesses = Vec::new(alloc);
    for (handle, mode) in named {
        accesses.push(Access {
            handle: Handle(*handle),
            mode: *mode,
        })?;
    }
    let mut inputs = Vec::new(alloc);
    flow.find(task, &accesses, &mut inputs)?;
    flow.record(task, &accesses);
    Ok(inputs)
}

fn is_right(alloc: Global, flow: &mut Flow, row: &Row) -> bool {
    match (infer(alloc, flow, row.0, row.1), row.2) {
        (Ok(inputs), Ok(expected)) => inputs.as_slice() == expected,
        (Err(refusal), Err(expected)) => refusal == expected,
        _ => false,
    }
}

fn are_right(alloc: Global, handles: u32, rows: &[Row]) -> bool {
    let mut flow = Flow::new(alloc);
    for number in 0..handles {
        if flow.handle() != Ok(Handle(number)) {
            return false;
        }
    }
    for row in rows {
        if !is_right(alloc, &mut flow, row) {
            return false;
        }
    }
    true
}

// 3 x 3 tiles, of which the lower ones are handles, by rows: 0, 1 2, 3 4 5
#[test]
fn cholesky(rt: HostRuntime) {
    let rows: [Row; 10] = [
        (0, &[(0, U)], Ok(&[])),
        (1, &[(0, R), (1, U)], Ok(&[0])),
        (2, &[(0, R), (3, U)], Ok(&[0])),
        (3, &[(1, R), (2, U)], Ok(&[1])),
        (4, &[(3, R), (1, R), (4, U)], Ok(&[1, 2])),
        (5, &[(3, R), (5, U)], Ok(&[2])),
        (6, &[(2, U)], Ok(&[3])),
        (7, &[(2, R), (4, U)], Ok(&[4, 6])),
        (8, &[(4, R), (5, U)], Ok(&[5, 7])),
        (9, &[(5, U)], Ok(&[8])),
    ];
    assert!(rt; are_right(rt.alloc(), 6, &rows[..]));
}

#[test]
fn readers_between_writers(rt: HostRuntime) {
    let rows: [Row; 14] = [
        (3, &[(0, R)], Ok(&[])),
        (5, &[(0, W)], Ok(&[3])),
        (5, &[], Err(Refusal::TaskKnown)),
        (5, &[(2, R)], Err(Refusal::TaskKnown)),
        (6, &[(0, R), (2, R)], Err(Refusal::BadSpec)),
        (6, &[(0, R), (1, R)], Ok(&[5])),
        (7, &[(1, R), (0, R)], Ok(&[5])),
        (8, &[(1, W), (0, W)], Ok(&[6, 7])),
        (9, &[(0, R), (1, R), (0, R)], Ok(&[8])),
        // as `depend(in: x) depend(out: x)`
        (10, &[(0, R), (0, W)], Ok(&[8, 9])),
        (11, &[(0, W), (0, R)], Ok(&[10])),
        (12, &[(0, R)], Ok(&[11])),
        (13, &[(0, U), (1, U)], Ok(&[9, 12])),
        (4_294_967_295, &[], Ok(&[])),
    ];
    assert!(rt; are_right(rt.alloc(), 2, &rows[..]));
}

// a call that finds no memory can be made again
fn goes_on(flow: &mut Flow, task: u32, mode: Mode, inputs: &mut Vec<u32>) -> bool {
    let accesses = [Access {
        handle: Handle(0),
        mode,
    }];
    let found = match flow.find(task, &accesses[..], inputs) {
        Err(Refusal::NoMemory) => flow.find(task, &accesses[..], inputs),
        result => result,
    };
    if found == Ok(()) {
        flow.record(task, &accesses[..]);
    }
    found == Ok(())
}

// whichever allocation fails
#[test]
fn out_of_memory(rt: HostRuntime) {
    let mut flow = Flow::new(rt.alloc());
    let mut inputs = Vec::new(rt.alloc());
    let handle = match flow.handle() {
        Err(Refusal::NoMemory) => flow.handle(),
        result => result,
    };
    assert!(rt; handle == Ok(Handle(0)));
    assert!(rt; goes_on(&mut flow, 0, R, &mut inputs) && goes_on(&mut flow, 1, W, &mut inputs));
    assert!(rt; inputs.as_slice() == [0].as_slice());
}

/// The offsets and inputs of a graph, and what `link` writes to `missing`, `newest`, `older` and `readers`, or its refusal.
type Linked = (
    &'static [u32],
    &'static [u32],
    Result<[[u32; 4]; 4], (Refusal, u32)>,
);

const N: u32 = NO_INPUT;

fn is_linked(row: &Linked) -> bool {
    let (mut a, mut b, mut c, mut d) = ([7; 4], [7; 4], [7; 4], [7; 4]);
    match (
        link(row.0, row.1, &mut a[..], &mut b[..], &mut c[..], &mut d[..]),
        row.2,
    ) {
        (Ok(()), Ok(expected)) => [a, b, c, d] == expected,
        (Err(refusal), Err(expected)) => refusal == expected && [a, b, c, d] == [[7; 4]; 4],
        _ => false,
    }
}

#[test]
fn linked_graphs(rt: HostRuntime) {
    let diamond = [[0, 1, 1, 2], [1, 2, 3, N], [N, 0, N, N], [1, 2, 3, 3]];
    let last_reads_all = [[0, 0, 0, 4], [3, 0, 2, N], [N, N, N, 1], [3, 3, 3, 3]];
    let inputs_named_twice = [[0, 2, 0, 2], [3, N, 2, N], [N, 0, N, 1], [1, 1, 3, 3]];
    let rows: [Linked; 9] = [
        (&[0, 0, 1, 2, 4], &[0, 0, 1, 2], Ok(diamond)),
        (&[0, 0, 0, 0, 4], &[1, 0, 2, 0], Ok(last_reads_all)),
        (&[0, 0, 2, 2, 4], &[0, 0, 2, 0], Ok(inputs_named_twice)),
        (&[], &[], Err((Refusal::BadSpec, 0))),
        (&[1, 1, 2, 3, 4], &[9, 9, 9, 9], Err((Refusal::BadSpec, 0))),
        (&[0, 0, 1, 4], &[0, 9, 0, 0], Err((Refusal::BadSpec, 0))),
        (&[0, 0, 3, 2, 4], &[0, 9, 0, 0], Err((Refusal::NoTask, 1))),
        (&[0, 0, 3, 2, 4], &[0, 0, 0, 9], Err((Refusal::BadSpec, 2))),
        (&[0, 0, 5, 5, 4], &[9, 0, 0, 0], Err((Refusal::BadSpec, 1))),
    ];
    for row in rows {
        assert!(rt; is_linked(&row));
    }
}
