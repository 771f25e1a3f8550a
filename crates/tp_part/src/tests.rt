//! Refusals, and small graphs on two parts, with messages in another order, some of them twice.

use crate::part::{Next, Part};
use tp_base::Refusal;

const DONE: Result<(), Refusal> = Ok(());

const WRONG: Result<(), Refusal> = Err(Refusal::WrongLife);

const NONE: Result<(), Refusal> = Err(Refusal::NoTask);

/// A call and its result.
#[derive(Clone, Copy)]
enum Row {
    Task(u32, u32, &'static [u32], Result<u32, Refusal>),
    Start(Result<(), Refusal>),
    Next(Result<Next, Refusal>),
    Done(u32, Result<(), Refusal>),
    Arrived(u32, Result<(), Refusal>),
}

fn is_right(part: &mut Part, row: &Row) -> bool {
    match *row {
        Row::Task(owner, class, inputs, result) => part.task(owner, class, inputs) == result,
        Row::Start(result) => part.start() == result,
        Row::Next(result) => part.next() == result,
        Row::Done(task, result) => part.done(task) == result,
        Row::Arrived(task, result) => part.arrived(task) == result,
    }
}

fn are_right(part: &mut Part, rows: &[Row]) -> bool {
    for row in rows {
        if !is_right(part, row) {
            return false;
        }
    }
    true
}

// Task 0 is of part 1, tasks 1, 3 and 4 are of part 0, task 2 is of part 1: 1 reads 0, 2 reads 1, 3 reads 0 twice and 1, 4 reads 2.
#[test]
fn a_part_of_two(rt: HostRuntime) {
    let mut part = Part::new(rt.alloc(), 0, 2);
    let rows = [
        Row::Next(Err(Refusal::WrongLife)),
        Row::Task(2, 0, &[], Err(Refusal::NoNode)),
        Row::Task(1, 4, &[], Err(Refusal::BadSpec)),
        Row::Task(1, 0, &[0], Err(Refusal::NoTask)),
        Row::Task(1, 0, &[], Ok(0)),
        Row::Task(0, 1, &[0], Ok(1)),
        Row::Task(1, 0, &[1], Ok(2)),
        Row::Task(0, 0, &[0, 0, 1], Ok(3)),
        Row::Task(0, 0, &[2], Ok(4)),
        Row::Task(1, 0, &[1, 3], Ok(5)),
        Row::Arrived(0, WRONG),
        Row::Start(DONE),
        Row::Start(WRONG),
        Row::Task(0, 0, &[], Err(Refusal::WrongLife)),
        Row::Next(Ok(Next::Wait)),
        Row::Arrived(1, NONE),
        Row::Arrived(5, NONE),
        Row::Arrived(0, DONE),
        Row::Arrived(0, WRONG),
        Row::Done(1, WRONG),
        Row::Done(0, NONE),
        Row::Next(Ok(Next::Run(1))),
        Row::Next(Ok(Next::Wait)),
        Row::Done(1, DONE),
        Row::Next(Ok(Next::Send(1, 1))),
        Row::Next(Ok(Next::Run(3))),
        Row::Next(Ok(Next::Wait)),
        Row::Arrived(2, DONE),
        Row::Next(Ok(Next::Run(4))),
        Row::Done(3, DONE),
        Row::Done(4, DONE),
        Row::Next(Ok(Next::Send(3, 1))),
        Row::Next(Ok(Next::Over)),
    ];
    assert!(rt; are_right(&mut part, &rows));
}

// Task 0 is of part 0, tasks 1 and 2 are of part 1 and read 0, task 3 is of part 0 and reads 1 once and 2 twice. Part 1 asks for
// 1 before 2, and 2 arrives first; a message that comes again changes nothing.
#[test]
fn two_parts_to_the_end(rt: HostRuntime) {
    let mut first = Part::new(rt.alloc(), 0, 2);
    let mut second = Part::new(rt.alloc(), 1, 2);
    let graph = [
        Row::Task(0, 0, &[], Ok(0)),
        Row::Task(1, 1, &[0], Ok(1)),
        Row::Task(1, 0, &[0], Ok(2)),
        Row::Task(0, 0, &[1, 2, 2], Ok(3)),
        Row::Start(DONE),
    ];
    let begins = [
        Row::Next(Ok(Next::Run(0))),
        Row::Next(Ok(Next::Wait)),
        Row::Done(0, DONE),
        Row::Next(Ok(Next::Send(0, 1))),
        Row::Next(Ok(Next::Wait)),
    ];
    let reads = [
        Row::Next(Ok(Next::Wait)),
        Row::Arrived(0, DONE),
        Row::Arrived(0, WRONG),
        Row::Next(Ok(Next::Run(2))),
        Row::Next(Ok(Next::Run(1))),
        Row::Next(Ok(Next::Wait)),
        Row::Done(1, DONE),
        Row::Done(2, DONE),
        Row::Next(Ok(Next::Send(1, 0))),
        Row::Next(Ok(Next::Send(2, 0))),
        Row::Next(Ok(Next::Over)),
    ];
    let ends = [
        Row::Arrived(2, DONE),
        Row::Next(Ok(Next::Wait)),
        Row::Arrived(1, DONE),
        Row::Arrived(2, WRONG),
        Row::Next(Ok(Next::Run(3))),
        Row::Done(3, DONE),
        Row::Next(Ok(Next::Over)),
    ];
    assert!(rt; are_right(&mut first, &graph) && are_right(&mut second, &graph));
    assert!(rt; are_right(&mut first, &begins));
    assert!(rt; are_right(&mut second, &reads));
    assert!(rt; are_right(&mut first, &ends));
}
