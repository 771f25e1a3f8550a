//! Threads that take turns on small graphs: each test is a table of calls and their results.

use crate::refusal::{Fault, TeamRefusal};
use crate::team::Team;
use crate::turn::{Arrival, Reply, Spawned, Turn};
use tp_base::Refusal;

/// A call and its result.
#[derive(Clone, Copy)]
enum Row {
    Start(u32, Result<u32, TeamRefusal>),
    /// The thread's arrival, the task that it reports and its polls; what it is to do, and the signals.
    Turn(Arrival, Option<u32>, u32, Turn, u32),
    Stop(Option<u32>, u32),
    Again(Result<(), TeamRefusal>),
    Outside(u32, Result<u32, TeamRefusal>),
    Release(u32, Result<u32, TeamRefusal>),
    /// A task without inputs that waits for this number of inputs from outside.
    Spawn(u32, Result<Spawned, TeamRefusal>),
}

fn is_right(team: &mut Team, row: Row) -> bool {
    match row {
        Row::Start(threads, result) => team.start(threads) == result,
        Row::Turn(arrival, done, polls, turn, signals) => {
            team.turn(arrival, done, polls) == Reply { turn, signals }
        }
        Row::Stop(task, signals) => team.stop(task) == signals,
        Row::Again(result) => team.again() == result,
        Row::Outside(task, result) => team.outside(task) == result,
        Row::Release(task, result) => team.release(task) == result,
        Row::Spawn(outside, result) => team.spawn(0, &[], outside) == result,
    }
}

fn are_right(team: &mut Team, rows: &[Row]) -> bool {
    for row in rows {
        if !is_right(team, *row) {
            return false;
        }
    }
    true
}

fn refused(refusal: TeamRefusal, task: Option<u32>) -> Turn {
    Turn::Refused(Fault { refusal, task })
}

// one thread runs 0 -> 1, twice
#[test]
fn chain(rt: HostRuntime) {
    let mut team = Team::open(rt.alloc(), true, 1);
    assert!(rt; team.describe(&[], &[0, 0, 1], &[0]) == Ok(()));
    assert!(rt;
        team.describe(&[], &[0, 0], &[]) == Err((TeamRefusal::Pool(Refusal::WrongLife), 0))
    );
    let rows = [
        Row::Start(0, Err(TeamRefusal::NoThread)),
        Row::Start(1, Ok(0)),
        Row::Turn(Arrival::New, None, 0, Turn::Run(0), 0),
        Row::Start(1, Err(TeamRefusal::Running)),
        Row::Turn(Arrival::New, Some(0), 0, Turn::Run(1), 0),
        Row::Turn(Arrival::New, Some(1), 0, Turn::Over, 0),
        Row::Again(Ok(())),
    ];
    assert!(rt; are_right(&mut team, &rows[..]) && are_right(&mut team, &rows[1..]));
    assert!(rt; team.may_record() == Ok(()) && team.tasks() == 2);
}

// 1 and 2 read 0: the thread that reports 0 signals the one that sleeps, and the one that reports the last task signals the other
#[test]
fn two_threads(rt: HostRuntime) {
    let mut team = Team::open(rt.alloc(), false, 1);
    assert!(rt; team.describe(&[], &[0, 0, 1, 2], &[0, 0]) == Ok(()));
    let rows = [
        Row::Start(2, Ok(0)),
        Row::Turn(Arrival::New, None, 9, Turn::Run(0), 0),
        Row::Turn(Arrival::New, None, 9, Turn::Sleep, 0),
        Row::Turn(Arrival::New, Some(0), 9, Turn::Run(2), 1),
        Row::Turn(Arrival::Woken, None, 9, Turn::Run(1), 0),
        Row::Turn(Arrival::New, Some(2), 9, Turn::Sleep, 0),
        Row::Turn(Arrival::New, Some(1), 9, Turn::Over, 1),
        Row::Again(Err(TeamRefusal::Running)),
        Row::Turn(Arrival::Woken, None, 9, Turn::Over, 0),
        Row::Again(Ok(())),
    ];
    assert!(rt; are_right(&mut team, &rows[..]));
}

// a thread that spins needs no signal, one that wakes without a signal sleeps once more, and a stop signals all that sleep
#[test]
fn stopped(rt: HostRuntime) {
    let mut team = Team::open(rt.alloc(), false, 4);
    assert!(rt; team.describe(&[], &[0, 0, 1], &[0]) == Ok(()));
    let fault = refused(TeamRefusal::Stopped, Some(0));
    let rows = [
        Row::Start(4, Ok(0)),
        Row::Turn(Arrival::New, None, 0, Turn::Run(0), 0),
        Row::Turn(Arrival::New, None, 1, Turn::Spin, 0),
        Row::Turn(Arrival::Spun, None, 0, Turn::Sleep, 0),
        Row::Turn(Arrival::Woken, None, 0, Turn::Sleep, 0),
        Row::Turn(Arrival::New, None, 0, Turn::Sleep, 0),
        Row::Turn(Arrival::New, None, 1, Turn::Spin, 0),
        Row::Stop(Some(0), 2),
        Row::Stop(Some(1), 0),
        Row::Turn(Arrival::New, Some(0), 0, fault, 0),
        Row::Turn(Arrival::Woken, None, 0, fault, 0),
        Row::Turn(Arrival::Woken, None, 0, fault, 0),
        Row::Turn(Arrival::Spun, None, 1, fault, 0),
        Row::Again(Err(TeamRefusal::Stopped)),
    ];
    assert!(rt; are_right(&mut team, &rows[..]));
    assert!(rt; team.describe(&[], &[0, 0], &[]) == Err((TeamRefusal::Stopped, 0)));
}

// a task that does not run is reported as done: the team ends with that task
#[test]
fn wrong_report(rt: HostRuntime) {
    let mut team = Team::open(rt.alloc(), false, 1);
    assert!(rt; team.describe(&[], &[0, 0, 1], &[0]) == Ok(()));
    let fault = refused(TeamRefusal::Pool(Refusal::WrongLife), Some(1));
    let rows = [
        Row::Start(2, Ok(0)),
        Row::Turn(Arrival::New, None, 0, Turn::Run(0), 0),
        Row::Turn(Arrival::New, None, 0, Turn::Sleep, 0),
        Row::Turn(Arrival::New, Some(1), 0, fault, 1),
        Row::Turn(Arrival::Woken, None, 0, fault, 0),
        Row::Start(2, Err(TeamRefusal::Pool(Refusal::WrongLife))),
    ];
    assert!(rt; are_right(&mut team, &rows[..]));
}

// no other run is prepared while a thread sleeps
#[test]
fn asleep(rt: HostRuntime) {
    let mut team = Team::open(rt.alloc(), false, 1);
    assert!(rt; team.describe(&[], &[0, 0], &[]) == Ok(()));
    let rows = [
        Row::Outside(0, Ok(0)),
        Row::Start(1, Ok(0)),
        Row::Turn(Arrival::New, None, 0, Turn::Sleep, 0),
        Row::Again(Err(TeamRefusal::Running)),
        Row::Release(0, Ok(1)),
        Row::Turn(Arrival::Woken, None, 0, Turn::Run(0), 0),
        Row::Turn(Arrival::New, Some(0), 0, Turn::Over, 0),
        Row::Again(Ok(())),
    ];
    assert!(rt; are_right(&mut team, &rows[..]));
}

fn spawned(task: u32, signals: u32) -> Result<Spawned, TeamRefusal> {
    Ok(Spawned { task, signals })
}

// a task that is added in a run signals a thread that sleeps, and a graph that grew is not repeated
#[test]
fn grown(rt: HostRuntime) {
    let mut team = Team::open(rt.alloc(), false, 1);
    let rows = [
        Row::Spawn(1, spawned(0, 0)),
        Row::Start(1, Ok(0)),
        Row::Turn(Arrival::New, None, 0, Turn::Sleep, 0),
        Row::Spawn(0, spawned(1, 1)),
        Row::Turn(Arrival::Woken, None, 0, Turn::Run(1), 0),
        Row::Release(0, Ok(0)),
        Row::Turn(Arrival::New, Some(1), 0, Turn::Run(0), 0),
        Row::Turn(Arrival::New, Some(0), 0, Turn::Over, 0),
        Row::Spawn(0, Err(TeamRefusal::Pool(Refusal::Ended))),
        Row::Again(Err(TeamRefusal::Pool(Refusal::WrongLife))),
    ];
    assert!(rt; are_right(&mut team, &rows[..]));
}
