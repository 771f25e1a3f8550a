//! Runs the processes of a distributed program as threads that communicate over channels: in each epoch a random tree
//! of tasks, with the detector of `tp_process`. The output does not depend on the schedule.
#![tactic(auto)]

mod member;
mod tree;

use crate::member::{Content, Fault, Mailbox, Member, Totals};
use std::alloc::{AllocError, Global};
use std::env::Env;
use std::fmt::Write;
use std::process::ExitCode;
use std::sync::{Mutex, Wait};
use std::thread::{self, JoinHandle, SpawnError, Threads};
use std::time::Clock;
use tp_shell::{Ending, Status, begin, end};

fn main(rt: HostRuntime) -> ExitCode {
    let text = totals_text(&rt);
    ExitCode::from(end(&rt, "detector", &text, rt.stdout(), rt.stderr()))
}

/// Returns a line for each number of processes: the totals of what they did.
fn totals_text<R: Threads + Wait + Clock + Sync + Env + AllocGlobal>(
    rt: &R,
) -> Result<String, Ending> {
    let about = "Runs trees of tasks by 1 to 16 processes, and prints what each comes to";
    begin(rt, "detector", about, false)?;
    let mut text = String::new(rt.alloc());
    for processes in [1, 2, 3, 8, 16] {
        match run_processes(rt, rt.alloc(), processes) {
            Ok((totals, left)) => {
                let (tasks, checksum) = (totals.tasks, totals.checksum);
                let (sent, received) = (totals.sent, totals.received);
                write!(
                    text,
                    "processes {processes} tasks {tasks} checksum {checksum:016x}"
                )?;
                writeln!(text, " sent {sent} received {received} left {left}")?;
            }
            Err(fault) => {
                let line = format!(in rt.alloc(); "processes {processes}: {fault:?}\n")?;
                return Err(Ending::ErrorLine(Status::Failed, line));
            }
        }
    }
    Ok(text)
}

/// Runs this number of processes, each in a thread of its own. Returns the totals of what they did, and the number of
/// tasks that are left in the mailboxes.
fn run_processes<R: Threads + Wait + Clock + Sync>(
    rt: &R,
    alloc: Global,
    processes: u32,
) -> Result<(Totals, u64), Fault> {
    let mut mailboxes = Vec::new(alloc);
    for _ in 0..processes {
        let (sender, receiver) = crossbeam_channel::unbounded(alloc)?;
        mailboxes.push(Mailbox { sender, receiver })?;
    }
    let totals = run_threads(rt, alloc, processes, &mailboxes)?;
    let mut left = 0u64;
    for mailbox in &mailboxes {
        for message in mailbox.receiver.try_iter(rt) {
            if let Content::Task(_) = message.content {
                left = left.saturating_add(1);
            }
        }
    }
    Ok((totals, left))
}

/// Starts a thread for each process, and returns the sum of their totals.
fn run_threads<R: Threads + Wait + Clock + Sync>(
    rt: &R,
    alloc: Global,
    processes: u32,
    mailboxes: &[Mailbox],
) -> Result<Totals, Fault> {
    let has_failed = Mutex::new(false);
    let failed = &has_failed;
    let mut members = Vec::new(alloc);
    for number in 0..processes {
        members.push(Member::new(rt, alloc, number, processes, mailboxes, failed)?)?;
    }
    let totals = thread::scope(thread::scope_env(), rt, |scope| {
        let mut handles = Vec::new(alloc);
        for member in members {
            if keep(&mut handles, scope.spawn(move || member.run())).is_err() {
                *failed.lock(rt) = true;
                break;
            }
        }
        totals_of(rt, handles)
    })?;
    if has_failed.into_inner() {
        return Err(Fault::NoMemory);
    }
    Ok(totals)
}

/// Stores the handle of a thread, if the thread could be started and there is memory.
fn keep<T: Drop, F: Drop>(
    handles: &mut Vec<JoinHandle<T>>,
    started: Result<JoinHandle<T>, SpawnError<F>>,
) -> Result<(), AllocError> {
    handles.push(started?)?;
    Ok(())
}

/// Joins each thread, and returns the sum of their totals. If some gave up, returns the fault of one that no other one
/// stopped.
fn totals_of<R: Threads>(
    rt: &R,
    handles: Vec<JoinHandle<Result<Totals, Fault>>>,
) -> Result<Totals, Fault> {
    let mut totals = Totals::default();
    let mut fault = None;
    for handle in handles {
        match handle.join(rt) {
            Ok(own) => totals = totals.plus(own),
            Err(Fault::Stopped) => fault = fault.or(Some(Fault::Stopped)),
            Err(own) => fault = Some(own),
        }
    }
    match fault {
        Some(fault) => Err(fault),
        None => Ok(totals),
    }
}
