//! Shows the progress of a call on a terminal.
use crate::progress::Progress;
use crate::progress_line::line_of;
use crate::screen::Screen;
use std::alloc::Global;
use std::io::Write;
use std::sync::Wait;
use std::thread::{Threads, join};

/// Calls `work` and returns its result. Meanwhile a thread shows on a screen how far the work is, in a line that is
/// written at most twice a second and cleared before this call returns. The work sets its plan in `progress`, and
/// counts its tasks there. If no thread can be started, nothing is shown.
pub fn watched<R: Threads + Wait + Sync, W: Write + Send + Drop, T, F: FnOnce() -> T>(
    rt: &R,
    alloc: Global,
    screen: Screen<W>,
    progress: &Progress,
    work: F,
) -> T
    requires { F.pre work }
    ensures { F.post work result }
{
    // The first closure gets the new thread. If no thread can be started, it is called last, and finds that the work
    // has ended.
    let (_, made) = join(
        rt,
        move || tell(rt, alloc, screen, progress),
        move || -> T
            requires { F.pre work }
            ensures { F.post work result }
        { worked(rt, progress, work) },
    );
    made
}

/// Calls the work, and records that it has ended.
fn worked<R: Wait, T, F: FnOnce() -> T>(rt: &R, progress: &Progress, work: F) -> T
    requires { F.pre work }
    ensures { F.post work result }
{
    let made = work();
    progress.end(rt);
    made
}

/// Shows on a screen how far a run is until it has ended, and then clears the line.
fn tell<R: Wait, W: Write + Drop>(
    rt: &R,
    alloc: Global,
    mut screen: Screen<W>,
    progress: &Progress,
) {
    let mut is_told = false;
    for _ in rt.forever() {
        if progress.rest(rt) {
            break;
        }
        if tell_once(rt, alloc, &mut screen, progress) {
            is_told = true;
        }
    }
    if is_told {
        screen.write("\r\x1b[K");
    }
}

/// Shows once how far a run is, if there is a plan and the allocation of the line succeeds. Returns whether it was
/// shown.
fn tell_once<R: Wait, W: Write>(
    rt: &R,
    alloc: Global,
    screen: &mut Screen<W>,
    progress: &Progress,
) -> bool {
    let plan = progress.plan(rt);
    if plan.steps == 0 {
        return false;
    }
    match line_of(alloc, plan, progress.done(rt)) {
        Ok(line) => {
            screen.write(&line);
            true
        }
        Err(_) => false,
    }
}
