//! A profile: the file that is asked for, and the log of when the bodies of a run's tasks began and ended. No contract
//! speaks of these times. A run without a log is not slower: only a graph that is wrapped in [`Timed`] reads the clock.
mod events;
mod log;
mod timed;
mod tracks;

pub use events::Run;
use events::events_of;
pub use log::Log;
use std::alloc::Global;
use std::fs::{self, OpenOptions};
use std::io::{self, ErrorKind};
use std::rt::{Clock, Files};
use std::sync::Wait;
pub use timed::Timed;

/// The profile of a run, if one is asked for.
#[derive(Drop)]
pub struct Profile<'a> {
    path: Option<&'a str>,
    log: Option<Log>,
}

impl<'a> Profile<'a> {
    /// Opens the file of this path, so that one that cannot be written is known before the run. Its content stays.
    pub fn open<R: Files>(rt: &R, path: &str) -> io::Result<()> {
        let mut options = OpenOptions::new();
        options.write(true).create(true);
        options.open(rt, path)?;
        Ok(())
    }

    /// Returns the profile of a run of this many bodies that begins now, to be written to a file of this path. Nothing
    /// is logged if there is no path, or if the allocation of the log fails.
    pub fn new<C: Clock>(alloc: Global, clock: &C, path: Option<&'a str>, bodies: u64) -> Self {
        let log = match path {
            Some(_) => Log::new(alloc, clock, bodies).ok(),
            None => None,
        };
        Profile { path, log }
    }

    /// Returns the log, if there is one.
    pub fn log(&self) -> Option<&Log> {
        self.log.as_ref()
    }

    /// Writes the file, if one is asked for, after the run has ended. Refused if the file cannot be created or written,
    /// and if an allocation failed; after a failed write the file may have a part of the text.
    pub fn write<R: Clock + Files + Wait>(
        &self,
        rt: &R,
        alloc: Global,
        run: Run,
    ) -> io::Result<()> {
        let Some(path) = self.path else {
            return Ok(());
        };
        let Some(log) = self.log() else {
            return Err(ErrorKind::OutOfMemory.into());
        };
        let text = events_of(alloc, rt, log, run)?;
        fs::write(rt, path, text.as_bytes())
    }
}
