//! davsvn: Subversion's HTTP server as a proved program. As yet it answers reading requests, of one
//! connection or of many side by side, and questions on the rights that a rules file gives.
#![tactic(auto)]

#[cfg(test)]
mod adapter_tests;
mod disk_files;
mod listening;
#[cfg(test)]
mod network_tests;
mod reading;
mod script_keeper;
mod serving;
mod system_clock;
mod writing;

use crate::disk_files::DiskFiles;
use crate::reading::Reading;
use crate::script_keeper::ScriptKeeper;
use crate::serving::{listen, listen_fault};
use crate::system_clock::SystemClock;
use crate::writing::Writing;
use davsvn_run::{Status, World, listen_address, run, run_serve, script_of};
use dsv_base::{Bytes, NoMemory};
use std::process::ExitCode;
use std::{env, io};

fn main(rt: HostRuntime) -> ExitCode {
    let Ok(words) = command_words(&rt) else {
        return exit_code(Status::NO_MEMORY);
    };
    let words = words.as_slice();
    if listen_address(words).is_none() {
        return exit_code(run_outside(&rt, words).unwrap_or(Status::NO_MEMORY));
    }
    let mut errors = Writing::new(rt.stderr());
    let stations = match listen(&rt, words, &mut errors) {
        Ok(stations) => stations,
        Err(status) => return exit_code(status),
    };
    let Ok((mut files, keeper)) = files_and_keeper(&rt, words) else {
        return exit_code(Status::NO_MEMORY);
    };
    // only `main` has the handles by which a station waits and gets a thread
    let served = run_serve(
        rt.alloc(),
        &rt,
        words,
        stations.doors,
        stations.clocks,
        &mut files,
        keeper,
        &mut errors,
    );
    if served.doors.iter().any(|door| door.has_failed()) {
        return exit_code(listen_fault(&rt, words, &mut errors));
    }
    exit_code(served.status)
}

fn exit_code(status: Status) -> ExitCode {
    ExitCode::from(status.0)
}

/// Runs the words of the command line over the process's streams, clock and files.
///
/// # Errors
/// Want of memory for these objects.
fn run_outside(rt: &HostRuntime, words: &[Bytes]) -> Result<Status, NoMemory> {
    let (files, keeper) = files_and_keeper(rt, words)?;
    let world = World {
        source: Reading::new(rt.stdin()),
        sink: Writing::new(rt.stdout()),
        errors: Writing::new(rt.stderr()),
        clock: SystemClock::new(rt.clone()?),
        files,
        keeper,
    };
    let (status, _) = run(rt.alloc(), words, world);
    Ok(status)
}

/// The system's files, and the script of the words as the keeper of new revisions.
fn files_and_keeper(
    rt: &HostRuntime,
    words: &[Bytes],
) -> Result<(DiskFiles<HostRuntime>, ScriptKeeper<HostRuntime>), NoMemory> {
    let script = Bytes::of(rt.alloc(), script_of(words).unwrap_or(b""))?;
    let keeper = ScriptKeeper::new(rt.clone()?, script);
    Ok((DiskFiles::new(rt.clone()?), keeper))
}

/// The words of the command line without the program's name. A word that isn't UTF-8 is in no command,
/// and neither are no words, which stand for it.
fn command_words(rt: &HostRuntime) -> Result<Vec<Bytes>, NoMemory> {
    let mut words = Vec::new(rt.alloc());
    let mut args = match env::args(rt) {
        Ok(args) => args,
        Err(error) if error.kind() == io::ErrorKind::InvalidData => return Ok(words),
        Err(_) => return Err(NoMemory),
    };
    let _ = args.next();
    for word in args {
        words.push(Bytes::from_vec(word.into_bytes()))?;
    }
    Ok(words)
}
