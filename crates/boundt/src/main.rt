//! `boundt`: upper bounds on the cycles of subprograms in SPARC V7 executables.
#![tactic(auto)]

use bt_base::{FileShelf, OutSink};
use bt_command::{Status, exit_of, run, run_alone, wanted};
use std::env;
use std::io::{self, ErrorKind};
use std::process::ExitCode;
use std::rt::Runtime;
use std::sync::Wait;
use std::thread::Threads;
use worker_pool::NoGate;

/// The words after the program's name. Words that aren't UTF-8 are a faulty command line.
fn words<R: Runtime + AllocGlobal>(rt: &R) -> Result<Vec<String>, Status> {
    let mut words = Vec::new(rt.alloc());
    let args = match env::args(rt) {
        Ok(args) => args,
        Err(error) if error.kind() == ErrorKind::InvalidData => return Err(Status::Usage),
        Err(_) => return Err(Status::Want),
    };
    for word in args.skip(1) {
        if words.push(word).is_err() {
            return Err(Status::Want);
        }
    }
    Ok(words)
}

/// Runs the command of the words on the files of the system and the standard output, by as many workers as they want.
fn answer<R: Runtime + AllocGlobal + Threads + Wait + Sync>(rt: &R) -> io::Result<Status> {
    let words = match words(rt) {
        Ok(words) => words,
        Err(status) => return Ok(status),
    };
    let workers = match wanted(rt.alloc(), &words) {
        Ok(workers) => workers,
        Err(status) => return Ok(status),
    };
    let mut shelf = FileShelf::new(rt.clone()?);
    let mut out = OutSink::new(rt.clone()?);
    if workers == 1 {
        return Ok(run_alone(rt.alloc(), &words, &mut shelf, &mut out));
    }
    Ok(run(rt, rt.alloc(), &words, &mut shelf, &mut out, &NoGate))
}

/// Shows the message of a status on standard error.
fn show<R: Runtime + AllocGlobal>(rt: &R, status: &Status) -> io::Result<()> {
    match status.message(rt.alloc()) {
        Ok(message) => eprintln!(rt; "{message}"),
        Err(_) => eprintln!(rt; "boundt: 8 Want"),
    }
}

/// Whatever fails here, the exit status is that of the call's answer: a shelf or a sink that can't be made is want of
/// memory, and a message that can't be shown changes nothing.
fn main(rt: HostRuntime) -> io::Result<ExitCode> {
    let status = match answer(&rt) {
        Ok(status) => status,
        Err(_) => Status::Want,
    };
    if status.code() >= 2 {
        let _shown = show(&rt, &status);
    }
    Ok(exit_of(&status))
}
