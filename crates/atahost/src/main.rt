//! The program: `atahost replay` reads a script from standard input, settles its ports, and writes their
//! journals to standard output; `atahost run` does so with each actor on a thread of its own; `atahost gen N` reads
//! nothing, replays a script of the number N, and writes what its journals come to. `--rounds R` behind it names the
//! most rounds of settling. Its exit status tells how that ended; where it isn't 0, a line on standard error tells it
//! too.
#![tactic(auto)]

mod command;
mod generated;
mod laws;
mod replay;
mod running;
mod status;
mod top;
mod versions;

use crate::status::Status;
use crate::top::atahost;
use ata_io::{StdSink, StdSource};
use port_threads::NoGate;
use std::alloc::Global;
use std::io::{Read, Write};
use std::process::ExitCode;
use std::sync::Wait;
use std::thread::Threads;
use std::{env, io};

fn main(rt: HostRuntime) -> ExitCode {
    let status = match words(&rt) {
        Ok(words) => run(&rt, rt.alloc(), rt.stdin(), rt.stdout(), &words),
        Err(error) if error.kind() == io::ErrorKind::OutOfMemory => Status::OutOfMemory,
        Err(_) => Status::Usage,
    };
    if status != Status::Done {
        let _ = eprintln!(rt; "atahost: {status}");
    }
    ExitCode::from(status.number())
}

// The words after the program's name.
fn words(rt: &HostRuntime) -> io::Result<Vec<String>> {
    let mut words = Vec::new(rt.alloc());
    for word in env::args(rt)?.skip(1) {
        words.push(word)?;
    }
    Ok(words)
}

// Runs over these streams, and hands on what waits to be written.
fn run<R: Threads + Wait + Sync, I: Read + Drop, O: Write + Drop>(
    rt: &R,
    alloc: Global,
    input: I,
    output: O,
    words: &[String],
) -> Status {
    let Ok(mut source) = StdSource::new(alloc, input) else {
        return Status::OutOfMemory;
    };
    let Ok(mut sink) = StdSink::new(alloc, output) else {
        return Status::OutOfMemory;
    };
    let status = atahost(rt, alloc, words, &mut source, &mut sink, &NoGate);
    match sink.flush() {
        Ok(()) => status,
        Err(_) => Status::WriteFault,
    }
}

#[cfg(test)]
mod host_tests;
#[cfg(test)]
mod tests;
