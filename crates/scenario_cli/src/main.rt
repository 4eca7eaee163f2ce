//! Plays a scenario that is read from the standard input, and writes its report to the standard output.
#![tactic(auto)]

mod command;
mod status;
mod top;

pub use command::Command;
use pv_ports::{StdSink, StdSource};
use pv_words::Journal;
pub use status::Status;
use std::alloc::Global;
use std::env;
use std::io::{self, BufWriter, Write};
use std::process::ExitCode;
pub use top::run;

#[cfg(test)]
mod tests;

// The program's words, without its name.
fn words_of(rt: &HostRuntime, alloc: Global) -> Result<Vec<String>, Status> {
    let arguments = match env::args(rt) {
        Ok(arguments) => arguments,
        Err(error) if error.kind() == io::ErrorKind::OutOfMemory => return Err(Status::OutOfMemory),
        Err(_) => return Err(Status::Usage),
    };
    let mut words = Vec::new(alloc);
    for word in arguments.skip(1) {
        if words.push(word).is_err() {
            return Err(Status::OutOfMemory);
        }
    }
    Ok(words)
}

// Runs the command that the words ask for, over the standard input and output.
fn run_command(rt: &HostRuntime, alloc: Global) -> Status {
    let words = match words_of(rt, alloc) {
        Ok(words) => words,
        Err(status) => return status,
    };
    let Ok(mut writer) = BufWriter::new(alloc, io::writer(rt)) else {
        return Status::OutOfMemory;
    };
    let mut source = StdSource::new(rt.reader());
    let mut journal = Journal::new(alloc);
    let status = run(
        alloc,
        &words,
        &mut source,
        &mut StdSink::new(&mut writer),
        &mut journal,
    );
    status.flushed(writer.flush().is_ok())
}

fn main(rt: HostRuntime) -> ExitCode {
    let status = run_command(&rt, rt.alloc());
    if status != Status::Ok {
        // Where the standard error fails as well, the number still tells the status.
        let _ = rt.eprintln(&status);
    }
    ExitCode::from(status.number())
}
