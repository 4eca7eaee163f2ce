// Runs over ports in memory, and the parts of scripts that several tests share.
use crate::{Status, run};
use pv_ports::{ListSink, ListSource};
use pv_words::{Access, DevId, Entry, Journal, Place};
use scenario_text::{FaultKind, ScriptFault};
use std::alloc::{AllocError, Global};
use std::process::Abort;

// A domain with two frames, and a display of one connector. Its ring page is frame 0: the device is to notify the frontend
// of reply 1.
pub const DECLARED: &str = "domain 1 wild 2 2\ndisplay 1 1 1\nput 1 0 1 1\nput 1 0 3 1\n";

pub const OPENED: &str = "open 1 0 0 rw 2\n";

pub const NODES: &str =
    "node 1 0 req-ring-ref 0\nnode 1 0 req-event-channel 1\nnode 1 0 evt-ring-ref 1\nnode 1 0 evt-event-channel 2\n";

pub const CONNECTS: &str = "bus 1 3\nserve 1\n";

pub const CONNECTED: &str = "bus 1 front 3\nbus 1 back 4\n";

// One SET_CONFIG of zeros.
pub const ASKS: &str = "put 1 0 16 0x00040001\nput 1 0 0 1\n";

// The first request is a CREATE of a buffer of 32 by 32 pixels of 32 bits: its page is frame 3, by the directory in frame 2.
pub const BUFFER: &str =
    "put 1 0 16 1\nput 1 0 18 1\nput 1 0 20 32\nput 1 0 21 32\nput 1 0 22 32\nput 1 0 23 4096\nput 1 0 25 2\n";

// What came of a run over ports in memory.
#[derive(Drop)]
pub struct Outcome {
    pub status: Status,
    pub sink: ListSink,
    pub journal: Journal,
}

// A run: its words, the calls of its source and its sink that fail, by number, and the octets that the sink has room for.
#[derive(Clone, Copy)]
pub struct Trial<'a> {
    pub words: &'a str,
    pub reads: &'a [u64],
    pub writes: &'a [u64],
    pub room: usize,
}

// The word `run`, with ports that don't fail.
pub const PLAIN: Trial = Trial {
    words: "run",
    reads: &[],
    writes: &[],
    room: 10000,
};

fn numbers(alloc: Global, list: &[u64]) -> Result<Vec<u64>, AllocError> {
    let mut numbers = Vec::new(alloc);
    numbers.extend_from_slice(list)?;
    Ok(numbers)
}

// Runs this over a script.
pub fn run_trial(alloc: Global, trial: Trial, script: &[u8]) -> Result<Outcome, AllocError> {
    let mut octets = Vec::new(alloc);
    octets.extend_from_slice(script)?;
    let mut source = ListSource::new(octets, numbers(alloc, trial.reads)?);
    let mut sink = ListSink::new(alloc, numbers(alloc, trial.writes)?);
    sink.reserve(trial.room)?;
    let mut words = Vec::new(alloc);
    for word in trial.words.split_whitespace() {
        words.push(String::from_str(alloc, word)?)?;
    }
    let mut journal = Journal::new(alloc);
    let status = run(alloc, &words, &mut source, &mut sink, &mut journal);
    Ok(Outcome {
        status,
        sink,
        journal,
    })
}

pub fn run_script(alloc: Global, script: &str) -> Result<Outcome, AllocError> {
    run_trial(alloc, PLAIN, script.as_bytes())
}

// These parts of a script, one after another.
pub fn joined(alloc: Global, parts: &[&str]) -> Result<String, AllocError> {
    let mut script = String::new(alloc);
    for part in parts {
        script.push_str(part)?;
    }
    Ok(script)
}

pub fn run_parts(alloc: Global, parts: &[&str]) -> Result<Outcome, AllocError> {
    let script = joined(alloc, parts)?;
    run_script(alloc, script.as_str())
}

// Runs a script that goes on where the device is connected.
pub fn run_connected(alloc: Global, more: &str) -> Result<Outcome, AllocError> {
    run_parts(alloc, &[DECLARED, OPENED, NODES, CONNECTS, more])
}

// Runs a script whose display has a domain of four frames, with these statements before it connects; then its frontend stores
// the request `BUFFER`, and the script goes on.
pub fn run_buffer(alloc: Global, before: &str, more: &str) -> Result<Outcome, AllocError> {
    run_parts(
        alloc,
        &[
            "domain 1 wild 4 4\ndisplay 1 1 1\nput 1 0 1 1\nput 1 0 3 1\nopen 1 0 0 rw 4\nput 1 2 1 3\n",
            before,
            NODES,
            CONNECTS,
            BUFFER,
            more,
        ],
    )
}

// One request, of which no word is wrong.
pub fn one_request_script(alloc: Global) -> Result<String, AllocError> {
    joined(
        alloc,
        &[DECLARED, OPENED, NODES, CONNECTS, ASKS, "serve 1\n"],
    )
}

// How many accesses a device made.
pub fn accesses(journal: &Journal, dev: DevId) -> usize {
    let mut made = 0usize;
    for entry in journal.entries() {
        if let Entry::Back(by, _) = entry
            && by == dev
        {
            made = made.saturating_add(1);
        }
    }
    made
}

// What a device stored last at this place.
pub fn stored(journal: &Journal, at: Place) -> Option<u32> {
    let mut found = None;
    for entry in journal.entries() {
        if let Entry::Back(_, Access::Store(place, v)) = entry
            && place == at
        {
            found = Some(v);
        }
    }
    found
}

// The run ended by this status, and the sink got this.
pub fn expect(rt: &impl Abort, outcome: &Outcome, status: Status, wanted: &[u8]) {
    assert_eq!(rt; outcome.status, status);
    assert_eq!(rt; outcome.sink.as_slice(), wanted);
}

// The script was played to its end, and the sink got this.
pub fn expect_played(rt: &impl Abort, outcome: &Outcome, wanted: &[u8]) {
    expect(rt, outcome, Status::Ok, wanted);
}

pub fn status_of(alloc: Global, script: &[u8]) -> Result<Status, AllocError> {
    Ok(run_trial(alloc, PLAIN, script)?.status)
}

pub fn fault_at(line: u32, column: u32, kind: FaultKind) -> Status {
    Status::Script(ScriptFault { line, column, kind })
}
