// What no clause says: texts, and calls that succeed.
ghost use Rattle.std.specs.Prelude.{None};

use super::*;
use pv_ports::{Failed, ListSink, ListSource, Source};
use pv_words::{DevId, Entry, Journal, Said};
use std::alloc::{AllocError, Global};
use std::test::Fail;

// A source of `#` octets without an end.
#[derive(Drop)]
struct Hashes;

impl Source for Hashes {
    ghost rest = { λ _. None };

    ghost faults = { λ _. 0 };

    fn read(&mut self, into: &mut [u8]) -> Result<usize, Failed> {
        into.fill(b'#');
        Ok(into.len())
    }
}

#[test]
fn a_script_is_read_to_its_end(rt: HostRuntime) -> Result<(), Fail> {
    let alloc = rt.alloc();
    let octets = vec![in alloc; 119u8, 97, 107, 101, 32, 49, 10]?;
    let mut source = ListSource::new(octets, Vec::new(alloc));
    let script = read_script(alloc, &mut source)?;
    assert_eq!(rt; script.as_slice(), b"wake 1\n".as_slice());
    Ok(())
}

#[test]
fn a_fault_before_the_end_is_told(rt: HostRuntime) -> Result<(), Fail> {
    let alloc = rt.alloc();
    let octets = vec![in alloc; 119u8, 97, 107, 101, 32, 49, 10]?;
    let mut source = ListSource::new(octets, vec![in alloc; 1u64]?);
    assert_eq!(rt; read_script(alloc, &mut source), Err(ReadError::Failed));
    Ok(())
}

#[test]
fn a_script_without_an_end_is_too_long(rt: HostRuntime) {
    let result = read_script(rt.alloc(), &mut Hashes);
    assert_eq!(rt; result, Err(ReadError::TooLong));
}

#[test]
fn errors_have_texts(rt: HostRuntime) -> Result<(), Fail> {
    for (error, wanted) in [
        (ReadError::Failed, "the script can't be read"),
        (
            ReadError::TooLong,
            "the script has more than 4194304 octets",
        ),
        (ReadError::OutOfMemory, "out of memory"),
    ] {
        let text = error.to_string(rt.alloc())?;
        assert_eq!(rt; text.as_str(), wanted);
    }
    Ok(())
}

// A journal of a request and of its reply.
fn request_and_reply(alloc: Global) -> Result<Journal, AllocError> {
    let mut journal = Journal::new(alloc);
    journal.reserve(2)?;
    journal.push(Entry::Said(DevId(1), Said::Request(0, 1, 4)));
    journal.push(Entry::Said(DevId(1), Said::Replied(0, 1, 0, true)));
    Ok(journal)
}

#[test]
fn a_report_has_a_line_an_entry(rt: HostRuntime) -> Result<(), Fail> {
    let alloc = rt.alloc();
    let mut sink = ListSink::new(alloc, Vec::new(alloc));
    sink.reserve(100)?;
    let journal = request_and_reply(alloc)?;
    assert_eq!(rt; write_report(&mut sink, &journal, false), Ok(()));
    let wanted = b"request 1 0 1 4\nreply 1 0 1 0 notify\n";
    assert_eq!(rt; sink.as_slice(), wanted.as_slice());
    Ok(())
}

#[test]
fn a_report_ends_at_a_fault(rt: HostRuntime) -> Result<(), Fail> {
    let alloc = rt.alloc();
    let mut sink = ListSink::new(alloc, vec![in alloc; 1u64]?);
    sink.reserve(100)?;
    let journal = request_and_reply(alloc)?;
    assert_eq!(rt; write_report(&mut sink, &journal, false), Err(Failed));
    assert_eq!(rt; sink.as_slice(), b"request 1 0 1 4\n".as_slice());
    Ok(())
}
