//! Worked rows of files and sinks: whole texts and pieces, and each call failing once.

use std::alloc::{AllocError, Global};
use std::io::{Error, ErrorKind, Write};
use symk_io::{
    Files, HostFiles, HostSink, IoFault, MemFile, MemFiles, MemSink, MemText, NoFaultFiles,
    NoFaultSink, ReadStop, Sink, put, read_all,
};

fn shelf(alloc: Global) -> Result<Vec<MemFile>, AllocError> {
    let mut files = Vec::new(alloc);
    for (name, text) in [("four", "abcd"), ("five", "abcde"), ("none", "")] {
        files.push(MemFile {
            name: String::from_str(alloc, name)?,
            text: MemText::Bytes(Vec::from_slice(alloc, text.as_bytes())?),
        })?;
    }
    files.push(MemFile {
        name: String::from_str(alloc, "blanks")?,
        text: MemText::Run {
            byte: 32,
            count: 5001,
        },
    })?;
    Ok(files)
}

fn failing_at(alloc: Global, call: u64) -> Result<Vec<u64>, AllocError> {
    Vec::from_slice(alloc, &[call])
}

#[test]
fn reads_within_the_limit(rt: HostRuntime) {
    let shelf = shelf(rt.alloc()).expect(&rt, "memory");
    let mut files = MemFiles::new(shelf, Vec::new(rt.alloc()));
    for (name, limit, want) in [
        ("four", 4, Ok("abcd")),
        ("five", 4, Err(ReadStop::TooLong)),
        ("none", 0, Ok("")),
        ("four", 0, Err(ReadStop::TooLong)),
        ("blanks", 5000, Err(ReadStop::TooLong)),
        ("five", u64::MAX, Ok("abcde")),
    ] {
        match (read_all(rt.alloc(), &mut files, name, limit), want) {
            (Ok(text), Ok(want)) => assert!(rt; text.as_slice() == want.as_bytes(), "{name}"),
            (Err(stop), Err(want)) => assert!(rt; stop == want, "{name}"),
            _ => assert!(rt; false, "{name} within {limit}"),
        }
        assert!(rt; files.faults() == 0);
    }
    let blanks = read_all(rt.alloc(), &mut files, "blanks", 5001).expect(&rt, "the blanks");
    assert!(rt; blanks.len() == 5001 && blanks.iter().all(|&b| b == 32));
    let missing = read_all(rt.alloc(), &mut files, "six", 4);
    assert!(rt; missing.is_err_and(|stop| stop == ReadStop::Unreadable));
    assert!(rt; files.faults() == 1);
}

#[test]
fn each_call_of_files_fails_once(rt: HostRuntime) {
    for call in [1u64, 2, 3] {
        let shelf = shelf(rt.alloc()).expect(&rt, "memory");
        let failing = failing_at(rt.alloc(), call).expect(&rt, "memory");
        let mut files = MemFiles::new(shelf, failing);
        let first = read_all(rt.alloc(), &mut files, "four", 4);
        assert!(rt;
            first.is_err_and(|stop| stop == ReadStop::Unreadable),
            "call {call}"
        );
        assert!(rt; files.faults() == 1 && files.calls() == call, "call {call}");
        let again = read_all(rt.alloc(), &mut files, "four", 4);
        assert!(rt;
            again.is_ok_and(|text| text.len() == 4),
            "after call {call}"
        );
    }
}

#[test]
fn gives_from_the_front(rt: HostRuntime) {
    let shelf = shelf(rt.alloc()).expect(&rt, "memory");
    let mut files = MemFiles::new(shelf, Vec::new(rt.alloc()));
    let mut buf = [0u8; 3];
    assert!(rt; files.read(&mut buf) == Ok(0), "nothing is open");
    assert!(rt; files.open_file("four") == Ok(()));
    assert!(rt; files.read(&mut buf) == Ok(3) && buf == [97u8, 98, 99]);
    assert!(rt; files.open_file("six") == Err(IoFault::Failed) && files.faults() == 1);
    assert!(rt; files.read(&mut []) == Ok(0));
    assert!(rt;
        files.read(&mut buf) == Ok(1) && buf[0] == 100,
        "the rest is still left"
    );
    assert!(rt; files.read(&mut buf) == Ok(0));
}

#[test]
fn each_call_of_a_sink_fails_once(rt: HostRuntime) {
    // Five bytes by two are three writes, and call 4 is the flush.
    for (call, most, taken, want) in [
        (1u64, 2, "", Err(IoFault::Failed)),
        (2, 2, "he", Err(IoFault::Failed)),
        (3, 2, "hell", Err(IoFault::Failed)),
        (4, 2, "hello", Err(IoFault::Failed)),
        (5, 2, "hello", Ok(())),
        (6, 0, "hello", Err(IoFault::Failed)),
        (2, 9, "hello", Err(IoFault::Failed)),
    ] {
        let failing = failing_at(rt.alloc(), call).expect(&rt, "memory");
        let mut sink = MemSink::new(rt.alloc(), failing, most);
        assert!(rt; put(&mut sink, b"hello") == want, "call {call} of {most}");
        assert!(rt; sink.bytes() == taken.as_bytes(), "call {call} of {most}");
        let faults = if want.is_ok() { 0 } else { 1 };
        assert!(rt;
            sink.faults() == faults && sink.flushes() == 1 - faults,
            "call {call} of {most}"
        );
    }
    let mut sink = MemSink::new(rt.alloc(), Vec::new(rt.alloc()), 2);
    assert!(rt; put(&mut sink, b"hello") == Ok(()) && sink.calls() == 4);
    assert!(rt; put(&mut sink, b"") == Ok(()) && sink.calls() == 5);
    assert!(rt; sink.bytes() == b"hello".as_slice() && sink.flushes() == 2);
}

#[test]
fn never_fails(rt: HostRuntime) {
    let mut files = NoFaultFiles::new(shelf(rt.alloc()).expect(&rt, "memory"));
    let four = read_all(rt.alloc(), &mut files, "four", 4).expect(&rt, "the text");
    assert!(rt; four.as_slice() == b"abcd".as_slice());
    let missing = read_all(rt.alloc(), &mut files, "six", 0);
    assert!(rt; missing.is_ok_and(|text| text.is_empty()) && files.faults() == 0);
    let mut sink = NoFaultSink::new(rt.alloc());
    assert!(rt; put(&mut sink, b"hello") == Ok(()) && sink.faults() == 0);
    assert!(rt; sink.bytes() == b"hello".as_slice() && sink.flushes() == 1);
}

/// A writer with one answer.
#[derive(Drop)]
struct Fixed {
    answer: Result<usize, ErrorKind>,
}

impl Write for Fixed {
    fn write(&mut self, buf: &[u8]) -> std::io::Result<usize> {
        match self.answer {
            Ok(most) => Ok(most.min(buf.len())),
            Err(kind) => Err(Error::from(kind)),
        }
    }

    fn flush(&mut self) -> std::io::Result<()> {
        match self.answer {
            Ok(_) => Ok(()),
            Err(kind) => Err(Error::from(kind)),
        }
    }
}

#[test]
fn the_system_is_counted(rt: HostRuntime) {
    let mut files = HostFiles::new(rt.clone().expect(&rt, "the system"));
    let mut buf = [0u8; 3];
    assert!(rt; files.read(&mut buf) == Ok(0), "nothing is open");
    assert!(rt; files.open_file("no such file") == Err(IoFault::Failed) && files.faults() == 1);
    assert!(rt; files.open_file("/dev/null") == Ok(()) && files.read(&mut buf) == Ok(0));
    assert!(rt; files.open_file("/") == Ok(()) && files.read(&mut buf) == Err(IoFault::Failed));
    assert!(rt; files.faults() == 2);
    let mut out = HostSink::new(rt.stdout());
    assert!(rt; out.flush() == Ok(()) && out.faults() == 0);
    for (answer, want, faults) in [
        (Ok(2), Ok(()), 0),
        (Ok(0), Err(IoFault::Failed), 1),
        (Err(ErrorKind::BrokenPipe), Err(IoFault::Failed), 1),
        (Err(ErrorKind::OutOfMemory), Err(IoFault::Memory), 0),
    ] {
        let mut sink = HostSink::new(Fixed { answer });
        assert!(rt; sink.flush().is_ok() == answer.is_ok());
        let mut sink = HostSink::new(Fixed { answer });
        assert!(rt; put(&mut sink, b"hello") == want && sink.faults() == faults);
    }
}
