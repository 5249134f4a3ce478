//! Readers and writers that fail.
use crate::rig::{Ran, args_of, run, run_into};
use base::failing::{Counted, Failing};
use runner::run_args;
use std::alloc::Global;
use std::io;
use std::io::{BufReader, ErrorKind, Read, Write};
use std::process::Abort;
use std::sync::Wait;
use std::thread::Threads;

const FAULT: &[u8] = b"zfsp: input or output failed\n";

const NO_MEMORY: &[u8] = b"zfsp: no memory\n";

const SCRIPT: &[u8] = b"read p 0 0\nread p 0 1\n";

/// A reader or writer that fails once, at its call number `at`.
#[derive(Drop)]
struct FailAt<T> {
    inner: T,
    at: u32,
    calls: u32,
    kind: ErrorKind,
}

impl<T> FailAt<T> {
    fn new(inner: T, at: u32, kind: ErrorKind) -> FailAt<T> {
        FailAt {
            inner,
            at,
            calls: 0,
            kind,
        }
    }

    fn fails(&mut self) -> bool {
        self.calls = self.calls.saturating_add(1);
        self.calls == self.at
    }
}

impl<R: Read> Read for FailAt<R> {
    fn read(&mut self, buf: &mut [u8]) -> io::Result<usize> {
        if self.fails() {
            return Err(io::Error::from(self.kind));
        }
        self.inner.read(buf)
    }
}

impl<W: Write> Write for FailAt<W> {
    fn write(&mut self, buf: &[u8]) -> io::Result<usize> {
        if self.fails() {
            return Err(io::Error::from(self.kind));
        }
        self.inner.write(buf)
    }

    fn flush(&mut self) -> io::Result<()> {
        if self.fails() {
            return Err(io::Error::from(self.kind));
        }
        self.inner.flush()
    }
}

/// A run whose reader fails at its read number `at`.
fn run_failing(
    rt: &(impl Threads + Wait + Abort + Sync),
    alloc: Global,
    at: u32,
    kind: ErrorKind,
) -> Ran {
    run(
        rt,
        alloc,
        Some(&args_of(false, 1000)),
        FailAt::new(SCRIPT, at, kind),
    )
}

/// Whether a run fails whose reader does, at its read number `at`.
fn read_fails(rt: &(impl Threads + Wait + Abort + Sync), alloc: Global, at: u32) -> bool {
    let ran = run_failing(rt, alloc, at, ErrorKind::Other);
    let fails = ran.failed(FAULT, 3);
    drop(ran);
    fails
}

#[test]
fn a_reader_that_fails_once(rt: HostRuntime) {
    // Each read gives at most 7 of the 22 bytes, and the fifth finds the end.
    for at in 1..6 {
        assert!(rt; read_fails(&rt, rt.alloc(), at), "at read {at}");
    }
}

/// Whether a run goes on whose reader is interrupted, at its read number `at`.
fn reads_on(rt: &(impl Threads + Wait + Abort + Sync), alloc: Global, at: u32) -> bool {
    let ran = run_failing(rt, alloc, at, ErrorKind::Interrupted);
    let reads_on = ran.is(b"hole\nhole\n", 0);
    drop(ran);
    reads_on
}

#[test]
fn a_reader_that_is_interrupted(rt: HostRuntime) {
    for at in 1..6 {
        assert!(rt; reads_on(&rt, rt.alloc(), at), "at read {at}");
    }
}

/// Whether a run fails whose writer does, at its call number `at`.
fn write_fails(rt: &(impl Threads + Wait + Abort + Sync), alloc: Global, at: u32) -> bool {
    let writer = FailAt::new(Vec::new(alloc), at, ErrorKind::Other);
    let (status, errors) = run_into(rt, alloc, SCRIPT, writer);
    status == 3 && errors.as_slice() == FAULT
}

#[test]
fn a_writer_that_fails_once(rt: HostRuntime) {
    // Two replies, and the flush at the end.
    for at in 1..4 {
        assert!(rt; write_fails(&rt, rt.alloc(), at), "at write {at}");
    }
}

/// A reader that fails, and tells no failure.
#[derive(Drop)]
struct Untold<T> {
    inner: T,
}

impl<R: Read> Read for Untold<R> {
    fn read(&mut self, buf: &mut [u8]) -> io::Result<usize> {
        self.inner.read(buf)
    }
}

impl<T> Failing for Untold<T> {
    ghost failures = { λ _. 7 };

    fn failures(&self) -> u64 {
        7
    }
}

/// The exit status and the errors of a run whose reader fails and tells nothing.
fn run_untold(rt: &(impl Threads + Wait + Abort + Sync), alloc: Global) -> (u8, Vec<u8>) {
    let inner = Untold {
        inner: FailAt::new(SCRIPT, 2, ErrorKind::Other),
    };
    let reader = BufReader::with_capacity(alloc, 7, inner);
    let mut reader = reader.expect(rt, "memory for a buffer");
    let mut output = Counted::new(Vec::new(alloc));
    let mut errors = Counted::new(Vec::new(alloc));
    let args = args_of(false, 1000);
    let status = run_args(
        rt,
        alloc,
        Some(&args),
        &mut reader,
        &mut output,
        &mut errors,
    );
    (status, errors.inner)
}

#[test]
fn a_failure_that_is_not_told(rt: HostRuntime) {
    let (status, errors) = run_untold(&rt, rt.alloc());
    let is_told = errors.as_slice() == NO_MEMORY;
    drop(errors);
    assert!(rt; status == 3 && is_told);
}

/// A run of a reader without a buffer.
fn run_unbuffered(rt: &(impl Threads + Wait + Abort + Sync), alloc: Global) -> Ran {
    let mut reader = Counted::new(SCRIPT);
    let mut output = Counted::new(Vec::new(alloc));
    let mut errors = Counted::new(Vec::new(alloc));
    let args = args_of(false, 1000);
    let status = run_args(
        rt,
        alloc,
        Some(&args),
        &mut reader,
        &mut output,
        &mut errors,
    );
    Ran {
        output: output.inner,
        errors: errors.inner,
        status,
    }
}

fn is_told(ran: &Ran) -> bool {
    match ran.status {
        0 => ran.output.as_slice() == b"hole\nhole\n".as_slice(),
        3 => ran.errors.is_empty() || ran.errors.as_slice() == NO_MEMORY,
        _ => false,
    }
}

/// Run it with each allocation refused in turn: a run ends well, or says that memory was wanting where there is memory to say so.
#[test]
fn refused_memory_is_told(rt: HostRuntime) {
    let ran = run_unbuffered(&rt, rt.alloc());
    let is_told = is_told(&ran);
    drop(ran);
    assert!(rt; is_told);
}
