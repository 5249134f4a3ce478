//! Readers and writers that fail once.
use crate::streams::text::{bytes_of, stream_of};
use base::failing::{Counted, Failing};
use base::refusal::Refusal;
use std::alloc::Global;
use std::io;
use std::io::{ErrorKind, Read, Write};
use stream::{Stream, StreamFault, read_stream, write_stream};

/// Fails once, at the call after so many.
#[derive(Drop)]
struct FailAt<T> {
    inner: T,
    calls_before: u32,
    has_failed: bool,
}

impl<T> FailAt<T> {
    fn new(inner: T, calls_before: u32) -> FailAt<T> {
        FailAt {
            inner,
            calls_before,
            has_failed: false,
        }
    }

    fn fails_now(&mut self) -> bool {
        if self.calls_before > 0 {
            self.calls_before -= 1;
            return false;
        }
        let fails = !self.has_failed;
        self.has_failed = true;
        fails
    }
}

impl<R: Read> Read for FailAt<R> {
    fn read(&mut self, buf: &mut [u8]) -> io::Result<usize> {
        if self.fails_now() {
            return Err(io::Error::from(ErrorKind::Other));
        }
        self.inner.read(buf)
    }
}

impl<W: Write> Write for FailAt<W> {
    fn write(&mut self, buf: &[u8]) -> io::Result<usize> {
        if self.fails_now() {
            return Err(io::Error::from(ErrorKind::Other));
        }
        self.inner.write(buf)
    }

    fn flush(&mut self) -> io::Result<()> {
        self.inner.flush()
    }
}

/// What became of a call of a reader or writer with a number.
#[derive(Clone, Copy, PartialEq, Eq)]
enum Outcome {
    /// All went well before it.
    NotReached,
    /// A device's fault.
    Fault,
    Other,
}

fn read_at(alloc: Global, bytes: &[u8], calls: u32) -> Outcome {
    let mut reader = Counted::new(FailAt::new(bytes, calls));
    match read_stream(alloc, &mut reader) {
        Ok(_) if reader.failures() == 0 => Outcome::NotReached,
        Err(StreamFault::Device) => Outcome::Fault,
        _ => Outcome::Other,
    }
}

fn write_at(alloc: Global, stream: &Stream, calls: u32) -> Outcome {
    let mut writer = Counted::new(FailAt::new(Vec::new(alloc), calls));
    match write_stream(stream, &mut writer) {
        Ok(()) if writer.failures() == 0 => Outcome::NotReached,
        Err(StreamFault::Device) => Outcome::Fault,
        _ => Outcome::Other,
    }
}

/// How many calls are there to fail, and whether each that fails is a device's fault.
#[derive(Clone, Copy)]
struct Faults {
    calls: u32,
    are_all: bool,
}

impl Faults {
    fn new() -> Faults {
        Faults {
            calls: 0,
            are_all: true,
        }
    }

    fn note(self, calls: u32, outcome: Outcome) -> Faults {
        match outcome {
            Outcome::NotReached => self,
            Outcome::Fault => Faults {
                calls: calls.saturating_add(1),
                are_all: self.are_all,
            },
            Outcome::Other => Faults {
                calls: self.calls,
                are_all: false,
            },
        }
    }

    /// A record takes a call at least, and no stream here has more than 76.
    fn are_right(self) -> bool {
        self.are_all && self.calls > 76 && self.calls < 200
    }
}

pub fn do_readers_fail(alloc: Global, digits: &str) -> Result<bool, Refusal> {
    let bytes = bytes_of(alloc, digits)?;
    let mut faults = Faults::new();
    for calls in 0..200u32 {
        faults = faults.note(calls, read_at(alloc, bytes.as_slice(), calls));
    }
    Ok(faults.are_right())
}

pub fn do_writers_fail(alloc: Global, text: &str) -> Result<bool, Refusal> {
    let stream = stream_of(alloc, text)?;
    let mut faults = Faults::new();
    for calls in 0..200u32 {
        faults = faults.note(calls, write_at(alloc, &stream, calls));
    }
    Ok(faults.are_right())
}
