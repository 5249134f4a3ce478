//! Readers and writers that fail each time, and how many of their failures are counted.
use base::failing::{Counted, Failing};
use base::refusal::Refusal;
use std::alloc::Global;
use std::io;
use std::io::{BufRead, BufReader, BufWriter, ErrorKind, Read, Write};

/// Fails each time, by a device's fault or by want of memory.
#[derive(Drop)]
struct Broken(ErrorKind);

impl Read for Broken {
    fn read(&mut self, _buf: &mut [u8]) -> io::Result<usize> {
        Err(io::Error::from(self.0))
    }
}

impl Write for Broken {
    fn write(&mut self, _buf: &[u8]) -> io::Result<usize> {
        Err(io::Error::from(self.0))
    }

    fn flush(&mut self) -> io::Result<()> {
        Err(io::Error::from(self.0))
    }
}

impl BufRead for Broken {
    fn fill_buf(&mut self) -> io::Result<&[u8]> {
        Err(io::Error::from(self.0))
    }

    fn consume(&mut self, _amount: usize) {}
}

fn is_broken<T: Drop>(outcome: io::Result<T>) -> u64 {
    u64::from(outcome.is_err())
}

/// How many of five calls fail, and how many of them are counted.
pub fn failures_of_five(kind: ErrorKind) -> (u64, u64) {
    let mut buffer = [0u8; 4];
    let mut broken = Counted::new(Broken(kind));
    let read = is_broken(broken.read(&mut buffer));
    let filled = u64::from(broken.fill_buf().is_err());
    let written = is_broken(broken.write(b"ab"));
    let all = is_broken(broken.write_all(b"ab"));
    let flushed = is_broken(broken.flush());
    let failed = read.wrapping_add(filled).wrapping_add(written);
    (
        failed.wrapping_add(all).wrapping_add(flushed),
        broken.failures(),
    )
}

fn failures_told<F: Failing>(it: &F) -> u64 {
    it.failures()
}

pub fn behind_a_borrow() -> u64 {
    let mut broken = Counted::new(Broken(ErrorKind::BrokenPipe));
    let mut borrowed = &mut broken;
    let _flushed = is_broken(borrowed.flush());
    failures_told(&borrowed)
}

pub fn behind_a_reader(alloc: Global) -> Result<u64, Refusal> {
    let broken = Counted::new(Broken(ErrorKind::BrokenPipe));
    let Ok(mut reader) = BufReader::new(alloc, broken) else {
        return Err(Refusal::NoMemory);
    };
    let _filled = reader.fill_buf().is_err();
    Ok(failures_told(&reader))
}

pub fn behind_a_writer(alloc: Global) -> Result<u64, Refusal> {
    let broken = Counted::new(Broken(ErrorKind::BrokenPipe));
    let Ok(mut writer) = BufWriter::new(alloc, broken) else {
        return Err(Refusal::NoMemory);
    };
    let _written = is_broken(writer.write_all(b"ab"));
    let _flushed = is_broken(writer.flush());
    Ok(failures_told(&writer))
}
