//! Rows on readers and writers whose failures are counted.
use crate::broken::{behind_a_borrow, behind_a_reader, behind_a_writer, failures_of_five};
use base::failing::{Counted, Failing};
use base::refusal::Refusal;
use row_machine::told::Told;
use row_machine::words::Words;
use std::alloc::Global;
use std::io;
use std::io::{BufRead, ErrorKind, Read, Write};

/// At its end; it knows how often it was asked.
#[derive(Drop)]
struct Ended(u32);

impl Read for Ended {
    fn read(&mut self, _buf: &mut [u8]) -> io::Result<usize> {
        Ok(0)
    }
}

impl BufRead for Ended {
    fn fill_buf(&mut self) -> io::Result<&[u8]> {
        self.0 = self.0.saturating_add(1);
        Ok(&[])
    }

    fn consume(&mut self, _amount: usize) {}
}

/// How many bytes a reader at its end gives, and how often it was asked for them.
fn at_the_end() -> Told {
    let mut ended = Counted::new(Ended(0));
    let given = match ended.fill_buf() {
        Ok(bytes) => bytes.len(),
        Err(_) => 1,
    };
    Told::Two(given as u64, u64::from(ended.inner.0))
}

/// How many bytes go through a counted writer, whether they are the ones that were written, and its failures.
fn writer(alloc: Global) -> Result<Told, Refusal> {
    let mut writer = Counted::new(Vec::new(alloc));
    if writer.write(b"ab").is_err() || writer.write_all(b"cd").is_err() {
        return Err(Refusal::NoMemory);
    }
    let _flushed = writer.flush().is_err();
    let is_same = u64::from(writer.inner.as_slice() == b"abcd".as_slice());
    Ok(Told::Three(writer.inner.len() as u64, is_same, writer.failures()))
}

/// How many bytes a reader of three has, how many it gives after one is consumed, and its failures.
fn reader(mut reader: Counted<&[u8]>) -> Told {
    let mut buffer = [0u8; 4];
    let filled = match reader.fill_buf() {
        Ok(bytes) => bytes.len(),
        Err(_) => 0,
    };
    reader.consume(1);
    let read = reader.read(&mut buffer).unwrap_or(0);
    Told::Three(filled as u64, read as u64, reader.failures())
}

/// How many of five calls fail, and how many of them are counted.
fn five(kind: ErrorKind) -> Told {
    let (failed, counted) = failures_of_five(kind);
    Told::Two(failed, counted)
}

/// What a row on what is counted tells.
pub fn told(alloc: Global, words: &mut Words) -> Result<Told, Refusal> {
    match words.word() {
        "device" => Ok(five(ErrorKind::BrokenPipe)),
        "memory" => Ok(five(ErrorKind::OutOfMemory)),
        "borrow" => Ok(Told::One(behind_a_borrow())),
        "buffered" => Ok(Told::One(behind_a_reader(alloc)?)),
        "written" => Ok(Told::One(behind_a_writer(alloc)?)),
        "end" => Ok(at_the_end()),
        "writer" => writer(alloc),
        _ => Ok(reader(Counted::new(b"abc".as_slice()))),
    }
}
