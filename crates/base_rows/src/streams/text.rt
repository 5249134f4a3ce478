//! Streams and their bytes as texts.
use base::data::Data;
use base::failing::Counted;
use base::number::{Guid, Key};
use base::refusal::Refusal;
use std::alloc::Global;
use stream::{Record, Stream, StreamFault, read_stream, write_stream};

/// A word as a number, which is the greatest where it is none.
fn number_of(word: &str) -> u64 {
    word.parse::<u64>().unwrap_or(u64::MAX)
}

/// A write of a leaf: this byte, and then zeros.
fn write_of(alloc: Global, leaf: u64, byte: u64) -> Result<Record, Refusal> {
    let mut bytes = [0; 512];
    bytes[0] = (byte & 255) as u8;
    let bytes = Data::new(alloc, &bytes)?;
    let leaf = (leaf & 0xffff_ffff) as u32;
    Ok(Record::Write { leaf, bytes })
}

fn free_of(level: u64, index: u64) -> Record {
    Record::Free(Key {
        level: (level & 255) as u8,
        index: (index & 0xffff_ffff) as u32,
    })
}

/// What `w.LEAF.BYTE` or `f.LEVEL.INDEX` is.
fn record_of(alloc: Global, word: &str) -> Result<Record, Refusal> {
    let mut parts = word.split('.');
    let kind = parts.next().unwrap_or("");
    let one = number_of(parts.next().unwrap_or(""));
    let other = number_of(parts.next().unwrap_or(""));
    if kind == "w" {
        write_of(alloc, one, other)
    } else {
        Ok(free_of(one, other))
    }
}

fn source_of(number: u64) -> Option<Guid> {
    if number == 0 {
        None
    } else {
        Some(Guid(number))
    }
}

/// What `SOURCE TARGET RECORD ..` says.
pub fn stream_of(alloc: Global, text: &str) -> Result<Stream, Refusal> {
    let mut words = text.split(' ');
    let source = source_of(number_of(words.next().unwrap_or("")));
    let target = Guid(number_of(words.next().unwrap_or("")));
    let mut records = Vec::new(alloc);
    for word in words {
        records.push(record_of(alloc, word)?)?;
    }
    Ok(Stream::new(source, target, records))
}

/// The bytes that a stream is written as.
fn written(alloc: Global, stream: &Stream) -> Result<Vec<u8>, Refusal> {
    let mut writer = Counted::new(Vec::new(alloc));
    match write_stream(stream, &mut writer) {
        Ok(()) => Ok(writer.inner),
        Err(_) => Err(Refusal::NoMemory),
    }
}

/// The digits of the bytes that a stream is written as.
pub fn digits_of(alloc: Global, text: &str) -> Result<String, Refusal> {
    let stream = stream_of(alloc, text)?;
    let bytes = written(alloc, &stream)?;
    Ok(hex::encode(alloc, bytes.as_slice())?)
}

/// The bytes of digits. NoMemory where they are none.
pub fn bytes_of(alloc: Global, digits: &str) -> Result<Vec<u8>, Refusal> {
    match hex::decode(alloc, digits.as_bytes()) {
        Ok(bytes) => Ok(bytes),
        Err(_) => Err(Refusal::NoMemory),
    }
}

/// What bytes are read as: a stream that is written so, another one, none, or a device's fault.
pub fn kind_of(alloc: Global, bytes: &[u8]) -> Result<&'static str, Refusal> {
    match read_stream(alloc, &mut Counted::new(bytes)) {
        Ok(stream) => {
            let is_same = written(alloc, &stream)?.as_slice() == bytes;
            Ok(if is_same { "stream" } else { "other" })
        }
        Err(StreamFault::Bad) => Ok("bad"),
        Err(StreamFault::NoMemory) => Err(Refusal::NoMemory),
        Err(StreamFault::Device) => Ok("device"),
    }
}

/// What the bytes of a stream are read as.
pub fn again(alloc: Global, text: &str) -> Result<&'static str, Refusal> {
    let stream = stream_of(alloc, text)?;
    kind_of(alloc, written(alloc, &stream)?.as_slice())
}
