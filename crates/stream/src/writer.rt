//! The writer of streams.
ghost use Rattle.std.specs.Prelude.{OnOk, IsErrOf};
ghost use Rattle.std.specs.List.{flat_map};
ghost use Rattle.std.specs.Io.KnownBytes.{Appends};
ghost use Rattle.base.specs.Failing.{HasRisen};
ghost use Rattle.stream.specs.Spelling.{header, record_bytes, spell};
ghost use Rattle.stream.specs.Writing.{Puts};

use crate::record::Record;
use crate::sending::{Stream, StreamFault, fault_of};
use base::failing::Failing;
use byteorder::{BigEndian, ByteOrder};
use sha2::{Digest, Sha256};
use std::io;
use std::io::Write;

/// The text that a stream begins with.
pub(crate) const MAGIC: [u8; 8] = *b"ZDSTRM01";

/// Writes a stream, and does not flush the writer. It takes no memory of its own. Device where the writer failed, NoMemory where the writer
/// lacked memory. After a fault, any part of the stream may have been written.
pub fn write_stream<W: Write + Failing>(stream: &Stream, writer: &mut W) -> Result<(), StreamFault>
    ensures ok { OnOk result (Appends (W.contents writer.old) (W.contents writer.new) (spell stream.now)) }
    ensures bad { ¬ IsErrOf result StreamFault.Bad }
    ensures device { IsErrOf result StreamFault.Device → HasRisen (W.failures writer.old) (W.failures writer.new) }
    ensures memory { IsErrOf result StreamFault.NoMemory → ¬ HasRisen (W.failures writer.old) (W.failures writer.new) }
{
    let failures = writer.failures();
    match write_all(stream, writer) {
        Ok(()) => Ok(()),
        Err(_) => Err(fault_of(failures, writer.failures())),
    }
}

fn write_all<W: Write>(stream: &Stream, writer: &mut W) -> io::Result<()>
    ensures { OnOk result (Appends (W.contents writer.old) (W.contents writer.new) (spell stream.now)) }
{
    let mut hasher = Sha256::new();
    put_header(writer, &mut hasher, stream)?;
    put_records(writer, &mut hasher, stream.records())?;
    put(writer, &mut hasher, &[0])?;
    let digest = hasher.finalize();
    writer.write_all(&digest)
}

fn put_header<W: Write>(writer: &mut W, hasher: &mut Sha256, stream: &Stream) -> io::Result<()>
    ensures { OnOk result (Puts (W.contents writer.old) (W.contents writer.new) hasher.old hasher.new (header stream.now.source stream.now.target)) }
{
    let mut guids = [0; 16];
    BigEndian::write_u64(&mut guids, stream.source_number());
    BigEndian::write_u64(&mut guids[8..], stream.target().0);
    put(writer, hasher, &MAGIC)?;
    put(writer, hasher, &guids)
}

fn put_records<W: Write>(writer: &mut W, hasher: &mut Sha256, records: &[Record]) -> io::Result<()>
    ensures { OnOk result (Puts (W.contents writer.old) (W.contents writer.new) hasher.old hasher.new (flat_map record_bytes records.now)) }
{
    for item in records {
        put_record(writer, hasher, item)?;
    }
    Ok(())
}

fn put_record<W: Write>(writer: &mut W, hasher: &mut Sha256, item: &Record) -> io::Result<()>
    ensures { OnOk result (Puts (W.contents writer.old) (W.contents writer.new) hasher.old hasher.new (record_bytes item.now)) }
{
    match item {
        Record::Write { leaf, bytes } => {
            let mut head = [1; 5];
            BigEndian::write_u32(&mut head[1..], *leaf);
            put(writer, hasher, &head)?;
            put(writer, hasher, bytes.as_array())
        }
        Record::Free(key) => {
            let mut bytes = [2, key.level, 0, 0, 0, 0];
            BigEndian::write_u32(&mut bytes[2..], key.index);
            put(writer, hasher, &bytes)
        }
    }
}

/// Writes bytes, and adds them to the digest.
fn put<W: Write>(writer: &mut W, hasher: &mut Sha256, bytes: &[u8]) -> io::Result<()>
    ensures { OnOk result (Puts (W.contents writer.old) (W.contents writer.new) hasher.old hasher.new bytes.now) }
{
    hasher.update(bytes);
    writer.write_all(bytes)
}
