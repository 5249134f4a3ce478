//! The reader of streams.
ghost use Rattle.std.specs.Prelude.{◌≡◌, ◌≢◌, ◌↔◌, ◌≤◌, ◌<◌, ◌++◌, ◌∷◌, [], List, ℕ, length, IfOk, IfErr, OnOk, IfSome, IsErrOf, IsTrue, MatchBool};
ghost use Rattle.std.specs.List.{All, flat_map};
ghost use Rattle.std.specs.Int.{to_be_bytes, w32};
ghost use Rattle.std.specs.Io.KnownBytes.{Consumes, IsAtEnd};
ghost use Rattle.sha2.specs.Hashers.{Holds256};
ghost use Rattle.base.specs.Failing.{HasRisen};
ghost use Rattle.base.specs.Key.{IsKey};
ghost use Rattle.stream.specs.declared.record.Record.TheVariants.{Write, Free};
ghost use Rattle.stream.specs.Records.{start_of};
ghost use Rattle.stream.specs.Spelling.{header, record_bytes, spell, IsRecord, AreApartFrom, AreGuids, KeepsRules, IsStream, IsNoStream};
ghost use Rattle.stream.specs.Reading.{Passes, HasNoHeader, HasNoWrite, HasNoFree, HasNoNext, HasNoRecords, FindsNext, ComesShort};

use crate::record::{LEAVES, Record, first_of, is_key};
use crate::sending::{Stream, StreamFault, fault_of};
use crate::writer::MAGIC;
use base::data::Data;
use base::failing::Failing;
use base::number::Key;
use byteorder::{BigEndian, ByteOrder};
use sha2::{Digest, Sha256};
use std::alloc::Global;
use std::io::{ErrorKind, Read};

/// Why a part could not be read. Bad: the bytes are not those of a stream. Failed: there was no memory, or the reader failed.
#[derive(Drop)]
enum Stop {
    Bad,
    Failed,
}

/// Reads a stream up to the reader's end. Bad comes as soon as the bytes read so far are not the beginning of a stream; then the reader may have
/// more bytes left. Each record takes memory: a write and a free take the same room in the list, and a write takes 512 bytes more. An
/// interrupted read is tried again. The reader is asked for as little as one byte at a time.
pub fn read_stream<R: Read + Failing>(alloc: Global, reader: &mut R) -> Result<Stream, StreamFault>
    ensures rules { IfOk result KeepsRules }
    ensures ok { IfOk result (λ s. IfSome (R.remaining reader.old) (λ bytes. IsStream bytes s)) }
    ensures end { OnOk result (IsAtEnd (R.remaining reader.new)) }
    ensures bad { IsErrOf result StreamFault.Bad → IfSome (R.remaining reader.old) IsNoStream }
    ensures device { IsErrOf result StreamFault.Device → HasRisen (R.failures reader.old) (R.failures reader.new) }
    ensures memory { IsErrOf result StreamFault.NoMemory → ¬ HasRisen (R.failures reader.old) (R.failures reader.new) }
{
    let failures = reader.failures();
    match read_all(alloc, reader) {
        Ok(stream) => Ok(stream),
        Err(Stop::Bad) => Err(StreamFault::Bad),
        Err(Stop::Failed) => Err(fault_of(failures, reader.failures())),
    }
}

fn read_all<R: Read>(alloc: Global, reader: &mut R) -> Result<Stream, Stop>
    ensures rules { IfOk result KeepsRules }
    ensures ok { IfOk result (λ s. Consumes (R.remaining reader.old) (R.remaining reader.new) (spell s)) }
    ensures end { OnOk result (IsAtEnd (R.remaining reader.new)) }
    ensures bad { IsErrOf result Stop.Bad → IfSome (R.remaining reader.old) IsNoStream }
{
    let mut hasher = Sha256::new();
    let (source, target) = read_header(reader, &mut hasher)?;
    let records = read_records(alloc, reader, &mut hasher)?;
    let digest = hasher.finalize();
    read_end(reader, &digest)?;
    Ok(Stream::of_guids(source, target, records))
}

/// Reads the header.
fn read_header<R: Read>(reader: &mut R, hasher: &mut Sha256) -> Result<(u64, u64), Stop>
    ensures ok { IfOk result (λ guids. AreGuids guids.0 guids.1 ×
        Passes (R.remaining reader.old) (R.remaining reader.new) hasher.old hasher.new (header guids.0 guids.1)) }
    ensures bad { IsErrOf result Stop.Bad → IfSome (R.remaining reader.old) HasNoHeader }
{
    let text: [u8; 8] = take(reader, hasher)?;
    let source: [u8; 8] = take(reader, hasher)?;
    let target: [u8; 8] = take(reader, hasher)?;
    let (source, target) = (BigEndian::read_u64(&source), BigEndian::read_u64(&target));
    if text != MAGIC {
        return Err(Stop::Bad);
    }
    if !are_guids(source, target) {
        return Err(Stop::Bad);
    }
    Ok((source, target))
}

/// Whether a stream may have these guids.
fn are_guids(source: u64, target: u64) -> bool
    ensures { IsTrue result ↔ AreGuids source target }
{
    target != 0 && source != target
}

/// Reads the records, and the byte that ends them.
fn read_records<R: Read>(
    alloc: Global,
    reader: &mut R,
    hasher: &mut Sha256,
) -> Result<Vec<Record>, Stop>
    ensures ok { IfOk result (λ rs. All IsRecord rs.items × AreApartFrom 0 rs.items ×
        Passes (R.remaining reader.old) (R.remaining reader.new) hasher.old hasher.new (flat_map record_bytes rs.items ++ 0 ∷ [])) }
    ensures bad { IsErrOf result Stop.Bad → IfSome (R.remaining reader.old) HasNoRecords }
{
    let mut records = Vec::new(alloc);
    let mut from = 0;
    'records: while let Some(record) = next_record(alloc, reader, hasher, from)? {
        from = record.end_leaf();
        if records.push(record).is_err() {
            return Err(Stop::Failed);
        }
    }
    Ok(records)
}

/// Reads the next record, which begins at the leaf `from` or past it. None at the end of the records.
fn next_record<R: Read>(
    alloc: Global,
    reader: &mut R,
    hasher: &mut Sha256,
    from: u32,
) -> Result<Option<Record>, Stop>
    ensures ok { IfOk result (FindsNext from (R.remaining reader.old) (R.remaining reader.new) hasher.old hasher.new) }
    ensures bad { IsErrOf result Stop.Bad → IfSome (R.remaining reader.old) (HasNoNext from) }
{
    let [kind]: [u8; 1] = take(reader, hasher)?;
    match kind {
        0 => Ok(None),
        1 => {
            let (leaf, bytes) = next_write(alloc, reader, hasher, from)?;
            Ok(Some(Record::Write { leaf, bytes }))
        }
        2 => Ok(Some(Record::Free(next_free(reader, hasher, from)?))),
        _ => Err(Stop::Bad),
    }
}

/// Reads the leaf and the block of a write.
fn next_write<R: Read>(
    alloc: Global,
    reader: &mut R,
    hasher: &mut Sha256,
    from: u32,
) -> Result<(u32, Data), Stop>
    ensures ok { IfOk result (λ w. IsRecord (Write w.0 w.1) × (from ≤ w.0) ×
        Passes (R.remaining reader.old) (R.remaining reader.new) hasher.old hasher.new (to_be_bytes w32 w.0 ++ w.1)) }
    ensures bad { IsErrOf result Stop.Bad → IfSome (R.remaining reader.old) (HasNoWrite from) }
{
    let leaf: [u8; 4] = take(reader, hasher)?;
    let leaf = BigEndian::read_u32(&leaf);
    if leaf < from || leaf >= LEAVES {
        return Err(Stop::Bad);
    }
    let bytes: [u8; 512] = take(reader, hasher)?;
    match Data::new(alloc, &bytes) {
        Ok(bytes) => Ok((leaf, bytes)),
        Err(_) => Err(Stop::Failed),
    }
}

/// Reads the key of a free.
fn next_free<R: Read>(reader: &mut R, hasher: &mut Sha256, from: u32) -> Result<Key, Stop>
    ensures ok { IfOk result (λ k. IsKey k × (from ≤ start_of (Free k)) ×
        Passes (R.remaining reader.old) (R.remaining reader.new) hasher.old hasher.new (k.level ∷ to_be_bytes w32 k.index)) }
    ensures bad { IsErrOf result Stop.Bad → IfSome (R.remaining reader.old) (HasNoFree from) }
{
    let [level, a, b, c, d]: [u8; 5] = take(reader, hasher)?;
    let index = BigEndian::read_u32(&[a, b, c, d]);
    let key = Key { level, index };
    if !is_key(key) {
        return Err(Stop::Bad);
    }
    if first_of(key) < from {
        return Err(Stop::Bad);
    }
    Ok(key)
}

/// Reads the digest. Bad where it isn't the one given, or where bytes follow it.
fn read_end<R: Read>(reader: &mut R, digest: &[u8; 32]) -> Result<(), Stop>
    ensures ok { OnOk result (Consumes (R.remaining reader.old) (R.remaining reader.new) digest.now) }
    ensures end { OnOk result (IsAtEnd (R.remaining reader.new)) }
    ensures bad { IsErrOf result Stop.Bad → IfSome (R.remaining reader.old) (λ bytes. bytes ≢ digest.now) }
{
    let mut bytes = [0u8; 32];
    if !fill(reader, &mut bytes)? {
        return Err(Stop::Bad);
    }
    if bytes != *digest {
        return Err(Stop::Bad);
    }
    let mut more = [0u8; 1];
    if fill(reader, &mut more)? {
        return Err(Stop::Bad);
    }
    Ok(())
}

/// Reads `N` bytes, and adds them to the digest. Bad where the reader ends before that.
fn take<const N: usize, R: Read>(reader: &mut R, hasher: &mut Sha256) -> Result<[u8; N], Stop>
    ensures ok { IfOk result (λ bytes. Passes (R.remaining reader.old) (R.remaining reader.new) hasher.old hasher.new bytes) }
    ensures length { IfOk result (λ bytes. length bytes ≡ N) }
    ensures bytes { IfOk result (All (λ b. b < 256)) }
    ensures bad { IsErrOf result Stop.Bad → IfSome (R.remaining reader.old) (λ bytes. length bytes < N) }
{
    let mut bytes = [0u8; N];
    if !fill(reader, &mut bytes)? {
        return Err(Stop::Bad);
    }
    digest_more(hasher, bytes.as_slice());
    Ok(bytes)
}

/// Adds bytes to the digest.
fn digest_more(hasher: &mut Sha256, bytes: &[u8])
    ensures hashed { (m : List ℕ) → Holds256 hasher.old m → Holds256 hasher.new (m ++ bytes.now) }
    ensures bytes { All (λ b. b < 256) bytes.now }
{
    hasher.update(bytes);
}

/// Fills the buffer. False where the reader ends before that.
fn fill<R: Read>(reader: &mut R, buf: &mut [u8]) -> Result<bool, Stop>
    ensures ok { IfOk result (λ full. MatchBool full
        (Consumes (R.remaining reader.old) (R.remaining reader.new) buf.new)
        (ComesShort (R.remaining reader.old) (R.remaining reader.new) (length buf.old))) }
    ensures failed { IfErr result (λ e. e ≡ Stop.Failed) }
{
    let mut at = 0;
    'reads: for _ in 0..u64::MAX {
        if at >= buf.len() {
            return Ok(true);
        }
        match reader.read(&mut buf[at..]) {
            Ok(0) => return Ok(false),
            Ok(n) => at += n,
            Err(e) => {
                if e.kind() != ErrorKind::Interrupted {
                    return Err(Stop::Failed);
                }
            }
        }
    }
    Err(Stop::Failed)
}
