//! Readers and writers that count their failures.
ghost use Rattle.std.specs.Prelude.{◌≡◌, ℕ, OnOk};
ghost use Rattle.std.specs.Io.Buffered.{reader_inner, writer_inner};
ghost use Rattle.std.specs.Io.{ReadsAtMost, WritesAtMost};
ghost use Rattle.std.specs.Io.KnownBytes.{Appends, Keeps, ReadConsumes, WriteAppends};
ghost use Rattle.std.specs.IoError.{error_kind};
ghost use Rattle.base.specs.Failing.{IsCountedKind, IsCountedCall};

use crate::meter::one_more;
use std::alloc::Allocator;
use std::io;
use std::io::{BufRead, BufReader, BufWriter, ErrorKind, Read, Write};

/// A reader or writer that counts its failures (profile).
///
/// By the count a caller can tell a device's fault from a lack of memory: the device failed in a call only where the count rose in that call.
/// The count stays at the greatest u64, and at that value it counts as risen.
pub trait Failing {
    ghost failures: { Self → ℕ };

    /// How often it has failed so far.
    fn failures(&self) -> u64
        ensures { result ≡ failures self.now };
}

impl<T: Failing> Failing for &mut T {
    ghost failures = { λ t. T.failures t.now };

    fn failures(&self) -> u64 {
        T::failures(&**self)
    }
}

impl<R: Read + Failing, A: Allocator> Failing for BufReader<R, A> {
    ghost failures = { λ r. R.failures (reader_inner r) };

    fn failures(&self) -> u64 {
        R::failures(self.get_ref())
    }
}

impl<W: Write + Failing + Drop, A: Allocator> Failing for BufWriter<W, A> {
    ghost failures = { λ w. W.failures (writer_inner w) };

    fn failures(&self) -> u64 {
        W::failures(self.get_ref())
    }
}

/// Any reader or writer, with a count of its failures. A lack of memory is not counted.
#[derive(Drop)]
pub struct Counted<T> {
    pub inner: T,
    pub count: u64,
}

impl<T> Counted<T> {
    /// This reader or writer, with a count of 0.
    pub fn new(inner: T) -> Counted<T>
        ensures inner { result.inner ≡ inner }
        ensures count { result.count ≡ 0 }
    {
        Counted { inner, count: 0 }
    }
}

impl<T> Failing for Counted<T> {
    ghost failures = { λ c. c.count };

    fn failures(&self) -> u64 {
        self.count
    }
}

impl<R: Read> Read for Counted<R> {
    ghost remaining = { λ c. R.remaining c.inner };

    fn read(&mut self, buf: &mut [u8]) -> io::Result<usize>
        ensures bound { ReadsAtMost result buf.new }
        ensures bytes { ReadConsumes (R.remaining self.old.inner) (R.remaining self.new.inner) result buf.new }
        ensures count { IsCountedCall result self.old.count self.new.count }
    {
        noted(self.inner.read(buf), &mut self.count)
    }
}

impl<W: Write> Write for Counted<W> {
    ghost contents = { λ c. W.contents c.inner };

    fn write(&mut self, buf: &[u8]) -> io::Result<usize>
        ensures bound { WritesAtMost result buf.now }
        ensures bytes { WriteAppends (W.contents self.old.inner) (W.contents self.new.inner) result buf.now }
        ensures count { IsCountedCall result self.old.count self.new.count }
    {
        noted(self.inner.write(buf), &mut self.count)
    }

    fn flush(&mut self) -> io::Result<()>
        ensures bytes { Keeps (W.contents self.old.inner) (W.contents self.new.inner) }
        ensures count { IsCountedCall result self.old.count self.new.count }
    {
        noted(self.inner.flush(), &mut self.count)
    }

    fn write_all(&mut self, buf: &[u8]) -> io::Result<()>
        ensures bytes { OnOk result (Appends (W.contents self.old.inner) (W.contents self.new.inner) buf.now) }
        ensures count { IsCountedCall result self.old.count self.new.count }
    {
        noted(self.inner.write_all(buf), &mut self.count)
    }
}

impl<B: BufRead> BufRead for Counted<B> {
    ghost consumable_len = { λ c. B.consumable_len c.inner };

    // It calls the inner `fill_buf` twice, unless nothing is left to read: first to find a failure, and then for the bytes, which the first call
    // has left in the buffer.
    fn fill_buf(&mut self) -> io::Result<&[u8]> {
        match self.inner.fill_buf() {
            Ok(bytes) if bytes.is_empty() => return Ok(&[]),
            Ok(_) => {}
            Err(e) => return noted(Err(e), &mut self.count),
        }
        self.inner.fill_buf()
    }

    fn consume(&mut self, amount: usize) {
        self.inner.consume(amount);
    }
}

// The outcome of a call, unchanged; where it is a failure, the failure is counted.
fn noted<T>(outcome: io::Result<T>, count: &mut u64) -> io::Result<T>
    ensures same { result ≡ outcome }
    ensures count { IsCountedCall result count.old count.new }
{
    if let Err(e) = &outcome {
        *count = count_after(*count, e);
    }
    outcome
}

// The count after a failure: one more, unless the failure was a lack of memory.
fn count_after(count: u64, e: &io::Error) -> u64
    ensures { IsCountedKind (error_kind e.now) count result }
{
    if e.kind() == ErrorKind::OutOfMemory {
        count
    } else {
        one_more(count)
    }
}
