//! Destinations of reply lines.
ghost use Rattle.std.specs.Prelude.{◌+◌, ◌-◌, ◌<◌, ◌≤◌, ℕ, List, Option, Some, length, OnOk, IsOk, vec_len, vec_capacity};
ghost use Rattle.std.specs.Io.KnownBytes.{Appends};

use std::io;
use std::io::Write;

/// A destination of reply lines: any writer, or a vector whose free capacity is known.
pub(crate) trait Sink {
    // The bytes written so far, where they are known.
    ghost contents: { Self → Option (List ℕ) };

    // How many more bytes it takes without failing; 0 where that isn't known.
    ghost room: { Self → ℕ };

    /// Appends bytes.
    fn put(&mut self, bytes: &[u8]) -> io::Result<()>
        ensures bytes { OnOk result (Appends (contents self.old) (contents self.new) bytes.now) }
        ensures fits { 0 < room self.old → length bytes.now ≤ room self.old → IsOk result }
        ensures left { OnOk result (room self.old ≤ length bytes.now + room self.new) };
}

impl<W: Write> Sink for W {
    ghost contents = { λ w. W.contents w };

    ghost room = { λ _. 0 };

    fn put(&mut self, bytes: &[u8]) -> io::Result<()> {
        self.write_all(bytes)
    }
}

/// A vector as a sink. Its room is its free capacity.
pub(crate) struct Roomy(pub(crate) Vec<u8>);

impl Sink for Roomy {
    ghost contents = { λ v. Some v.0.items };

    ghost room = { λ v. vec_capacity v.0 - vec_len v.0 };

    fn put(&mut self, bytes: &[u8]) -> io::Result<()> {
        self.0.extend_from_slice(bytes)?;
        Ok(())
    }
}
