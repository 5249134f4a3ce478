//! Send streams as bytes: the contents of a stream, its writer and its reader.
//!
//! A stream is a header, records and an end, all numbers unsigned and big-endian (profile):
//!
//! | Part | Bytes |
//! |---|---|
//! | Header | the text `ZDSTRM01`; 8 bytes guid of the source, 0 for a full stream; 8 bytes guid of the target, not 0 |
//! | Write | `01`; 4 bytes leaf; the 512 bytes of its block |
//! | Free | `02`; 1 byte level; 4 bytes index: nothing is left at and below this key |
//! | End | `00`; 32 bytes SHA-256 of all bytes before it, the `00` included |
#![tactic(auto)]

mod laws;
mod reader;
mod record;
mod sending;
mod writer;

pub use laws::spelling_laws;
pub use reader::read_stream;
pub use record::Record;
pub use sending::{Stream, StreamFault};
pub use writer::write_stream;
