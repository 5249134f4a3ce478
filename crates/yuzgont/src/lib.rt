//! Yuzgont for hosts: all that a container runtime, a backup tool or a file server needs of it, in one crate.
//!
//! A [`Pool`] answers one [`Request`] after another with a [`Reply`], by `apply`. A refused request changes nothing.
//!
//! ```text
//! let mut pool = Pool::create(alloc, 1, 1000)?;
//! let write = Request::Write {
//!     target: Target::read(alloc, b"p")?,
//!     object: 0,
//!     block: 0,
//!     bytes: Data::new(alloc, &[97; 512])?,
//! };
//! let mut reply = Reply::Done;
//! pool.apply(alloc, &write, &mut reply);
//! match reply {
//!     Reply::Done => {}
//!     Reply::Refused(why) => return Err(why),
//!     _ => {}
//! }
//! ```
//!
//! A pool that threads share is a [`Session`]. Each thread has a [`Seat`], and a [`View`] of a snapshot is read without the lock. Another pool
//! takes the bytes of a send by a [`Request::Receive`]; [`read_stream`] says what is in them. A pool in a [`PoolCaller`] answers lines: one by
//! [`answer_line`], or a script by [`run_script`]. docs/COMMANDS.md has the lines.
//!
//! The program `host_example` is an example of a host, which the gate runs. It has a file for each of these uses: `requests` writes a block and
//! reads it back, `backup` sends a snapshot from one pool to another, `way_back` returns to the last sync, `scripts` answers lines, and `threads`
//! shares a session among three writers and a reader of a view. `asking` has the requests that they make. docs/EMBEDDING.md says what a host has
//! to know.
#![tactic(auto)]

pub use base::data::Data;
pub use base::failing::{Counted, Failing};
pub use base::limit::Blocks;
pub use base::name::{Component, DsName, MarkName, Member, SnapName, Tag, Target};
pub use base::number::{BlockNo, Group, Guid};
pub use base::refusal::Refusal;
pub use base::text::Bytes;
pub use image::Image;
pub use model::destroy_target::DestroyTarget;
pub use model::entry::{Entry, KeptReply};
pub use model::limits::{Limit, Limits};
pub use model::names::Names;
pub use model::receiving::Receiving;
pub use model::reply::{Reply, Value};
pub use model::request::{ObjectBlock, PoolProperty, Property, Request};
pub use model::sight::Sight;
pub use model::snap_names::SnapNames;
pub use model::source::{Source, SourceName};
pub use pool::{MOST_BLOCKS, Pool, Ready};
pub use runner::PoolCaller;
pub use script::lines::LINE_LIMIT;
pub use script::run::{Caller, LineFault, ScriptFault, answer_line, run_script};
pub use script::spare::SpareTarget;
pub use session::{
    Book, CALL_LIMIT, Closed, ClosedView, Gate, OpenedView, Opening, Receipt, SEAT_LIMIT, Seat,
    Session, Turns, View,
};
pub use snap::VIEW_LIMIT;
pub use stream::{Record, Stream, StreamFault, read_stream, write_stream};
