//! The parts of a pool's steps, as functions of datasets and numbers rather than of a pool: the ledger, the check of a request against the
//! limits before anything is changed (zfsprops(7): quota, refquota, reservation, refreservation, available), the replies to requests that only
//! read, and what a receive makes of a pool. The crate also re-exports what a pool uses of limits, names and sources. Its `proofs/` has the
//! lemmas on each request's step, which the pool's own proofs cite.
#![tactic(auto)]

mod answering;
mod asking;
mod counting;
mod fitting;
mod intake;
mod limiting;
mod naming;
mod sending;

pub use crate::answering::answer;
pub use crate::asking::{ask_change, with_limit};
pub use crate::intake::{Present, intake_of};
pub use crate::limiting::{over, recount, renew, settle};
pub use limits::outlook::Outlook;
pub use limits::{Ledger, Space};
pub use lookups::live_name;
pub use lookups::sources::sources_of;
