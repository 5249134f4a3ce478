//! A pool that several threads share under one lock. Each request that runs becomes an entry of the book under the lock, and the caller's seat
//! keeps its receipt. A view of a snapshot is read without the lock. Workers make one request repeatedly. Once the threads have ended, the book
//! is taken out of the lock and closed.
#![tactic(auto)]

mod batches;
pub mod book;
mod gate;
mod histories;
mod shared;
mod view;
mod view_calls;
mod workers;

pub use crate::book::{
    Book, CALL_LIMIT, Call, Closed, Entered, Opening, Pool, Receipt, SEAT_LIMIT, Seat, enter_call,
};
pub use gate::{Gate, Turns};
pub use histories::history_laws;
pub use shared::Session;
pub use view::{ClosedView, OpenedView, View};
