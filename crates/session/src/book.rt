//! The contents of a session's lock: a pool with the history that led to its state. A caller's seat keeps a receipt for each of its calls.
//! `enter_call` is the one function that adds to the history, and `Book::close` compares all receipts with it.

mod book;
mod call;
mod closing;
mod entering;
mod opening;
mod seat;

pub use book::{Book, CALL_LIMIT, Entered, SEAT_LIMIT, enter_call};
pub use call::Call;
pub use closing::Closed;
pub use opening::Opening;
pub use pool::Pool;
pub use seat::{Receipt, Seat};
