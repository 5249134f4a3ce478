//! How a change of a live map would change the counts that limits are checked against, before it is made.
//!
//! Nothing here visits a block: the counts come from those that file systems keep, and from the births of the blocks that the change
//! drops.

mod outlook;

pub use crate::outlook::outlook::{Outlook, kept_outlook_of, outlook_of};
