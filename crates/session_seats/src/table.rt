//! What all who sit at a session share, and what they tell of it.
use base::refusal::Refusal;
use session::{Opening, Receipt, Session};
use std::alloc::{AllocError, Global};
use std::sync::Wait;
use std::sync::atomic::AtomicBool;
use telling::replies::tell_kept;
use telling::told::{tell, tell_number, tell_refusal};
use telling::words::placed;

/// A session, and flags by which threads wait for one another.
#[derive(Drop)]
pub struct Table<'t, K: Opening, R: Wait> {
    pub rt: &'t R,
    pub alloc: Global,
    pub session: &'t Session<K>,
    pub flags: &'t [AtomicBool],
}

impl<'t, K: Opening, R: Wait> Table<'t, K, R> {
    /// The flag of a number, and the words behind it.
    pub fn flag<'w>(&self, words: &'w str) -> (Option<&'t AtomicBool>, &'w str) {
        let (place, rest) = placed(words);
        (self.flags.get(place), rest)
    }
}

/// Tells the number of a receipt, and the reply.
pub fn tell_receipt(
    alloc: Global,
    receipt: &Receipt,
    told: &mut Vec<u8>,
) -> Result<(), AllocError> {
    tell_number(alloc, told, receipt.number)?;
    tell(told, " ")?;
    tell_kept(alloc, &receipt.entry.reply, told)
}

/// Tells what became of a call.
pub fn tell_called(
    alloc: Global,
    called: Result<Receipt, Refusal>,
    told: &mut Vec<u8>,
) -> Result<(), AllocError> {
    match called {
        Ok(receipt) => {
            let outcome = tell_receipt(alloc, &receipt, told);
            drop(receipt);
            outcome
        }
        Err(refusal) => tell_refusal(alloc, told, refusal),
    }
}
