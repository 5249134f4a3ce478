//! Sessions and books of fresh pools.
ghost use Rattle.std.specs.Prelude.{◌≡◌};
ghost use Rattle.model.specs.State.{fresh_state};

use base::refusal::Refusal;
use session::{Book, Opening, Pool, Session};
use std::alloc::Global;

/// A book of a fresh pool of so many blocks.
pub fn fresh_book<K: Opening>(alloc: Global, blocks: u32, limit: u64) -> Result<Book<K>, Refusal>
    requires opening { fresh_state 1 blocks ≡ K.opening }
    requires limit { limit ≡ K.limit }
{
    let pool = Pool::create(alloc, 1, blocks)?;
    match Book::open(alloc, pool, limit) {
        Ok(book) => Ok(book),
        Err((refusal, pool)) => {
            drop(pool);
            Err(refusal)
        }
    }
}

/// A session of a fresh pool of so many blocks.
pub fn fresh_session<K: Opening>(
    alloc: Global,
    blocks: u32,
    limit: u64,
) -> Result<Session<K>, Refusal>
    requires opening { fresh_state 1 blocks ≡ K.opening }
    requires limit { limit ≡ K.limit }
{
    let pool = Pool::create(alloc, 1, blocks)?;
    match Session::open(alloc, pool, limit) {
        Ok(session) => Ok(session),
        Err((refusal, pool)) => {
            drop(pool);
            Err(refusal)
        }
    }
}
