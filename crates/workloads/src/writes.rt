//! Writes all over the root.
use base::data::Data;
use base::name::Target;
use base::refusal::Refusal;
use model::reply::Reply;
use model::request::Request;
use session::Pool;
use std::alloc::Global;
use std::mem;

/// How many leaves a tree has.
const LEAVES: u64 = 1_048_576;

/// The object and the block of the write with this number.
pub fn place_of(number: u32) -> (u32, u32) {
    let leaf = (u64::from(number) * 7919 % LEAVES) as u32;
    (leaf / 4096, leaf % 4096)
}

/// The write with this number. Writes with numbers next to each other are of leaves far apart.
pub fn write_of(alloc: Global, number: u32) -> Result<Request, Refusal> {
    let (object, block) = place_of(number);
    let target = Target::read(alloc, b"p")?;
    let bytes = Data::new(alloc, &[(number % 251) as u8; 512])?;
    Ok(Request::Write {
        target,
        object,
        block,
        bytes,
    })
}

fn is_done(reply: &Reply) -> bool {
    matches!(reply, Reply::Done)
}

/// How many of so many writes the pool has done. It isn't taken apart, since the program ends.
pub fn applied(alloc: Global, mut pool: Pool, calls: u32) -> Result<u32, Refusal> {
    let done = applied_to(alloc, &mut pool, calls);
    mem::forget(pool);
    done
}

fn applied_to(alloc: Global, pool: &mut Pool, calls: u32) -> Result<u32, Refusal> {
    let mut done: u32 = 0;
    for number in 0..calls {
        if is_applied(alloc, pool, number)? {
            done = done.saturating_add(1);
        }
    }
    Ok(done)
}

/// Whether the pool has done the write with this number.
fn is_applied(alloc: Global, pool: &mut Pool, number: u32) -> Result<bool, Refusal> {
    let request = write_of(alloc, number)?;
    let mut reply = Reply::Done;
    pool.apply(alloc, &request, &mut reply);
    drop(request);
    let done = is_done(&reply);
    drop(reply);
    Ok(done)
}
