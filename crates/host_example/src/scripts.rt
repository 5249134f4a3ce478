//! A script run on a pool.
use std::alloc::Global;
use yuzgont::{Counted, Pool, PoolCaller, Refusal, run_script};

const SCRIPT: &[u8] = b"write p 0 0 61\nsnapshot p@monday\nget used p\nlist\n";

/// How many lines of replies a script has.
pub fn answers(alloc: Global) -> Result<usize, Refusal> {
    let pool = Pool::create(alloc, 1, 1000)?;
    let mut caller = PoolCaller { alloc, pool };
    let mut reader = Counted::new(SCRIPT);
    let mut writer = Counted::new(Vec::new(alloc));
    let outcome = run_script(alloc, &mut caller, &mut reader, &mut writer, true);
    drop(caller);
    let Counted { inner, count: _ } = writer;
    match outcome {
        Ok(_) => Ok(
            inner
                .as_slice()
                .split(|byte| *byte == b'\n')
                .count()
                .saturating_sub(1),
        ),
        Err(_) => Err(Refusal::NoMemory),
    }
}
