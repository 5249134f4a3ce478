//! Scripts on a pool of the caller's own.
use base::failing::Counted;
use model::reply::Reply;
use model::request::Request;
use runner::{Pool, PoolCaller};
use script::run::{Caller, answer_line, run_script};
use std::alloc::{AllocError, Global};
use std::process::Abort;

/// Whether a script prints this, and all its lines are answered.
fn prints<C: Caller>(alloc: Global, caller: &mut C, script: &[u8], output: &[u8]) -> bool {
    let mut reader = Counted::new(script);
    let mut writer = Counted::new(Vec::new(alloc));
    let outcome = run_script(alloc, caller, &mut reader, &mut writer, true);
    outcome.is_ok() && writer.inner.as_slice() == output
}

/// Whether a sync of the pool opens this group.
fn opens(alloc: Global, pool: &mut Pool, group: u64) -> bool {
    let mut reply = Reply::Done;
    pool.apply(alloc, &Request::Sync, &mut reply);
    let is_it = reply.same(&Reply::Group(group));
    drop(reply);
    is_it
}

/// Whether a fresh pool answers a script, then a sync of its owner's, and then a script again, each from the state before it.
fn answers_in_turn(alloc: Global, pool: Pool) -> bool {
    let mut caller = PoolCaller { alloc, pool };
    let first = prints(alloc, &mut caller, b"write p 0 0 61\nsync\n", b"ok\n2\n");
    let PoolCaller { alloc: _, mut pool } = caller;
    let between = opens(alloc, &mut pool, 3);
    let mut caller = PoolCaller { alloc, pool };
    let last = prints(alloc, &mut caller, b"sync\n", b"4\n");
    drop(caller);
    first && between && last
}

#[test]
fn a_pool_of_ones_own(rt: HostRuntime) {
    let alloc = rt.alloc();
    let pool = Pool::create(alloc, 1, 1000).expect(&rt, "memory");
    assert!(rt; answers_in_turn(alloc, pool));
}

/// Lines with replies of each shape, with none, and refused ones.
const LINES: [&str; 21] = [
    "create p/a",
    "# a comment",
    "",
    "write p/a 0 0 61",
    "frob",
    "write p/a 0 0",
    "create p/a",
    "read p/a 0 0",
    "read p/a 0 1",
    "read p/a 256 0",
    "snapshot p/a@s",
    "hold x p/a@s",
    "holds p/a@s",
    "view p/a@s",
    "unview 7",
    "destroy p/a@s",
    "send p/a@s",
    "get origin p/a",
    "list",
    "slice 3",
    "sync",
];

/// The lines as a script.
fn script(alloc: Global) -> Result<Vec<u8>, AllocError> {
    let mut script = Vec::new(alloc);
    for line in LINES {
        script.extend_from_slice(line.as_bytes())?;
        script.push(b'\n')?;
    }
    Ok(script)
}

/// What a pool answers to the lines one by one, and whether it refused one.
fn answers_alone(rt: &impl Abort, alloc: Global, pool: Pool) -> (Vec<u8>, bool) {
    let mut caller = PoolCaller { alloc, pool };
    let mut answers = Vec::new(alloc);
    let mut reply = Vec::new(alloc);
    let mut refused = false;
    for line in LINES {
        let answered = answer_line(alloc, &mut caller, line.as_bytes(), &mut reply);
        refused |= answered.expect(rt, "an answer").is_some();
        answers.extend_from_slice(&reply).expect(rt, "memory");
    }
    drop(caller);
    (answers, refused)
}

/// What a pool answers to the script of the lines, and whether it refused one.
fn answers_at_once(rt: &impl Abort, alloc: Global, pool: Pool) -> (Vec<u8>, bool) {
    let mut caller = PoolCaller { alloc, pool };
    let script = script(alloc).expect(rt, "memory");
    let mut reader = Counted::new(script.as_slice());
    let mut writer = Counted::new(Vec::new(alloc));
    let refused = run_script(alloc, &mut caller, &mut reader, &mut writer, false);
    drop(caller);
    (writer.inner, refused.expect(rt, "all lines are answered"))
}

#[test]
fn lines_by_themselves(rt: HostRuntime) {
    let alloc = rt.alloc();
    let one = Pool::create(alloc, 1, 1000).expect(&rt, "memory");
    let other = Pool::create(alloc, 1, 1000).expect(&rt, "memory");
    let (alone, is_one_refused) = answers_alone(&rt, alloc, one);
    let (at_once, is_other_refused) = answers_at_once(&rt, alloc, other);
    let are_same = alone.as_slice() == at_once.as_slice();
    let first: &[u8] = b"ok\nok\nerror 28 BadLine\nerror 28 BadLine\nerror 3 Exists\n61";
    assert!(rt; are_same && alone.starts_with(first) && alone.ends_with(b"\n0\n3\n"));
    assert!(rt; is_one_refused && is_other_refused);
}
