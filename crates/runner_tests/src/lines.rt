//! Lines that are too long, and how a run ends. Lines of any other shape stand in `rows`.
use crate::rig::{Ran, args_of, run, run_script};
use std::alloc::{AllocError, Global};
use std::process::Abort;
use std::sync::Wait;
use std::thread::Threads;

fn prints(
    rt: &(impl Threads + Wait + Abort + Sync),
    alloc: Global,
    stop: bool,
    script: &[u8],
    output: &[u8],
    status: u8,
) -> bool {
    run_script(rt, alloc, args_of(stop, 1000), script).is(output, status)
}

#[test]
fn ends_of_a_run(rt: HostRuntime) {
    let alloc = rt.alloc();
    let refused: &[u8] = b"read p 0 0\nfrob\nread p 0 0\n";
    assert!(rt; prints(&rt, alloc, true, refused, b"hole\nerror 28 BadLine\n", 1));
    assert!(rt;
        prints(
            &rt,
            alloc,
            false,
            refused,
            b"hole\nerror 28 BadLine\nhole\n",
            0
        )
    );
    assert!(rt;
        prints(
            &rt,
            alloc,
            true,
            b"read p 0 0\nread p 0 1",
            b"hole\nhole\n",
            0
        )
    );
    assert!(rt; prints(&rt, alloc, true, b"", b"", 0));
}

/// A line of 4,194,305 of these bytes, and a read.
fn too_long(alloc: Global, byte: u8) -> Result<Vec<u8>, AllocError> {
    let mut script = vec![in alloc; byte; 4_194_305]?;
    script.extend_from_slice(b"\nread p 0 0\n")?;
    Ok(script)
}

fn prints_after_it(
    rt: &(impl Threads + Wait + Abort + Sync),
    alloc: Global,
    byte: u8,
    output: &[u8],
) -> bool {
    let script = too_long(alloc, byte).expect(rt, "memory for a script");
    prints(rt, alloc, false, script.as_slice(), output, 0)
}

#[test]
fn lines_that_are_too_long(rt: HostRuntime) {
    let alloc = rt.alloc();
    assert!(rt; prints_after_it(&rt, alloc, b'x', b"error 28 BadLine\nhole\n"));
    assert!(rt; prints_after_it(&rt, alloc, b'#', b"hole\n"));
}

/// Whether a run printed nothing but how it is used.
fn is_usage(ran: Ran) -> bool {
    let usage: &[u8] = b"usage: zfsp [-e] [-w] BLOCKS POOLID [SCRIPT]\n";
    let is_usage = ran.output.is_empty() && ran.failed(usage, 2);
    drop(ran);
    is_usage
}

#[test]
fn bad_command_lines(rt: HostRuntime) {
    let alloc = rt.alloc();
    let script: &[u8] = b"read p 0 0\n";
    let none = is_usage(run(&rt, alloc, None, script));
    let empty = is_usage(run_script(&rt, alloc, args_of(false, 0), script));
    assert!(rt; none && empty);
}
