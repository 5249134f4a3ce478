//! Scripts beside workers. What a line sees of the workers is open, so these lines are answered the same whatever they do, or are
//! only counted.
use crate::rig::{Ran, beside, run, run_from, run_script};
use base::failing::Counted;
use std::alloc::Global;
use std::io::{self, BufReader, ErrorKind, Read};
use std::process::Abort;
use std::sync::Wait;
use std::thread::Threads;

fn prints(
    rt: &(impl Threads + Wait + Abort + Sync),
    alloc: Global,
    stop: bool,
    script: &[u8],
    output: &[u8],
    status: u8,
) -> bool {
    run_script(rt, alloc, beside(stop, 1000), script).is(output, status)
}

const NO_MEMORY: &[u8] = b"zfsp: no memory\n";

/// How many lines there are.
fn count_of(lines: &[u8]) -> usize {
    lines.iter().filter(|byte| **byte == b'\n').count()
}

const FREEING: &[u8] =
    b"create p/a\nwrite p/a 0 0 61\nsnapshot p/a@s\nwrite p/a 0 0 62\ndestroy p/a@s\npget freeing\nslice 4\nsync\npget waiting\n";

#[test]
fn each_line_is_answered_once(rt: HostRuntime) {
    let ran = run_script(&rt, rt.alloc(), beside(false, 1000), FREEING);
    let is_right = answers_each_once(&ran);
    drop(ran);
    assert!(rt; is_right);
}

fn answers_each_once(ran: &Ran) -> bool {
    let output = ran.output.as_slice();
    ran.status == 0
        && ran.errors.is_empty()
        && count_of(output) == 9
        && output.starts_with(b"ok\nok\nok\nok\nok\n")
}

#[test]
fn replies_that_workers_leave(rt: HostRuntime) {
    let script: &[u8] =
        b"create p/a\ncreate p/a\nread p/a 0 0\nwrite p/a 0 0 61\nget referenced p/a\nsnapshot p/a@s\nlist\nslice 0\npget size\n";
    let output: &[u8] = b"ok\nerror 3 Exists\nhole\nok\n3072\nok\np p/a p/a@s\n0\n512000\n";
    assert!(rt; prints(&rt, rt.alloc(), false, script, output, 0));
}

#[test]
fn views_of_a_seat(rt: HostRuntime) {
    let script: &[u8] =
        b"create p/a\nwrite p/a 0 0 61\nsnapshot p/a@s\nview p/a@s\nview p/a@s\nunview 7\ndestroy p/a@s\nunview 1\nunview 1\ndestroy p/a@s\nview p/a\n";
    let output: &[u8] =
        b"ok\nok\nok\n1\n2\nerror 26 NoView\nerror 8 Busy\nok\nerror 26 NoView\nerror 8 Busy\nerror 7 NotSnapshot\n";
    assert!(rt; prints(&rt, rt.alloc(), false, script, output, 0));
}

// An empty snapshot has a stream of 63 bytes, also from an empty source: one record frees everything. Another program worked the bytes out.
#[test]
fn streams_of_a_seat(rt: HostRuntime) {
    let script: &[u8] =
        b"snapshot p@e\nsend p@e\nreceive p/e@e 5a445354524d3031000000000000000000000001000000010205000000000050fed7b6eeab8585615f1a7bbd4891f18f387321be0d41a66f6966a798ba22bd\nreceive p/e@e 5a445354524d3031000000000000000000000001000000010205000000000050fed7b6eeab8585615f1a7bbd4891f18f387321be0d41a66f6966a798ba22bd\nreceive p/f@f 5a445354524d3031000000000000000000000001000000010205000000000050fed7b6eeab8585615f1a7bbd4891f18f387321be0d41a66f6966a798ba2200\nget referenced p/e\nget guid p/e@e\nbookmark p/e@e p/e#b\nsnapshot p/e@f\nsend -i p/e#b p/e@f\n";
    let output: &[u8] =
        b"ok\n5a445354524d3031000000000000000000000001000000010205000000000050fed7b6eeab8585615f1a7bbd4891f18f387321be0d41a66f6966a798ba22bd\nok\nerror 3 Exists\nerror 22 BadStream\n0\n4294967297\nok\nok\n5a445354524d30310000000100000001000000010000000202050000000000014f3b25ae89fc0825ded3b64a25429515f2417cd915e33fc197522d30351e9e\n";
    assert!(rt; prints(&rt, rt.alloc(), false, script, output, 0));
}

#[test]
fn stops_at_the_first_refused_line(rt: HostRuntime) {
    let alloc = rt.alloc();
    let bad: &[u8] = b"read p 0 0\nfrob\nread p 0 0\n";
    let refused: &[u8] = b"create p/a\ncreate p/a\nread p 0 0\n";
    let are_right = prints(&rt, alloc, true, bad, b"hole\nerror 28 BadLine\n", 1)
        && prints(&rt, alloc, true, refused, b"ok\nerror 3 Exists\n", 1)
        && prints(&rt, alloc, true, b"", b"", 0);
    assert!(rt; are_right);
}

#[test]
fn bad_numbers(rt: HostRuntime) {
    let usage: &[u8] = b"usage: zfsp [-e] [-w] BLOCKS POOLID [SCRIPT]\n";
    let empty = run_script(&rt, rt.alloc(), beside(false, 0), FREEING);
    let is_usage = empty.output.is_empty() && empty.failed(usage, 2);
    drop(empty);
    assert!(rt; is_usage);
}

/// A reader that fails after so many reads.
#[derive(Drop)]
struct Failing<T> {
    inner: T,
    reads: u32,
}

impl<R: Read> Read for Failing<R> {
    fn read(&mut self, buf: &mut [u8]) -> io::Result<usize> {
        if self.reads == 0 {
            return Err(io::Error::from(ErrorKind::Other));
        }
        self.reads -= 1;
        self.inner.read(buf)
    }
}

#[test]
fn a_reader_that_fails(rt: HostRuntime) {
    let source = Failing {
        inner: FREEING,
        reads: 5,
    };
    let ran = run(&rt, rt.alloc(), Some(&beside(false, 1000)), source);
    let is_told = ran.failed(b"zfsp: input or output failed\n", 3);
    drop(ran);
    assert!(rt; is_told);
}

/// Run it with each allocation refused in turn: each line has an answer, or the run says that memory was wanting where there is
/// memory to say so.
#[test]
fn refused_memory_is_told(rt: HostRuntime) {
    let Ok(reader) = BufReader::with_capacity(rt.alloc(), 7, Counted::new(FREEING)) else {
        return;
    };
    let ran = run_from(&rt, rt.alloc(), Some(&beside(false, 1000)), reader);
    let is_told = is_told(&ran);
    drop(ran);
    assert!(rt; is_told);
}

fn is_told(ran: &Ran) -> bool {
    match ran.status {
        0 => count_of(ran.output.as_slice()) == 9,
        3 => ran.errors.is_empty() || ran.errors.as_slice() == NO_MEMORY,
        _ => false,
    }
}
