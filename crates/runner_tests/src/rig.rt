//! Runs of the program over memory.
use base::failing::Counted;
use runner::{Args, run_args};
use std::alloc::Global;
use std::io::{BufReader, Read, Write};
use std::process::Abort;
use std::sync::Wait;
use std::thread::Threads;

/// What a run printed, to its output and to its errors, and its exit status.
#[derive(Drop)]
pub struct Ran {
    pub output: Vec<u8>,
    pub errors: Vec<u8>,
    pub status: u8,
}

impl Ran {
    /// Whether it printed this, no error, and ended with the status.
    pub fn is(&self, output: &[u8], status: u8) -> bool {
        self.output.as_slice() == output && self.errors.is_empty() && self.status == status
    }

    /// Whether it ended with the status, after this error.
    pub fn failed(&self, errors: &[u8], status: u8) -> bool {
        self.errors.as_slice() == errors && self.status == status
    }
}

/// A good command line for a pool of so many blocks with id 1.
pub fn args_of(stop: bool, blocks: u32) -> Args {
    Args {
        stop,
        workers: false,
        blocks,
        id: 1,
        script: None,
    }
}

/// The same beside workers.
pub fn beside(stop: bool, blocks: u32) -> Args {
    Args {
        stop,
        workers: true,
        blocks,
        id: 1,
        script: None,
    }
}

/// A run with a reader that gives at most seven bytes at a time.
pub fn run<R: Read + Drop>(
    rt: &(impl Threads + Wait + Abort + Sync),
    alloc: Global,
    args: Option<&Args>,
    source: R,
) -> Ran {
    let reader = BufReader::with_capacity(alloc, 7, Counted::new(source));
    let reader = reader.expect(rt, "memory for a buffer");
    run_from(rt, alloc, args, reader)
}

/// A run with a reader that has its buffer.
pub fn run_from<R: Read + Drop>(
    rt: &(impl Threads + Wait + Abort + Sync),
    alloc: Global,
    args: Option<&Args>,
    mut reader: BufReader<Counted<R>>,
) -> Ran {
    let mut output = Counted::new(Vec::new(alloc));
    let mut errors = Counted::new(Vec::new(alloc));
    let status = run_args(rt, alloc, args, &mut reader, &mut output, &mut errors);
    Ran {
        output: output.inner,
        errors: errors.inner,
        status,
    }
}

/// A run of a good command line.
pub fn run_script(
    rt: &(impl Threads + Wait + Abort + Sync),
    alloc: Global,
    args: Args,
    script: &[u8],
) -> Ran {
    run(rt, alloc, Some(&args), script)
}

/// The exit status and the errors of a run into another writer.
pub fn run_into<W: Write + Drop>(
    rt: &(impl Threads + Wait + Abort + Sync),
    alloc: Global,
    script: &[u8],
    writer: W,
) -> (u8, Vec<u8>) {
    let args = args_of(false, 1000);
    let reader = BufReader::with_capacity(alloc, 7, Counted::new(script));
    let mut reader = reader.expect(rt, "memory for a buffer");
    let mut output = Counted::new(writer);
    let mut errors = Counted::new(Vec::new(alloc));
    let status = run_args(
        rt,
        alloc,
        Some(&args),
        &mut reader,
        &mut output,
        &mut errors,
    );
    (status, errors.inner)
}
