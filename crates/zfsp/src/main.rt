//! Runs a script of requests on a fresh pool, and prints the replies.
#![tactic(auto)]

ghost use Rattle.std.specs.Prelude.{◌≡◌, ◌≤◌, ◌↔◌, IsTrue, IfOk, slice_get, option_and_then, option_copied};
ghost use Rattle.runner.specs.Args.{is_bad};

use base::failing::Counted;
use runner::{Args, print_fault, print_usage, read_args, run_args};
use script::run::ScriptFault;
use std::io::{BufReader, BufWriter, ErrorKind, Read};
use std::process::ExitCode;
use std::sync::Wait;
use std::thread::Threads;
use std::{env, fs, io};

const BUFFER_SIZE: usize = 65536;

/// Reads the command line, opens the script, and runs it. An error means that memory was refused, or that the script could not be opened.
fn serve<T: Threads + Wait + Sync>(rt: &HostRuntime, threads: &T) -> io::Result<u8>
    ensures { IfOk result (λ status. status ≤ 3) }
{
    let mut words = Vec::new(rt.alloc());
    match env::args(rt) {
        Ok(all) => {
            for word in all.skip(1) {
                words.push(word)?;
            }
        }
        Err(e) if e.kind() == ErrorKind::InvalidData => return Ok(print_usage(&mut rt.stderr())),
        Err(e) => return Err(e),
    }
    let args = read_args(words.as_slice());
    match script_of(words.as_slice(), args.as_ref()) {
        Some(path) => run_source(rt, threads, args.as_ref(), fs::open(rt, path.as_str())?),
        None => run_source(rt, threads, args.as_ref(), rt.stdin()),
    }
}

/// Runs the script that is read from `source`, and writes the replies to the standard output.
fn run_source<T: Threads + Wait + Sync, R: Read + Drop>(
    rt: &HostRuntime,
    threads: &T,
    args: Option<&Args>,
    source: R,
) -> io::Result<u8>
    ensures usage { IfOk result (λ status. (status ≡ 2) ↔ IsTrue (is_bad (option_copied args.entry))) }
    ensures most { IfOk result (λ status. status ≤ 3) }
{
    let alloc = rt.alloc();
    let mut reader = BufReader::with_capacity(alloc, BUFFER_SIZE, Counted::new(source))?;
    let mut writer = BufWriter::with_capacity(alloc, BUFFER_SIZE, Counted::new(rt.stdout()))?;
    let mut errors = Counted::new(rt.stderr());
    Ok(run_args(threads, alloc, args, &mut reader, &mut writer, &mut errors))
}

/// The word that names the script file, if there is one.
fn script_of<'a>(words: &'a [String], args: Option<&Args>) -> Option<&'a String>
    ensures { option_copied result ≡ option_and_then (λ a. option_and_then (slice_get words.now) a.script) (option_copied args.entry) }
{
    words.get(args?.script?)
}

fn main(rt: HostRuntime) -> ExitCode {
    match serve(&rt, &rt) {
        Ok(status) => ExitCode::from(status),
        Err(e) => {
            let fault = if e.kind() == ErrorKind::OutOfMemory {
                ScriptFault::NoMemory
            } else {
                ScriptFault::Device
            };
            ExitCode::from(print_fault(&mut rt.stderr(), fault))
        }
    }
}
