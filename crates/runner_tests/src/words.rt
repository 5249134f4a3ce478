//! Command lines and words.
use runner::read_args;
use script::examples::{one_spelling, worked_lines};
use script::parse::number;
use script::run::ScriptFault;
use std::alloc::{AllocError, Global};
use std::process::Abort;

fn words_of(alloc: Global, line: &str) -> Result<Vec<String>, AllocError> {
    let mut words = Vec::new(alloc);
    for word in line.split(' ') {
        add_word(alloc, &mut words, word)?;
    }
    Ok(words)
}

fn add_word(alloc: Global, words: &mut Vec<String>, word: &str) -> Result<(), AllocError> {
    let word = String::from_str(alloc, word)?;
    words.push(word)?;
    Ok(())
}

/// Whether the words of a line, joined by spaces, are a good command line.
fn is_good(rt: &impl Abort, alloc: Global, line: &str) -> bool {
    let words = words_of(alloc, line).expect(rt, "memory for words");
    read_args(words.as_slice()).is_some()
}

#[test]
fn good_command_lines(rt: HostRuntime) {
    for line in "4194304 4294967295,5 1 -e,-e 5 1 x,-e -w 5 1 x".split(',') {
        assert!(rt; is_good(&rt, rt.alloc(), line), "{line}");
    }
}

#[test]
fn bad_command_lines(rt: HostRuntime) {
    let lines =
        "0 1,5 0,4194305 1,5 4294967296,05 1,+5 1,5,-e,-w,-e -e 5 1,-w -w 5 1,-w -e 5 1,5 1 x y";
    for line in lines.split(',') {
        assert!(rt; !is_good(&rt, rt.alloc(), line), "{line}");
    }
}

/// Whether a command line says to stop and to run beside workers or not, 5 blocks, the id 1, and a script at this place.
fn says(
    rt: &impl Abort,
    alloc: Global,
    line: &str,
    options: (bool, bool),
    script: Option<usize>,
) -> bool {
    let words = words_of(alloc, line).expect(rt, "memory for words");
    let args = read_args(words.as_slice());
    drop(words);
    match args {
        Some(args) => {
            (args.stop, args.workers) == options
                && args.blocks == 5
                && args.id == 1
                && args.script == script
        }
        None => false,
    }
}

#[test]
fn what_command_lines_say(rt: HostRuntime) {
    let alloc = rt.alloc();
    let without_script = says(&rt, alloc, "5 1", (false, false), None)
        && says(&rt, alloc, "-e 5 1", (true, false), None)
        && says(&rt, alloc, "-w 5 1", (false, true), None);
    let with_script = says(&rt, alloc, "5 1 -w", (false, false), Some(2))
        && says(&rt, alloc, "-e 5 1 x", (true, false), Some(3))
        && says(&rt, alloc, "-w 5 1 x", (false, true), Some(3))
        && says(&rt, alloc, "-e -w 5 1 x", (true, true), Some(4));
    assert!(rt; without_script && with_script);
}

#[test]
fn numbers_and_laws(rt: HostRuntime) {
    let are_read = number(b"4294967295") == Some(4294967295)
        && number(b"4294967296") == None
        && number(b"0") == Some(0);
    let are_faults = ScriptFault::of_counts(1, 2) == ScriptFault::Device
        && ScriptFault::of_counts(2, 2) == ScriptFault::NoMemory
        && ScriptFault::of_counts(u64::MAX, u64::MAX) == ScriptFault::Device;
    assert!(rt; are_read && are_faults);
    worked_lines();
    one_spelling();
}
