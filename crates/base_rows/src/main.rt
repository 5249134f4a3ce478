//! Rows for `base` and `stream`: refusals, limits, meters, bytes, names, readers and writers whose failures are counted, and streams.
//!
//! Each line of the standard input is a line of rows, as `row_machine` says, or a comment that begins with `#`. A row names what is asked and of
//! what, and the program prints its line again with what that tells: `name.read system p/a => yes`. A row on streams, which may tell a text, is a
//! line by itself; the module `streams` lists them. `bench/ground.py` tells the same of plain values, and has a line for each kind of row.
//!
//! Status 3 is want of memory for a line, or a failed read or write.
#![tactic(auto)]

mod broken;
mod counted;
mod names;
mod streams;
mod values;

use row_machine::lines::{Rows, line_of};
use row_machine::told::{Told, told_or_refused};
use row_machine::words::Words;
use std::alloc::Global;
use std::io;
use std::process::ExitCode;

/// What carries out rows, which keeps nothing from one to the next.
#[derive(Drop)]
struct Machine(Global);

impl Rows for Machine {
    fn row(&mut self, kind: &str, words: &mut Words) -> Told {
        told_or_refused(match kind {
            "name" => names::told(self.0, words),
            "value" => values::told(self.0, words),
            "counted" => counted::told(self.0, words),
            _ => Ok(Told::Unknown),
        })
    }
}

/// Carries out a line of rows, and prints it with what it tells.
fn print(rt: &impl Print, machine: &mut Machine, line: &str) -> io::Result<()> {
    let Some(words) = line.strip_prefix("stream.") else {
        let told = line_of(machine, line);
        return println!(rt; "{line} => {told}");
    };
    match streams::told(machine.0, words) {
        Ok(text) => println!(rt; "{line} => {text}"),
        Err(refusal) => println!(rt; "{line} => error {refusal}"),
    }
}

/// Runs the rows of the standard input.
fn run(rt: &HostRuntime) -> io::Result<()> {
    let mut machine = Machine(rt.alloc());
    for line in rt.lines(rt.alloc()) {
        let line = line?;
        let row = line.as_str();
        if row.is_empty() || row.starts_with('#') {
            println!(rt; "{row}")?;
        } else {
            print(rt, &mut machine, row)?;
        }
    }
    Ok(())
}

fn main(rt: HostRuntime) -> ExitCode {
    match run(&rt) {
        Ok(()) => ExitCode::SUCCESS,
        Err(_) => ExitCode::from(3),
    }
}
