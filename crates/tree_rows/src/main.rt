//! Rows for trees of blocks: batches of updates, trees that they change, and trees that are taken apart.
//!
//! Each line of the standard input is a line of rows, as `row_machine` says, or a comment that begins with `#`. A row names what is done and to
//! what, and the program prints its line again with what that tells: `tree.put 0 0 => 6 6 0`. `bench/ground.py` tells the same of plain maps, and
//! has a line for each kind of row.
//!
//! Status 3 is want of memory for a line, or a failed read or write.
#![tactic(auto)]

mod looks;
mod machine;
mod rig;
mod tops;
mod trees;
mod updates;

use machine::Machine;
use row_machine::lines::line_of;
use std::io;
use std::process::ExitCode;

/// Runs the rows of the standard input.
fn run(rt: &HostRuntime) -> io::Result<()> {
    let mut machine = Machine::new(rt.alloc());
    for line in rt.lines(rt.alloc()) {
        let line = line?;
        let row = line.as_str();
        if row.is_empty() || row.starts_with('#') {
            println!(rt; "{row}")?;
        } else {
            let told = line_of(&mut machine, row);
            println!(rt; "{row} => {told}")?;
        }
    }
    Ok(())
}

fn main(rt: HostRuntime) -> ExitCode {
    match run(&rt) {
        Ok(()) => ExitCode::SUCCESS,
        Err(_) => ExitCode::from(3),
    }
}
