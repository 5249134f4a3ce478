//! The program's command line, runs of a script on a fresh pool with their exit status, and a pool as a caller that answers a script.
#![tactic(auto)]

mod args;
mod beside;
mod caller;
mod copies;
mod run;
mod seated;
mod turns;

pub use args::{Args, read_args};
pub use caller::{PoolCaller, unserved_laws};
pub use run::{print_fault, print_usage, run_args};
pub use session::Pool;
