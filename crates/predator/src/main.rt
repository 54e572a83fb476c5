//! The program: the call of `predator_cli` that does all, over the files of the process.
#![tactic(auto)]

use predator_cli::{predator_on_disk, system_shelf};
use std::env;
use std::marker::Brand;
use std::process::ExitCode;

fn main(rt: HostRuntime) -> ExitCode {
    let mut shelf = system_shelf::<_, Brand>(&rt, rt.stderr());
    predator_on_disk(&rt, env::args(&rt), &mut shelf)
}
