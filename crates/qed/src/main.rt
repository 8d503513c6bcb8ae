//! The program `qed`, over the machine's arguments, files and standard output.
#![tactic(auto)]

use qed_top::run_program;
use std::process::ExitCode;

fn main(rt: HostRuntime) -> ExitCode {
    run_program(&rt)
}
