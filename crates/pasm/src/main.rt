//! The assembler: `pasm TEXT -o OBJ`.
#![tactic(auto)]

use pc_assembler::run;
use std::process::ExitCode;

fn main(rt: HostRuntime) -> ExitCode {
    run(&rt)
}
