//! The compiler: `pcc SRC -o OBJ`.
#![tactic(auto)]

use pc_passes::passes;
use pc_tool::{Who, run, run_out};
use std::process::ExitCode;

fn main(rt: HostRuntime) -> ExitCode {
    match passes(rt.alloc()) {
        Ok(mut passes) => run(&rt, Who::Pcc, &mut passes),
        Err(_) => run_out(&rt, Who::Pcc),
    }
}
