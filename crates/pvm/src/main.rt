//! The simulator: `pvm OBJ`.
#![tactic(auto)]

use pc_pass::Pass;
use pc_tool::{Who, run};
use std::process::ExitCode;

fn main(rt: HostRuntime) -> ExitCode {
    let mut passes: Vec<Box<dyn Pass>> = Vec::new(rt.alloc());
    run(&rt, Who::Pvm, &mut passes)
}
