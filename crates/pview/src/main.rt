//! The viewer: `pview OBJ [--dot]`.
#![tactic(auto)]

use pc_viewer::run;
use std::process::ExitCode;

fn main(rt: HostRuntime) -> ExitCode {
    run(&rt)
}
