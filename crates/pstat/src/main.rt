//! The profiler: `pstat OBJ [--cycles N] [--rows | --trace N | --dot | --json]`.
#![tactic(auto)]

use pc_profiler::run;
use std::process::ExitCode;

fn main(rt: HostRuntime) -> ExitCode {
    run(&rt)
}
