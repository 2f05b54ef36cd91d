//! The explainer of schedules: `pexplain SRC`.
#![tactic(auto)]

use pc_explainer::{run, run_out};
use pc_passes::passes;
use std::process::ExitCode;

/// Explains with the passes over the flow graph that the compiler applies, so that what is told is what the compiler
/// finds with the same words.
fn main(rt: HostRuntime) -> ExitCode {
    match passes(rt.alloc()) {
        Ok(mut passes) => run(&rt, &mut passes),
        Err(_) => run_out(&rt),
    }
}
