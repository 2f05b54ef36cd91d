//! The checker of certificates: `pcheck SRC OBJ CERT`.
#![tactic(auto)]

use pc_checker::{run, run_out};
use pc_passes::passes;
use std::process::ExitCode;

/// Checks with the passes over the flow graph that the compiler applies. Whatever passes are applied, what is accepted
/// means what the source means; but a certificate speaks of the regions that these passes leave.
fn main(rt: HostRuntime) -> ExitCode {
    match passes(rt.alloc()) {
        Ok(mut passes) => run(&rt, &mut passes),
        Err(_) => run_out(&rt),
    }
}
