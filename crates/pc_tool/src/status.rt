//! How a program ends.

use pc_compile::Compiled;

/// How a program ends.
#[derive(Debug, Drop)]
pub struct Status {
    /// The process's exit status.
    pub code: u8,
    /// What was compiled, exactly where the compiler ends with 0: the object that was written; the flow graph that
    /// the passes made of the program's own; the regions that it is cut into; and the form that was chosen for each
    /// reachable one, of which the report's notes tell.
    pub compiled: Option<Compiled>,
}
