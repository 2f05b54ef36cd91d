//! How the checker ends.

use pc_middle::CutProgram;

/// How the checker ends.
#[derive(Debug, Drop)]
pub struct Verdict {
    /// The process's exit status.
    pub code: u8,
    /// What the certificate was held against, exactly where the checker ends with 0 or 8: the flow graph that the passes
    /// made of the source's own, and the regions that it is cut into.
    pub cut: Option<CutProgram>,
}
