/// A loop of a program: the line of its keyword, the node of the flow graph that the lowering made
/// its header, and the loop that it stands in, if any, which has a smaller number.
#[derive(Clone, Copy, Debug, PartialEq, Eq)]
pub struct LoopMark {
    pub line: u32,
    pub header: u32,
    pub outer: Option<u16>,
}
