use pc_syntax::Function;

/// Where statements stand: the functions that they may call, by how much their symbols are shifted, and
/// whether they stand in a function.
#[derive(Clone, Copy)]
pub(crate) struct Site<'a> {
    pub(crate) functions: &'a [Function],
    pub(crate) offset: u32,
    pub(crate) in_function: bool,
}
