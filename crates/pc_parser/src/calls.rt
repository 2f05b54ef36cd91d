/// Whether a statement may be a call of a function.
#[derive(Clone, Copy, Debug, PartialEq, Eq)]
pub(crate) enum Calls {
    /// It may not: where one stands, the text is refused.
    Refused,
    /// It may.
    Allowed,
}
