/// The storage class with which a declaration is written (C17 6.7.1).
#[derive(Clone, Copy, Debug, PartialEq, Eq)]
pub(crate) enum Storage {
    /// None.
    Automatic,
    /// `static`
    Static,
}
