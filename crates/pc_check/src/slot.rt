/// What a name stands for: the number of its scalar or of its array, each counted from 0 in the order
/// of declaration.
#[derive(Clone, Copy, Debug, PartialEq, Eq)]
pub enum Slot {
    Scalar { number: u8 },
    Array { number: u8 },
}
