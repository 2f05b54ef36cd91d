use crate::tree::Tree;
use pc_word::{DataList, LengthList, Limits, Seq};

/// The fewer registers that a code may ask for.
pub const FEW_REGISTERS: usize = 128;

/// The most registers that a code may ask for.
pub const MOST_REGISTERS: usize = 256;

/// Rows, by number.
pub type TreeList = Seq<Tree>;

/// What the machine runs: the limits that each row keeps, how many registers there are, the lengths
/// of its arrays, the words with which each begins, and its rows. Row 0 is the entry.
///
/// An array goes on with 0 after its words, so these do not end in 0.
#[derive(Debug, Drop)]
pub struct Code {
    pub limits: Limits,
    pub registers: u16,
    pub arrays: LengthList,
    pub initial: DataList,
    pub rows: TreeList,
}

/// What is wrong with a code, each at the field of its text where it stands.
#[derive(Clone, Copy, Debug, PartialEq, Eq)]
pub enum Flaw {
    /// At a limit: items or loads and stores not 1 to 32, or tests not 1 to 7.
    HeaderLimit,
    /// At the number of arrays: more than 32.
    ArrayCount,
    /// At the number of registers: neither 128 nor 256.
    Registers,
    /// At the length of an array: not 1 to 65,536.
    ArrayLength,
    /// At the length of the array with which there are more than 1,048,576 elements.
    Elements,
    /// At the count of an array's words: more than its elements. Also where there are not as many
    /// lists of words as arrays, which no text has.
    DataCount,
    /// At the last of an array's words: 0.
    DataTail,
    /// At the number of registers: there are 128 and no array has words, so that the shorter
    /// version of the format is due. Only a text has such a number.
    Version,
    /// At the number of rows: none.
    RowCount,
    /// At a number that is no tag of an item, test or leaf. Only a text has such a number.
    Tag,
    /// At a number that is no operator. Only a text has such a number.
    Operator,
    /// At a number that is neither the tag of a register nor that of a literal. Only a text has
    /// such a number.
    OperandTag,
    /// At a register that is not below the number of registers, written or read.
    Register,
    /// At the array of a load or store: not below the number of arrays.
    Array,
    /// At the row that a goto leads to: not below the number of rows.
    Target,
    /// At a number that is no kind of trap. Only a text has such a number.
    Trap,
    /// At the register that an item writes, which an item above it on its path writes too.
    DestTwice,
    /// At the tag of a print, read or more with another one above it on its path.
    EffectTwice,
    /// At the tag of an item, with which its row's tree has more items than the limit.
    TooManyOps,
    /// At the tag of a test, with which its row's tree has more tests than the limit.
    TooManyTests,
    /// At the tag of a load or store, with which its row's tree has more of these than the limit.
    TooManyMem,
    /// At the choice of a note: above 7. Notes stand beside the code.
    Choice,
}
