//! Why a certificate is refused.

/// Why what is left at a leaf, or what the source begins with, does not lead on. From the start there is no other end, and
/// no progress is asked for.
#[derive(Clone, Copy, Debug, PartialEq, Eq)]
pub enum LeafFlaw {
    /// The leaf is an end, and what is left does not end so.
    OtherEnd,
    /// No entry speaks of the row that comes next.
    NoEntry,
    /// The next entry's opening cannot begin with what is left: names, form variables or a tag pass 2^29; or, of tables that
    /// no source has, entering never ends, or a region, an array or a variable's home is not there.
    NoBeginning,
    /// A fact of the next entry names a parameter that its window has not.
    NoParameter,
    /// What is left begins as another window than that of the next entry, or a fact of that entry does not hold.
    NoArrival,
    /// The next entry's rank is not smaller; nor was a region entered, or a greater iteration reached where a test
    /// or a stub is left.
    NoProgress,
}

/// Why an entry of a certificate is refused.
#[derive(Clone, Copy, Debug, PartialEq, Eq)]
pub enum Flaw {
    /// The code's arrays, or the words that they begin with, are not those of the source.
    OtherData,
    /// What the source begins with does not lead to row 0's entry.
    Start { why: LeafFlaw },
    /// Neither the start nor an entry before this one leads to it, or an earlier entry speaks of its row.
    Unreached,
    /// The code has no such row. A well-formed code has each row to which something leads.
    NoRow,
    /// A step is not legal, or makes a window too large.
    IllegalStep,
    /// The row does not do what the front does.
    OtherRow,
    /// What is left at a leaf, by its number in preorder from 0, does not lead on.
    Leaf { leaf: u32, why: LeafFlaw },
}

/// The first entry that is refused, and why.
#[derive(Clone, Copy, Debug, PartialEq, Eq)]
pub struct Rejection {
    pub entry: u32,
    pub flaw: Flaw,
}
