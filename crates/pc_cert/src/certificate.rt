use pc_word::Seq;

/// Where a row has a value: in a register, or as a literal.
#[derive(Clone, Copy, Debug, PartialEq, Eq)]
pub enum Source {
    Register(u8),
    Literal(i32),
}

/// Where a window has a value: as a parameter, which has the number of its place, from 0, in the order in which
/// parameters are first used, or as a literal.
#[derive(Clone, Copy, Debug, PartialEq, Eq)]
pub enum WindowOperand {
    Parameter(u16),
    Literal(i32),
}

/// That a register or a literal has the value of an operand of a window.
#[derive(Clone, Copy, Debug, PartialEq, Eq)]
pub struct Fact {
    pub source: Source,
    pub operand: WindowOperand,
}

/// What a window is made of before its steps.
///
/// Where `enters`, a window that is a stub alone is taken as the region that it stands for. `window` is how many
/// iterations the window is unwound to, from 1 to 8, or 0 if it is not unwound, and `inside` the loop whose iterations
/// it counts, if there is one.
#[derive(Clone, Copy, Debug, PartialEq, Eq)]
pub struct Opening {
    pub enters: bool,
    pub window: u8,
    pub inside: Option<u16>,
}

/// A change of a window. Items and tests are named by their numbers, and leaves by theirs, in preorder from 0.
#[derive(Clone, Copy, Debug, PartialEq, Eq)]
pub enum Step {
    /// The item or test comes to the end of the front's path.
    Bring {
        place: u16,
    },
    /// Two equal items, on the two sides of a test, become one above it.
    Join {
        branch: u16,
        on_yes: u16,
        on_no: u16,
    },
    /// A stub becomes its region's tree, with tags as for the loop that the region is in.
    Open {
        leaf: u16,
    },
    /// A stub becomes its region's tree, with tags as for the loop whose header the region is; before it, each home gets
    /// a new name by a copy.
    Enter {
        leaf: u16,
    },
    /// Below a copy, in one item, test or stub, the copy's name and its operand take each other's place.
    Use {
        copy: u16,
        place: u16,
    },
}

/// Facts, in any order.
pub type FactList = Seq<Fact>;

/// Steps, in the order in which they are done.
pub type StepList = Seq<Step>;

/// What a certificate says of one row: the facts that hold where it begins as this entry says, and the steps by which the
/// window that is then still to be run becomes one whose front the row does.
///
/// Ranks show progress: a leaf leads to an entry of a smaller rank, unless a region is entered on the way or a greater
/// iteration is reached while a test or a stub is left.
#[derive(Debug, Drop)]
pub struct Entry {
    pub row: u32,
    pub rank: u32,
    pub facts: FactList,
    pub opening: Opening,
    pub steps: StepList,
}

/// Entries, in any order; that row 0 has one is not asked here.
pub type EntryList = Seq<Entry>;

/// What is claimed of a code, row by row.
#[derive(Debug, Drop)]
pub struct Certificate {
    pub entries: EntryList,
}
