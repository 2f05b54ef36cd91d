//! Operators, operands, items and ends: the vocabulary of graphs, windows and rows.
ghost use Rattle.std.specs.Prelude.{◌≡◌, List};
ghost use Rattle.pc_word.specs.Items.{op_number, operands_of, operand_list, dest_of, array_of, is_memory, is_effect, only_computes, reads_name, reads};
ghost use Rattle.pc_word.specs.Commit.{writes};
ghost use Rattle.pc_word.specs.Naming.{with_dest, MapsOperands, MapsDest, MapsName};

/// A binary operator on words.
#[derive(Clone, Copy, Debug, PartialEq, Eq)]
pub enum OpCode {
    Add,
    Sub,
    Mul,
    Div,
    Rem,
    Shl,
    Shr,
    And,
    Or,
    Xor,
    Less,
    LessEq,
    Equal,
    Unequal,
    Below,
}

/// What an operation reads: a name or a literal word.
///
/// A name is a variable in a flow graph, a window name in a window and a register in a row.
#[derive(Clone, Copy, Debug, PartialEq, Eq)]
pub enum Operand {
    Name(u32),
    Lit(i32),
}

impl OpCode {
    /// Its number, in the order in which they are listed.
    pub fn number(self) -> u8
        ensures { result ≡ op_number self }
    {
        match self {
            OpCode::Add => 0,
            OpCode::Sub => 1,
            OpCode::Mul => 2,
            OpCode::Div => 3,
            OpCode::Rem => 4,
            OpCode::Shl => 5,
            OpCode::Shr => 6,
            OpCode::And => 7,
            OpCode::Or => 8,
            OpCode::Xor => 9,
            OpCode::Less => 10,
            OpCode::LessEq => 11,
            OpCode::Equal => 12,
            OpCode::Unequal => 13,
            OpCode::Below => 14,
        }
    }
}

impl Operand {
    /// Whether it is this name.
    pub fn is_name(self, name: u32) -> bool
        ensures { result ≡ reads_name self name }
    {
        match self {
            Operand::Name(read) => read == name,
            Operand::Lit(_) => false,
        }
    }

    /// The operand with what `f` gives in place of its name.
    pub fn map_name<F: FnOnce(u32) -> u32>(self, f: F) -> Operand
        requires { F.IsAlwaysCallable f }
        ensures { MapsName (F.post f) self result }
    {
        match self {
            Operand::Name(name) => Operand::Name(f(name)),
            Operand::Lit(_) => self,
        }
    }
}

/// One operation other than a test.
#[derive(Clone, Copy, Debug, PartialEq, Eq)]
pub enum Item {
    Bin {
        op: OpCode,
        dest: u32,
        left: Operand,
        right: Operand,
    },
    Copy {
        dest: u32,
        from: Operand,
    },
    Load {
        dest: u32,
        array: u8,
        index: Operand,
    },
    Store {
        array: u8,
        index: Operand,
        value: Operand,
    },
    Print {
        value: Operand,
    },
    Read {
        dest: u32,
    },
    More {
        dest: u32,
    },
}

/// What an item reads, in the order in which it names them.
#[derive(Clone, Copy, Debug, PartialEq, Eq)]
pub enum Operands {
    None,
    One(Operand),
    Two(Operand, Operand),
}

impl Item {
    /// What it reads.
    pub fn operands(self) -> Operands
        ensures { operand_list result ≡ operands_of self }
    {
        match self {
            Item::Bin { left, right, .. } => Operands::Two(left, right),
            Item::Copy { from, .. } => Operands::One(from),
            Item::Load { index, .. } => Operands::One(index),
            Item::Store { index, value, .. } => Operands::Two(index, value),
            Item::Print { value } => Operands::One(value),
            Item::Read { .. } | Item::More { .. } => Operands::None,
        }
    }

    /// The name that it writes, if any.
    pub fn dest(self) -> Option<u32>
        ensures { result ≡ dest_of self }
    {
        match self {
            Item::Bin { dest, .. } | Item::Copy { dest, .. } => Some(dest),
            Item::Load { dest, .. } | Item::Read { dest } | Item::More { dest } => Some(dest),
            Item::Store { .. } | Item::Print { .. } => None,
        }
    }

    /// The array that it loads from or stores into, if any.
    pub fn array(self) -> Option<u8>
        ensures { result ≡ array_of self }
    {
        match self {
            Item::Load { array, .. } | Item::Store { array, .. } => Some(array),
            _ => None,
        }
    }

    /// Whether it is a load or store.
    pub fn is_memory(self) -> bool
        ensures { result ≡ is_memory self }
    {
        matches!(self, Item::Load { .. } | Item::Store { .. })
    }

    /// Whether it is a print, read or more, of which a path of a row has at most one.
    pub fn is_effect(self) -> bool
        ensures { result ≡ is_effect self }
    {
        matches!(
            self,
            Item::Print { .. } | Item::Read { .. } | Item::More { .. }
        )
    }

    /// Whether all that it does is to give its name a word. Where nothing reads that name, such an
    /// item may be done or left out.
    pub fn only_computes(self) -> bool
        ensures { result ≡ only_computes self }
    {
        matches!(
            self,
            Item::Bin { .. } | Item::Copy { .. } | Item::Load { .. }
        )
    }

    /// Whether it reads a name.
    pub fn reads(self, name: u32) -> bool
        ensures { result ≡ reads self name }
    {
        match self {
            Item::Bin { left, right, .. } => left.is_name(name) || right.is_name(name),
            Item::Copy { from, .. } => from.is_name(name),
            Item::Load { index, .. } => index.is_name(name),
            Item::Store { index, value, .. } => index.is_name(name) || value.is_name(name),
            Item::Print { value } => value.is_name(name),
            Item::Read { .. } | Item::More { .. } => false,
        }
    }

    /// Whether it writes a name.
    pub fn writes(self, name: u32) -> bool
        ensures { result ≡ writes (dest_of self) name }
    {
        match self.dest() {
            Some(dest) => dest == name,
            None => false,
        }
    }

    /// The item that writes this name in place of its own, if it writes one.
    pub fn with_dest(self, name: u32) -> Item
        ensures { result ≡ with_dest name self }
    {
        match self {
            Item::Bin {
                op,
                left,
                right,
                ..
            } => Item::Bin {
                op,
                dest: name,
                left,
                right,
            },
            Item::Copy { from, .. } => Item::Copy { dest: name, from },
            Item::Load { array, index, .. } => Item::Load {
                dest: name,
                array,
                index,
            },
            Item::Read { .. } => Item::Read { dest: name },
            Item::More { .. } => Item::More { dest: name },
            Item::Store { .. } | Item::Print { .. } => self,
        }
    }

    /// The item with what `f` gives in place of the name that it writes, if it writes one.
    pub fn map_dest<F: FnOnce(u32) -> u32>(self, f: F) -> Item
        requires { F.IsAlwaysCallable f }
        ensures { MapsDest (F.post f) self result }
    {
        match self.dest() {
            Some(dest) => self.with_dest(f(dest)),
            None => self,
        }
    }

    /// The item with what `f` gives in place of each operand.
    pub fn map_operands<F: Fn(Operand) -> Operand>(self, f: F) -> Item
        requires { F.IsAlwaysCallable f }
        ensures { MapsOperands (F.post f) self result }
    {
        match self {
            Item::Bin {
                op,
                dest,
                left,
                right,
            } => Item::Bin {
                op,
                dest,
                left: f(left),
                right: f(right),
            },
            Item::Copy { dest, from } => Item::Copy {
                dest,
                from: f(from),
            },
            Item::Load { dest, array, index } => Item::Load {
                dest,
                array,
                index: f(index),
            },
            Item::Store {
                array,
                index,
                value,
            } => Item::Store {
                array,
                index: f(index),
                value: f(value),
            },
            Item::Print { value } => Item::Print { value: f(value) },
            Item::Read { .. } | Item::More { .. } => self,
        }
    }
}

/// Why a program is stopped by a trap.
#[derive(Clone, Copy, Debug, PartialEq, Eq)]
pub enum TrapKind {
    DivideByZero,
    OutOfBounds,
    EndOfInput,
}

/// Why a machine cannot run a row. A row that faults commits and prints nothing.
#[derive(Clone, Copy, Debug, PartialEq, Eq)]
pub enum MachineFault {
    StoreOutOfRange,
    StoredTwice,
    ReadPastEnd,
}

/// How a run ends, whatever runs: a source, a graph or a machine.
#[derive(Clone, Copy, Debug, PartialEq, Eq)]
pub enum End {
    Ended,
    Trapped { kind: TrapKind, line: u32 },
    Fault { fault: MachineFault },
}

/// How many items, tests, and loads and stores together a row may have, over its whole tree.
#[derive(Clone, Copy, Debug, PartialEq, Eq)]
pub struct Limits {
    pub ops: u8,
    pub tests: u8,
    pub mem: u8,
}

/// How many turns of a loop a window may hold, and how many rows its schedule may have.
#[derive(Clone, Copy, Debug, PartialEq, Eq)]
pub struct Extent {
    pub window: u8,
    pub rows: u16,
}
