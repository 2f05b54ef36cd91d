//! The limits of source programs, of the machine, of objects and of their input.

/// Bytes of a source text.
pub const MOST_SOURCE: usize = 1_048_576;

/// Tokens of a source text.
pub const MOST_TOKENS: usize = 65_536;

/// The height of a program.
pub const MOST_HEIGHT: usize = 256;

/// Scalars of a program.
pub const MOST_SCALARS: u32 = 64;

/// Temporaries of an expression.
pub const MOST_TEMPORARIES: u32 = 32;

/// Nodes of a flow graph.
pub const MOST_NODES: u32 = 16_384;

/// Items that a row's limits may allow.
pub const MOST_OPS: u8 = 32;

/// Tests that a row's limits may allow.
pub const MOST_TESTS: u8 = 7;

/// Loads and stores together that a row's limits may allow.
pub const MOST_MEM: u8 = 32;

/// Arrays of a program, and of a code.
pub const MOST_ARRAYS: usize = 32;

/// Elements of one array.
pub const MOST_LENGTH: u32 = 65_536;

/// Elements of all arrays together.
pub const MOST_ELEMENTS: u32 = 1_048_576;

/// Bytes of an object.
pub const MOST_OBJECT: usize = 16_777_216;

/// Bytes of an input.
pub const MOST_INPUT: usize = 16_777_216;

/// Turns of a loop that a window may hold.
pub const MOST_WINDOW: u8 = 8;

/// Rows that the schedule of a window may have.
pub const MOST_ROWS: u16 = 512;

/// Cycles of a run.
pub const MOST_CYCLES: u64 = 1_000_000_000_000;
