//! What the programs have to tell when they do not end with success.
use pc_machine::Flaw;
use pc_word::{MachineFault, TrapKind};

/// The program that speaks.
#[derive(Clone, Copy, Debug, PartialEq, Eq)]
pub enum Speaker {
    /// The compiler.
    Pcc,
    /// The simulator.
    Pvm,
    /// The viewer.
    Pview,
    /// The profiler.
    Pstat,
    /// The assembler.
    Pasm,
    /// The checker of certificates.
    Pcheck,
    /// The explainer of schedules.
    Pexplain,
}

/// Why a program does not end with success. It borrows the name of a file.
#[derive(Clone, Copy, Debug)]
pub enum ToolFault<'a> {
    /// Memory ran out.
    NoMemory { who: Speaker },
    /// The words of the command line are no command.
    Usage { who: Speaker },
    /// A file was not read.
    ReadFile { who: Speaker, name: &'a str },
    /// The input was not read.
    ReadInput { who: Speaker },
    /// The source is refused.
    Source { who: Speaker, fault: SourceFault },
    /// The object is refused.
    Object { who: Speaker, fault: ObjectFault },
    /// The input is refused.
    Input { who: Speaker, fault: InputFault },
    /// A file was not written.
    WriteFile { who: Speaker, name: &'a str },
    /// The output was not written.
    WriteOutput { who: Speaker },
    /// The run did not end within this number of cycles.
    Budget { number: u64 },
    /// The machine could not run a row.
    Machine { fault: MachineFault },
    /// The run was stopped by a trap, whose line in the source is counted from 1.
    Trap { kind: TrapKind, line: u32 },
}

/// Why a source is refused.
#[derive(Clone, Copy, Debug, PartialEq, Eq)]
pub enum SourceFault {
    /// It has more than 1,048,576 bytes.
    TooLong,
    /// A byte outside of comments begins no token. Offsets are counted from 0.
    BadByte { offset: u32 },
    /// It has more than 65,536 tokens.
    TooManyTokens,
    /// Its flow graph would have this number of nodes, which is more than 16,384.
    TooLarge { number: u32 },
    /// With its calls inlined it would have more than 65,536 statements, or more than 262,144 nodes of
    /// expressions.
    InlinedTooBig,
    /// With its calls inlined it would be nested more than 256 deep.
    InlinedTooHigh,
    /// A fault that has a line, counted from 1.
    AtLine { what: LineFault, line: u32 },
}

/// The faults of a source that have a line.
#[derive(Clone, Copy, Debug, PartialEq, Eq)]
pub enum LineFault {
    /// A number is no literal.
    BadLiteral,
    /// A comment does not end.
    OpenComment,
    /// No program reads so.
    Syntax,
    /// Statements or expressions are nested too deep.
    NestedTooDeep,
    /// A name is not declared.
    Undeclared,
    /// A name is declared twice in one scope.
    DeclaredTwice,
    /// What is no array is used as one.
    NotArray,
    /// What is no scalar is used as one.
    NotScalar,
    /// The length of an array is none.
    BadSize,
    /// A `break` or `continue` stands outside a loop.
    OutsideLoop,
    /// There are more than 64 scalars.
    TooManyScalars,
    /// There are more than 32 arrays.
    TooManyArrays,
    /// There are more than 1,048,576 elements in all.
    TooManyElements,
    /// An array has more values than elements.
    TooManyValues,
    /// An expression needs more than 32 temporaries.
    ExpressionTooDeep,
    /// A function has the name of an earlier one.
    FunctionTwice,
    /// A `return` of a function is not the last item of its block.
    EarlyReturn,
    /// A function declares an array.
    ArrayInFunction,
    /// A `break` or `continue` stands in no loop of its function.
    LooseJump,
    /// What is called is no function that was completed before.
    NoFunction,
    /// A call has more arguments than the function has parameters, or fewer.
    WrongArguments,
}

/// Why an object is refused. Offsets are those of bytes, counted from 0.
#[derive(Clone, Copy, Debug, PartialEq, Eq)]
pub enum ObjectFault {
    /// It has more than 16,777,216 bytes.
    TooLong,
    /// It does not begin as an object does.
    BadMagic,
    /// It ends before a field that is due.
    Truncated { offset: u32 },
    /// A field has this flaw.
    BadField { offset: u32, flaw: Flaw },
    /// A byte follows where it should have ended.
    Trailing { offset: u32 },
}

/// Why the input of the simulator is refused.
#[derive(Clone, Copy, Debug, PartialEq, Eq)]
pub enum InputFault {
    /// It has more than 16,777,216 bytes.
    TooLong,
    /// The word whose first byte is at this offset, counted from 0, spells no number.
    NotNumber { offset: u32 },
}
