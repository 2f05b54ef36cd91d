//! Faults, each with the line by which it is told.

use pc_machine::Flaw;
use pc_report::{InputFault, LineFault, ObjectFault, SourceFault, Speaker, ToolFault};
use pc_word::{MachineFault, TrapKind};

/// The faults of the compiler that have no kind.
pub(crate) static COMPILER: [(ToolFault<'static>, &str); 5] = [
    (
        ToolFault::NoMemory { who: Speaker::Pcc },
        "pcc: out of memory\n",
    ),
    (
        ToolFault::Usage { who: Speaker::Pcc },
        "usage: pcc SRC -o OBJ [--ops N] [--tests N] [--mem N] [--window N] [--rows N] [--report]\n",
    ),
    (
        ToolFault::ReadFile {
            who: Speaker::Pcc,
            name: "b.c",
        },
        "pcc: read failed: b.c\n",
    ),
    (
        ToolFault::WriteFile {
            who: Speaker::Pcc,
            name: "a/b.tv",
        },
        "pcc: write failed: a/b.tv\n",
    ),
    (
        ToolFault::WriteOutput { who: Speaker::Pcc },
        "pcc: write failed: output\n",
    ),
];

/// The faults of the simulator that have no kind.
pub(crate) static SIMULATOR: [(ToolFault<'static>, &str); 7] = [
    (
        ToolFault::NoMemory { who: Speaker::Pvm },
        "pvm: out of memory\n",
    ),
    (
        ToolFault::Usage { who: Speaker::Pvm },
        "usage: pvm OBJ [--cycles N]\n",
    ),
    (
        ToolFault::ReadFile {
            who: Speaker::Pvm,
            name: "b.tv",
        },
        "pvm: read failed: b.tv\n",
    ),
    (
        ToolFault::ReadInput { who: Speaker::Pvm },
        "pvm: read failed: input\n",
    ),
    (
        ToolFault::WriteFile {
            who: Speaker::Pvm,
            name: "x",
        },
        "pvm: write failed: x\n",
    ),
    (
        ToolFault::WriteOutput { who: Speaker::Pvm },
        "pvm: write failed: output\n",
    ),
    (
        ToolFault::Budget { number: 1000 },
        "pvm: budget of 1000 cycles spent\n",
    ),
];

/// The faults of the viewer.
pub(crate) static VIEWER: [(ToolFault<'static>, &str); 4] = [
    (
        ToolFault::NoMemory {
            who: Speaker::Pview,
        },
        "pview: out of memory\n",
    ),
    (
        ToolFault::Usage {
            who: Speaker::Pview,
        },
        "usage: pview OBJ [--dot]\n",
    ),
    (
        ToolFault::Object {
            who: Speaker::Pview,
            fault: ObjectFault::BadMagic,
        },
        "pview: object: bad magic\n",
    ),
    (
        ToolFault::WriteOutput {
            who: Speaker::Pview,
        },
        "pview: write failed: output\n",
    ),
];

/// The faults of the profiler.
pub(crate) static PROFILER: [(ToolFault<'static>, &str); 5] = [
    (
        ToolFault::NoMemory {
            who: Speaker::Pstat,
        },
        "pstat: out of memory\n",
    ),
    (
        ToolFault::Usage {
            who: Speaker::Pstat,
        },
        "usage: pstat OBJ [--cycles N] [--rows | --trace N | --dot | --json]\n",
    ),
    (
        ToolFault::ReadInput {
            who: Speaker::Pstat,
        },
        "pstat: read failed: input\n",
    ),
    (
        ToolFault::Input {
            who: Speaker::Pstat,
            fault: InputFault::NotNumber { offset: 3 },
        },
        "pstat: input: not a number at offset 3\n",
    ),
    (
        ToolFault::WriteOutput {
            who: Speaker::Pstat,
        },
        "pstat: write failed: output\n",
    ),
];

/// The faults of the checker.
pub(crate) static CHECKER: [(ToolFault<'static>, &str); 3] = [
    (
        ToolFault::NoMemory {
            who: Speaker::Pcheck,
        },
        "pcheck: out of memory\n",
    ),
    (
        ToolFault::Usage {
            who: Speaker::Pcheck,
        },
        "usage: pcheck SRC OBJ CERT [--make] [--why]\n",
    ),
    (
        ToolFault::WriteFile {
            who: Speaker::Pcheck,
            name: "b.cert",
        },
        "pcheck: write failed: b.cert\n",
    ),
];

/// The faults of the explainer.
pub(crate) static EXPLAINER: [(ToolFault<'static>, &str); 4] = [
    (
        ToolFault::NoMemory {
            who: Speaker::Pexplain,
        },
        "pexplain: out of memory\n",
    ),
    (
        ToolFault::Usage {
            who: Speaker::Pexplain,
        },
        "usage: pexplain SRC [--ops N] [--tests N] [--mem N] [--window N] [--rows N] [--loop LINE] [--dot | --json]\n",
    ),
    (
        ToolFault::Source {
            who: Speaker::Pexplain,
            fault: SourceFault::TooManyTokens,
        },
        "pexplain: source: too many tokens\n",
    ),
    (
        ToolFault::WriteOutput {
            who: Speaker::Pexplain,
        },
        "pexplain: write failed: output\n",
    ),
];

/// The faults of sources that have no line.
pub(crate) static SOURCES: [(SourceFault, &str); 6] = [
    (
        SourceFault::TooLong,
        "pcc: source: longer than 1048576 bytes\n",
    ),
    (
        SourceFault::BadByte { offset: 15 },
        "pcc: source: bad byte at offset 15\n",
    ),
    (SourceFault::TooManyTokens, "pcc: source: too many tokens\n"),
    (
        SourceFault::TooLarge { number: 16_387 },
        "pcc: source: too large: 16387 nodes\n",
    ),
    (
        SourceFault::InlinedTooBig,
        "pcc: source: inlined program too big\n",
    ),
    (
        SourceFault::InlinedTooHigh,
        "pcc: source: inlined program too high\n",
    ),
];

/// At line 66.
pub(crate) static LINE_FAULTS: [(LineFault, &str); 21] = [
    (
        LineFault::BadLiteral,
        "pcc: source: bad literal at line 66\n",
    ),
    (
        LineFault::OpenComment,
        "pcc: source: open comment at line 66\n",
    ),
    (LineFault::Syntax, "pcc: source: syntax at line 66\n"),
    (
        LineFault::NestedTooDeep,
        "pcc: source: nested too deep at line 66\n",
    ),
    (
        LineFault::Undeclared,
        "pcc: source: undeclared at line 66\n",
    ),
    (
        LineFault::DeclaredTwice,
        "pcc: source: declared twice at line 66\n",
    ),
    (
        LineFault::NotArray,
        "pcc: source: not an array at line 66\n",
    ),
    (
        LineFault::NotScalar,
        "pcc: source: not a scalar at line 66\n",
    ),
    (LineFault::BadSize, "pcc: source: bad size at line 66\n"),
    (
        LineFault::OutsideLoop,
        "pcc: source: outside a loop at line 66\n",
    ),
    (
        LineFault::TooManyScalars,
        "pcc: source: too many scalars at line 66\n",
    ),
    (
        LineFault::TooManyArrays,
        "pcc: source: too many arrays at line 66\n",
    ),
    (
        LineFault::TooManyElements,
        "pcc: source: too many elements at line 66\n",
    ),
    (
        LineFault::TooManyValues,
        "pcc: source: too many values at line 66\n",
    ),
    (
        LineFault::ExpressionTooDeep,
        "pcc: source: expression too deep at line 66\n",
    ),
    (
        LineFault::FunctionTwice,
        "pcc: source: function twice at line 66\n",
    ),
    (
        LineFault::EarlyReturn,
        "pcc: source: early return at line 66\n",
    ),
    (
        LineFault::ArrayInFunction,
        "pcc: source: array in function at line 66\n",
    ),
    (
        LineFault::LooseJump,
        "pcc: source: jump outside a loop at line 66\n",
    ),
    (
        LineFault::NoFunction,
        "pcc: source: no such function at line 66\n",
    ),
    (
        LineFault::WrongArguments,
        "pcc: source: wrong number of arguments at line 66\n",
    ),
];

pub(crate) static OBJECTS: [(ObjectFault, &str); 4] = [
    (
        ObjectFault::TooLong,
        "pvm: object: longer than 16777216 bytes\n",
    ),
    (ObjectFault::BadMagic, "pvm: object: bad magic\n"),
    (
        ObjectFault::Truncated { offset: 0 },
        "pvm: object: truncated at offset 0\n",
    ),
    (
        ObjectFault::Trailing { offset: 21 },
        "pvm: object: trailing bytes at offset 21\n",
    ),
];

/// At offset 20.
pub(crate) static FLAWS: [(Flaw, &str); 22] = [
    (
        Flaw::HeaderLimit,
        "pvm: object: bad field at offset 20: HeaderLimit\n",
    ),
    (
        Flaw::ArrayCount,
        "pvm: object: bad field at offset 20: ArrayCount\n",
    ),
    (
        Flaw::ArrayLength,
        "pvm: object: bad field at offset 20: ArrayLength\n",
    ),
    (
        Flaw::Elements,
        "pvm: object: bad field at offset 20: Elements\n",
    ),
    (
        Flaw::Registers,
        "pvm: object: bad field at offset 20: Registers\n",
    ),
    (
        Flaw::DataCount,
        "pvm: object: bad field at offset 20: DataCount\n",
    ),
    (
        Flaw::DataTail,
        "pvm: object: bad field at offset 20: DataTail\n",
    ),
    (
        Flaw::Version,
        "pvm: object: bad field at offset 20: Version\n",
    ),
    (
        Flaw::RowCount,
        "pvm: object: bad field at offset 20: RowCount\n",
    ),
    (Flaw::Tag, "pvm: object: bad field at offset 20: Tag\n"),
    (
        Flaw::Operator,
        "pvm: object: bad field at offset 20: Operator\n",
    ),
    (
        Flaw::OperandTag,
        "pvm: object: bad field at offset 20: OperandTag\n",
    ),
    (
        Flaw::Register,
        "pvm: object: bad field at offset 20: Register\n",
    ),
    (Flaw::Array, "pvm: object: bad field at offset 20: Array\n"),
    (
        Flaw::Target,
        "pvm: object: bad field at offset 20: Target\n",
    ),
    (Flaw::Trap, "pvm: object: bad field at offset 20: Trap\n"),
    (
        Flaw::DestTwice,
        "pvm: object: bad field at offset 20: DestTwice\n",
    ),
    (
        Flaw::EffectTwice,
        "pvm: object: bad field at offset 20: EffectTwice\n",
    ),
    (
        Flaw::TooManyOps,
        "pvm: object: bad field at offset 20: TooManyOps\n",
    ),
    (
        Flaw::TooManyTests,
        "pvm: object: bad field at offset 20: TooManyTests\n",
    ),
    (
        Flaw::TooManyMem,
        "pvm: object: bad field at offset 20: TooManyMem\n",
    ),
    (
        Flaw::Choice,
        "pvm: object: bad field at offset 20: Choice\n",
    ),
];

pub(crate) static INPUTS: [(InputFault, &str); 2] = [
    (
        InputFault::TooLong,
        "pvm: input: longer than 16777216 bytes\n",
    ),
    (
        InputFault::NotNumber { offset: 2 },
        "pvm: input: not a number at offset 2\n",
    ),
];

pub(crate) static MACHINE_FAULTS: [(MachineFault, &str); 3] = [
    (
        MachineFault::StoreOutOfRange,
        "pvm: machine fault: store out of range\n",
    ),
    (
        MachineFault::StoredTwice,
        "pvm: machine fault: element stored twice\n",
    ),
    (
        MachineFault::ReadPastEnd,
        "pvm: machine fault: read past end\n",
    ),
];

/// At line 2.
pub(crate) static TRAPS: [(TrapKind, &str); 3] = [
    (
        TrapKind::DivideByZero,
        "pvm: trap: divide by zero at line 2\n",
    ),
    (
        TrapKind::OutOfBounds,
        "pvm: trap: out of bounds at line 2\n",
    ),
    (TrapKind::EndOfInput, "pvm: trap: end of input at line 2\n"),
];
