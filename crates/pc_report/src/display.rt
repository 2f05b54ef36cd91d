//! Faults in words.
ghost use Rattle.std.specs.Prelude.{◌≡◌, Some};
ghost use Rattle.pc_report.specs.FaultLine.{speaker_text, line_fault_text, source_fault_text, object_fault_text, input_fault_text, tool_fault_text, usage_text};

use crate::fault::{InputFault, LineFault, ObjectFault, SourceFault, Speaker, ToolFault};
use crate::words::{flaw_word, machine_fault_words, trap_words};
use std::fmt;

impl fmt::Display for Speaker {
    ghost output = { λ who. Some (speaker_text who) };

    fn fmt<W: fmt::Write>(&self, f: &mut fmt::Formatter<W>) -> fmt::Result {
        f.write_str(match self {
            Speaker::Pcc => "pcc",
            Speaker::Pvm => "pvm",
            Speaker::Pview => "pview",
            Speaker::Pstat => "pstat",
            Speaker::Pasm => "pasm",
            Speaker::Pcheck => "pcheck",
            Speaker::Pexplain => "pexplain",
        })
    }
}

impl fmt::Display for LineFault {
    ghost output = { λ fault. Some (line_fault_text fault) };

    fn fmt<W: fmt::Write>(&self, f: &mut fmt::Formatter<W>) -> fmt::Result {
        f.write_str(match self {
            LineFault::BadLiteral => "bad literal",
            LineFault::OpenComment => "open comment",
            LineFault::Syntax => "syntax",
            LineFault::NestedTooDeep => "nested too deep",
            LineFault::Undeclared => "undeclared",
            LineFault::DeclaredTwice => "declared twice",
            LineFault::NotArray => "not an array",
            LineFault::NotScalar => "not a scalar",
            LineFault::BadSize => "bad size",
            LineFault::OutsideLoop => "outside a loop",
            LineFault::TooManyScalars => "too many scalars",
            LineFault::TooManyArrays => "too many arrays",
            LineFault::TooManyElements => "too many elements",
            LineFault::TooManyValues => "too many values",
            LineFault::ExpressionTooDeep => "expression too deep",
            LineFault::FunctionTwice => "function twice",
            LineFault::EarlyReturn => "early return",
            LineFault::ArrayInFunction => "array in function",
            LineFault::LooseJump => "jump outside a loop",
            LineFault::NoFunction => "no such function",
            LineFault::WrongArguments => "wrong number of arguments",
        })
    }
}

impl fmt::Display for SourceFault {
    ghost output = { λ fault. Some (source_fault_text fault) };

    fn fmt<W: fmt::Write>(&self, f: &mut fmt::Formatter<W>) -> fmt::Result {
        match self {
            SourceFault::TooLong => f.write_str("longer than 1048576 bytes"),
            SourceFault::BadByte { offset } => write!(f, "bad byte at offset {offset}"),
            SourceFault::TooManyTokens => f.write_str("too many tokens"),
            SourceFault::TooLarge { number } => write!(f, "too large: {number} nodes"),
            SourceFault::InlinedTooBig => f.write_str("inlined program too big"),
            SourceFault::InlinedTooHigh => f.write_str("inlined program too high"),
            SourceFault::AtLine { what, line } => write!(f, "{what} at line {line}"),
        }
    }
}

impl fmt::Display for ObjectFault {
    ghost output = { λ fault. Some (object_fault_text fault) };

    fn fmt<W: fmt::Write>(&self, f: &mut fmt::Formatter<W>) -> fmt::Result {
        match self {
            ObjectFault::TooLong => f.write_str("longer than 16777216 bytes"),
            ObjectFault::BadMagic => f.write_str("bad magic"),
            ObjectFault::Truncated { offset } => write!(f, "truncated at offset {offset}"),
            ObjectFault::BadField { offset, flaw } => {
                let flaw = flaw_word(*flaw);
                write!(f, "bad field at offset {offset}: {flaw}")
            }
            ObjectFault::Trailing { offset } => write!(f, "trailing bytes at offset {offset}"),
        }
    }
}

impl fmt::Display for InputFault {
    ghost output = { λ fault. Some (input_fault_text fault) };

    fn fmt<W: fmt::Write>(&self, f: &mut fmt::Formatter<W>) -> fmt::Result {
        match self {
            InputFault::TooLong => f.write_str("longer than 16777216 bytes"),
            InputFault::NotNumber { offset } => write!(f, "not a number at offset {offset}"),
        }
    }
}

/// How a program is called.
fn usage(who: Speaker) -> &'static str
    ensures { result.now ≡ usage_text who }
{
    match who {
        Speaker::Pcc => {
            "usage: pcc SRC -o OBJ [--ops N] [--tests N] [--mem N] [--window N] [--rows N] [--report]"
        }
        Speaker::Pvm => "usage: pvm OBJ [--cycles N]",
        Speaker::Pview => "usage: pview OBJ [--dot]",
        Speaker::Pstat => { "usage: pstat OBJ [--cycles N] [--rows | --trace N | --dot | --json]" }
        Speaker::Pasm => "usage: pasm TEXT -o OBJ",
        Speaker::Pcheck => "usage: pcheck SRC OBJ CERT [--make] [--why]",
        Speaker::Pexplain => {
            "usage: pexplain SRC [--ops N] [--tests N] [--mem N] [--window N] [--rows N] [--loop LINE] [--dot | --json]"
        }
    }
}

impl fmt::Display for ToolFault<'_> {
    ghost output = { λ fault. Some (tool_fault_text fault) };

    fn fmt<W: fmt::Write>(&self, f: &mut fmt::Formatter<W>) -> fmt::Result {
        match self {
            ToolFault::NoMemory { who } => write!(f, "{who}: out of memory"),
            ToolFault::Usage { who } => f.write_str(usage(*who)),
            ToolFault::ReadFile { who, name } => write!(f, "{who}: read failed: {name}"),
            ToolFault::ReadInput { who } => write!(f, "{who}: read failed: input"),
            ToolFault::Source { who, fault } => write!(f, "{who}: source: {fault}"),
            ToolFault::Object { who, fault } => write!(f, "{who}: object: {fault}"),
            ToolFault::Input { who, fault } => write!(f, "{who}: input: {fault}"),
            ToolFault::WriteFile { who, name } => write!(f, "{who}: write failed: {name}"),
            ToolFault::WriteOutput { who } => write!(f, "{who}: write failed: output"),
            ToolFault::Budget { number } => write!(f, "pvm: budget of {number} cycles spent"),
            ToolFault::Machine { fault } => {
                let fault = machine_fault_words(*fault);
                write!(f, "pvm: machine fault: {fault}")
            }
            ToolFault::Trap { kind, line } => {
                let kind = trap_words(*kind);
                write!(f, "pvm: trap: {kind} at line {line}")
            }
        }
    }
}
