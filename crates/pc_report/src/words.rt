//! The words for what other crates name.
ghost use Rattle.std.specs.Prelude.{◌≡◌};
ghost use Rattle.pc_report.specs.FaultLine.{flaw_text, machine_fault_text, trap_text};

use pc_machine::Flaw;
use pc_word::{MachineFault, TrapKind};

/// The name of a flaw.
pub(crate) fn flaw_word(flaw: Flaw) -> &'static str
    ensures { result.now ≡ flaw_text flaw }
{
    match flaw {
        Flaw::HeaderLimit => "HeaderLimit",
        Flaw::ArrayCount => "ArrayCount",
        Flaw::ArrayLength => "ArrayLength",
        Flaw::Elements => "Elements",
        Flaw::Registers => "Registers",
        Flaw::DataCount => "DataCount",
        Flaw::DataTail => "DataTail",
        Flaw::Version => "Version",
        Flaw::RowCount => "RowCount",
        Flaw::Tag => "Tag",
        Flaw::Operator => "Operator",
        Flaw::OperandTag => "OperandTag",
        Flaw::Register => "Register",
        Flaw::Array => "Array",
        Flaw::Target => "Target",
        Flaw::Trap => "Trap",
        Flaw::DestTwice => "DestTwice",
        Flaw::EffectTwice => "EffectTwice",
        Flaw::TooManyOps => "TooManyOps",
        Flaw::TooManyTests => "TooManyTests",
        Flaw::TooManyMem => "TooManyMem",
        Flaw::Choice => "Choice",
    }
}

/// What a machine's fault is called.
pub fn machine_fault_words(fault: MachineFault) -> &'static str
    ensures { result.now ≡ machine_fault_text fault }
{
    match fault {
        MachineFault::StoreOutOfRange => "store out of range",
        MachineFault::StoredTwice => "element stored twice",
        MachineFault::ReadPastEnd => "read past end",
    }
}

/// What a trap is called.
pub fn trap_words(kind: TrapKind) -> &'static str
    ensures { result.now ≡ trap_text kind }
{
    match kind {
        TrapKind::DivideByZero => "divide by zero",
        TrapKind::OutOfBounds => "out of bounds",
        TrapKind::EndOfInput => "end of input",
    }
}
