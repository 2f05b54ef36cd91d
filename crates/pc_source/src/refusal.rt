//! Why a text has no program.
ghost use Rattle.std.specs.Prelude.{◌≡◌};
ghost use Rattle.pc_source.specs.models.Refusals.{refusal_of_lex, refusal_of_parse, refusal_of_inline, refusal_of_check};

use pc_check::CheckError;
use pc_inline::InlineError;
use pc_lexer::LexError;
use pc_parser::ParseError;
use pc_report::{LineFault, SourceFault};
use thiserror::Error;

/// Why a text has no program.
#[derive(Clone, Copy, Debug, PartialEq, Eq, Error)]
pub enum Refusal {
    /// Memory ran out.
    #[error("out of memory")]
    Memory,
    /// The text has this fault.
    #[error("the text is no source")]
    Source { fault: SourceFault },
}

/// The refusal of a text with a fault at a line.
fn at_line(what: LineFault, line: u32) -> Refusal
    ensures { result ≡ Refusal.Source (SourceFault.AtLine what line) }
{
    Refusal::Source {
        fault: SourceFault::AtLine { what, line },
    }
}

impl From<LexError> for Refusal {
    ghost from_gives = { λ error given. given ≡ refusal_of_lex error };

    fn from(error: LexError) -> Refusal {
        match error {
            LexError::BadByte { offset } => Refusal::Source {
                fault: SourceFault::BadByte { offset },
            },
            LexError::BadLiteral { line } => at_line(LineFault::BadLiteral, line),
            LexError::OpenComment { line } => at_line(LineFault::OpenComment, line),
            LexError::TooManyTokens => Refusal::Source {
                fault: SourceFault::TooManyTokens,
            },
            LexError::Memory => Refusal::Memory,
        }
    }
}

impl From<ParseError> for Refusal {
    ghost from_gives = { λ error given. given ≡ refusal_of_parse error };

    fn from(error: ParseError) -> Refusal {
        match error {
            ParseError::Syntax { line, .. } => at_line(LineFault::Syntax, line),
            ParseError::TooNested { line, .. } => at_line(LineFault::NestedTooDeep, line),
            ParseError::Memory => Refusal::Memory,
        }
    }
}

impl From<InlineError> for Refusal {
    ghost from_gives = { λ error given. given ≡ refusal_of_inline error };

    fn from(error: InlineError) -> Refusal {
        match error {
            InlineError::FunctionTwice { line } => at_line(LineFault::FunctionTwice, line),
            InlineError::EarlyReturn { line } => at_line(LineFault::EarlyReturn, line),
            InlineError::ArrayInFunction { line } => at_line(LineFault::ArrayInFunction, line),
            InlineError::LooseJump { line } => at_line(LineFault::LooseJump, line),
            InlineError::NoFunction { line } => at_line(LineFault::NoFunction, line),
            InlineError::Arguments { line } => at_line(LineFault::WrongArguments, line),
            InlineError::TooBig => Refusal::Source {
                fault: SourceFault::InlinedTooBig,
            },
            InlineError::TooHigh => Refusal::Source {
                fault: SourceFault::InlinedTooHigh,
            },
            InlineError::Memory => Refusal::Memory,
        }
    }
}

impl From<CheckError> for Refusal {
    ghost from_gives = { λ error given. given ≡ refusal_of_check error };

    fn from(error: CheckError) -> Refusal {
        match error {
            CheckError::Undeclared { line } => at_line(LineFault::Undeclared, line),
            CheckError::Redeclared { line } => at_line(LineFault::DeclaredTwice, line),
            CheckError::NotArray { line } => at_line(LineFault::NotArray, line),
            CheckError::NotScalar { line } => at_line(LineFault::NotScalar, line),
            CheckError::BadSize { line } => at_line(LineFault::BadSize, line),
            CheckError::OutsideLoop { line } => at_line(LineFault::OutsideLoop, line),
            CheckError::TooManyScalars { line } => at_line(LineFault::TooManyScalars, line),
            CheckError::TooManyArrays { line } => at_line(LineFault::TooManyArrays, line),
            CheckError::TooManyElements { line } => at_line(LineFault::TooManyElements, line),
            CheckError::TooManyValues { line } => at_line(LineFault::TooManyValues, line),
            CheckError::TooDeep { line } => at_line(LineFault::ExpressionTooDeep, line),
            CheckError::Memory => Refusal::Memory,
        }
    }
}
