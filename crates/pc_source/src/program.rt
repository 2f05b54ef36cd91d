//! The program of a source's text.
ghost use Rattle.std.specs.Prelude.{◌≤◌, length, MatchResult};
ghost use Rattle.pc_check.specs.Checks.{resolved_of};
ghost use Rattle.pc_names.specs.Spellings.{names_in};
ghost use Rattle.pc_source.specs.Reading.{HasNames, IsChecked, RefusesText};
ghost use Rattle.pc_word.specs.SourceLimits.{most_source};

use crate::refusal::Refusal;
use pc_check::{Checked, check};
use pc_inline::inline;
use pc_lexer::lex;
use pc_names::{SourceNames, source_names};
use pc_parser::parse_unit;
use std::alloc::Global;

/// The program that a text is read as, and how the text names its variables.
#[derive(Debug, Drop)]
pub struct NamedProgram {
    /// The program, with its calls inlined and numbers for names.
    pub checked: Checked,
    /// The names of its scalars and arrays, by their numbers.
    pub names: SourceNames,
}

/// The program that a text is read as, with its calls inlined and numbers for names, and the names that the text gives its
/// scalars and arrays. It fails where the text has a fault of its tokens, of the grammar, of its functions and calls, or of
/// its names and limits, with the first in this order; and where memory runs out. Whether the program's flow graph is too
/// large is not asked here.
pub fn read_named(alloc: Global, text: &[u8]) -> Result<NamedProgram, Refusal>
    requires { length text.now ≤ most_source }
    ensures { MatchResult result
        (λ named. HasNames text.now (resolved_of named.checked) (names_in named.names))
        (λ refusal. RefusesText refusal text.now) }
{
    let lexed = lex(alloc, text)?;
    let unit = parse_unit(alloc, &lexed.tokens)?;
    let program = inline(alloc, &unit)?;
    let checked = check(alloc, &program)?;
    match source_names(alloc, lexed.names.as_slice(), &program) {
        Ok(names) => Ok(NamedProgram { checked, names }),
        Err(_) => Err(Refusal::Memory),
    }
}

/// The program that a text is read as, without its names. It fails where `read_named` does.
pub fn read_program(alloc: Global, text: &[u8]) -> Result<Checked, Refusal>
    requires { length text.now ≤ most_source }
    ensures { MatchResult result (λ checked. IsChecked text.now (resolved_of checked)) (λ refusal. RefusesText refusal text.now) }
{
    let NamedProgram { checked, .. } = read_named(alloc, text)?;
    Ok(checked)
}
