//! The names of a program's scalars and arrays.
ghost use Rattle.std.specs.Prelude.{◌≡◌, map, IfOk, slice_get, string_bytes, unwrap_or, []};
ghost use Rattle.pc_syntax.specs.Erasure.{program_of};
ghost use Rattle.pc_names.specs.Spellings.{name_bytes, name_of, names_in, names_of, text_symbol};

use crate::NameList;
use crate::declared::{DeclaredSymbols, push_list};
use pc_syntax::Program;
use pc_word::Seq;
use std::alloc::{AllocError, Global};

/// The symbols of a text are below this, and each copy of a function adds a multiple of it.
const SYMBOL_BOUND: u32 = 65_536;

/// The names that a source gives to the scalars and arrays of its program. Two of them may have one name.
#[derive(Debug, Drop)]
pub struct SourceNames {
    /// The names of the scalars, by their numbers.
    pub scalars: NameList,
    /// The names of the arrays, by their numbers.
    pub arrays: NameList,
}

/// How a symbol of the program is spelled, by the text's names; one that they lack is empty.
fn spelled<'a>(names: &[&'a [u8]], symbol: u32) -> &'a [u8]
    ensures { result.now ≡ unwrap_or (slice_get (name_bytes names.now) (text_symbol symbol)) [] }
{
    match names.get((symbol % SYMBOL_BOUND) as usize) {
        Some(name) => *name,
        None => b"",
    }
}

/// The names that these symbols of the program stand for, as strings.
fn spelled_names(alloc: Global, names: &[&[u8]], symbols: &[u32]) -> Result<NameList, AllocError>
    ensures { IfOk result (λ found. map string_bytes found ≡ map (name_of (name_bytes names.now)) symbols.now) }
{
    let mut found = NameList::new(alloc);
    for symbol in symbols {
        let name = String::from_utf8_lossy(alloc, spelled(names, *symbol))?;
        found.push(name)?;
    }
    Ok(found)
}

/// The names of the scalars and arrays that a program declares, by their numbers. `names` are those of its text, each at the place
/// of its symbol, as the lexer gives them; the program is the text's, with its calls inlined. It takes time in proportion to the
/// program and to the names that it gives.
pub fn source_names(
    alloc: Global,
    names: &[&[u8]],
    program: &Program,
) -> Result<SourceNames, AllocError>
    ensures { IfOk result (λ found. names_in found ≡ names_of (name_bytes names.now) (program_of program.now)) }
{
    let mut symbols = DeclaredSymbols {
        scalars: Seq::new(alloc),
        arrays: Seq::new(alloc),
    };
    push_list(&mut symbols, &program.items)?;
    let scalars = spelled_names(alloc, names, symbols.scalars.as_slice())?;
    let arrays = spelled_names(alloc, names, symbols.arrays.as_slice())?;
    Ok(SourceNames { scalars, arrays })
}
