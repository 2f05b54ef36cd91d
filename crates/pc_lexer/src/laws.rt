ghost use Rattle.pc_lexer.specs.Laws.{CutsIntoLongest, NumbersNames, SpellsNames};

/// Laws of what `lex` and `tokens` answer; there is nothing to run.
///
/// The pieces into which a text is cut, with what is left at its first fault, are the text in a row.
/// Each token among them is spelled as one, and no longer front of what stands at its place is.
/// Two names have one symbol exactly where they are spelled alike, and symbols come in order.
/// Wherever a symbol is used, the text spells the name that stands at the symbol's place.
pub fn lexer_laws()
    ensures longest { CutsIntoLongest }
    ensures symbols { NumbersNames }
    ensures names { SpellsNames }
{}
