//! Laws of the definitions that contracts speak of. No function here does anything: each one's
//! contract is a law, and that it is proved is all that it is for.
ghost use Rattle.pc_command.specs.Laws.{CheckCommandsAreInRange, CompileCommandsAreInRange, ExplainCommandsAreInRange, SimulateCommandsAreInRange, StatCommandsAreInRange};
ghost use Rattle.pc_command.specs.Laws.{AssembleMatchesAreWhole, CheckMatchesAreWhole, CompileMatchesAreWhole, ExplainMatchesAreWhole, SimulateMatchesAreWhole, StatMatchesAreWhole, ViewMatchesAreWhole};
ghost use Rattle.pc_command.specs.Laws.{CheckWordsAsk, NoWordsAreNoCommand, PlainWordExplains, PlainWordProfiles, PlainWordSimulates, PlainWordViews, PlainWordsAssemble, PlainWordsCompile};

/// Whatever words are a command, its numbers lie in the ranges of their options, and the name of its
/// source does not begin with `@`.
pub fn laws_of_ranges()
    ensures compiler { CompileCommandsAreInRange }
    ensures simulator { SimulateCommandsAreInRange }
    ensures profiler { StatCommandsAreInRange }
    ensures checker { CheckCommandsAreInRange }
    ensures explainer { ExplainCommandsAreInRange }
{}

/// Whatever words `clap` takes, its matches have each word and each number that a command is made of.
pub fn laws_of_matches()
    ensures compiler { CompileMatchesAreWhole }
    ensures assembler { AssembleMatchesAreWhole }
    ensures simulator { SimulateMatchesAreWhole }
    ensures viewer { ViewMatchesAreWhole }
    ensures profiler { StatMatchesAreWhole }
    ensures checker { CheckMatchesAreWhole }
    ensures explainer { ExplainMatchesAreWhole }
{}

/// `SRC -o OBJ` is a command of the compiler, `TEXT -o OBJ` one of the assembler, `SRC` one of the explainer, and `OBJ` one
/// of each other program but the checker, with the defaults, where no word begins with a hyphen and SRC names a source. Words
/// of the checker that begin with no hyphen and its flags are a command of it exactly where they are SRC, OBJ and CERT in
/// this order and no flag stands twice. No words are no command.
pub fn laws_of_plain_words()
    ensures compiler { PlainWordsCompile }
    ensures assembler { PlainWordsAssemble }
    ensures simulator { PlainWordSimulates }
    ensures viewer { PlainWordViews }
    ensures profiler { PlainWordProfiles }
    ensures checker { CheckWordsAsk }
    ensures explainer { PlainWordExplains }
    ensures no_words { NoWordsAreNoCommand }
{}
