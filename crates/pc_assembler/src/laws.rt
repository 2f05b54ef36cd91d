//! What follows from the assembler's promise. No function here does anything: its contract is a law.
ghost use Rattle.pc_assembler.specs.Laws.{AssemblerPromisesSay};

/// What the assembler's promise says for each status; the object of a listing is written, and another text is refused.
pub fn laws_of_the_assembler()
    ensures { AssemblerPromisesSay }
{}
