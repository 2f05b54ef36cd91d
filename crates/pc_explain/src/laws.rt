//! The laws of explanations. The function here does nothing: its contract is the laws, and that they are proved is all that it is for.
ghost use Rattle.pc_explain.specs.Laws.{ToldStatesAreEmitted, ExplanationsTellForms};

/// The states that are told of a loop are those that the compiler emits: the form that it gave to the header of the loop has these
/// states, names and all, and it is the plain one where none are told. So it is with all explanations of a table.
pub fn law_of_explained_loops()
    ensures states { ToldStatesAreEmitted }
    ensures explanations { ExplanationsTellForms }
{}
