//! Laws of names. No function here does anything: each one's contract is its laws, and that they are proved is all that it is for.
ghost use Rattle.pc_names.specs.Laws.{AsManyAreDeclared, PlacesAreNumbers};

/// A program declares as many scalars and as many arrays as it is resolved to have, each in the order of their numbers.
pub fn law_of_declarations()
    ensures many { AsManyAreDeclared }
    ensures places { PlacesAreNumbers }
{}
