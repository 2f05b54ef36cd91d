//! Laws of the definitions that contracts speak of. No function here does anything: each one's
//! contract is a law, and that it is proved is all that it is for.
ghost use Rattle.pc_linear.specs.Laws.{SumsAddFactors, SumsAreNormal, FactorsTellTheForm, FormsMeanTheirValues, VariablesMeanTheirValues, WhatIsMeantIsTheValue, ValuesCountAsWords};
ghost use Rattle.pc_linear.specs.Laws.{NeverEqualFormsDiffer};

/// A sum of two forms is in normal form, and each variable's factor in it is the sum of its
/// factors; normal forms with the same factors and the same constant are one.
pub fn laws_of_sums()
    ensures factors { SumsAddFactors }
    ensures normal { SumsAreNormal }
    ensures only { FactorsTellTheForm }
{}

/// A form means its value, and modulo 2^32 nothing else; a variable's form means the variable's
/// value; only the words of the variables count; what never equal forms mean differs.
pub fn laws_of_values()
    ensures meant { FormsMeanTheirValues }
    ensures variable { VariablesMeanTheirValues }
    ensures only { WhatIsMeantIsTheValue }
    ensures words { ValuesCountAsWords }
    ensures differ { NeverEqualFormsDiffer }
{}
