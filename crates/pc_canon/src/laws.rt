//! Laws of windows that are equal up to a shift. No function here does anything: each one's contract
//! is a law, and that it is proved is all that it is for.
ghost use Rattle.pc_canon.specs.Laws.{ShiftsCarryRuns, ShiftsCarryForms, ShiftsKeepCanonicalForms, CanonicalFormsTell, KeysTell, KeysPairParameters};

/// Windows that are equal up to a shift do the same, and forms hold of the one where they hold of the
/// other.
pub fn laws_of_shifts()
    ensures runs { ShiftsCarryRuns }
    ensures forms { ShiftsCarryForms }
{}

/// Windows are equal up to a shift exactly where they have one canonical form.
pub fn laws_of_canonical_forms()
    ensures kept { ShiftsKeepCanonicalForms }
    ensures told { CanonicalFormsTell }
{}

/// Windows are equal up to a shift exactly where they have one key, and then their parameters
/// correspond in the order of first use.
pub fn laws_of_keys()
    ensures told { KeysTell }
    ensures paired { KeysPairParameters }
{}
