ghost use Rattle.pc_word.specs.Exact.{checked, IsExact};
ghost use Rattle.pc_syntax.specs.Erasure.{program_of};
ghost use Rattle.pc_check.specs.Faults.{faults};
ghost use Rattle.pc_check.specs.Resolution.{resolved};
ghost use Rattle.pc_check.specs.Checks.{check_cause, resolved_of};

use crate::checked::Checked;
use crate::error::CheckError;
use crate::scopes::Scopes;
use crate::statement::check_list;
use pc_syntax::Program;
use std::alloc::Global;

/// Checks a program's names and limits, and replaces each name by the number of its declaration.
///
/// `Ok` comes exactly where the program has no fault, and `Err` with its first fault, each yielding to
/// want of memory alone.
pub fn check(alloc: Global, program: &Program) -> Result<Checked, CheckError>
    ensures { IsExact resolved_of check_cause result
        (checked (faults (program_of program.now)) (resolved (program_of program.now))) }
{
    let mut scopes = Scopes::new(alloc);
    let items = check_list(alloc, &mut scopes, false, &program.items)?;
    let scalars = scopes.scalars();
    let (arrays, initial) = scopes.into_arrays();
    Ok(Checked {
        scalars,
        arrays,
        initial,
        body: Program { items },
    })
}
