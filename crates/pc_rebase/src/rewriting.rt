//! Forms written with a new variable in place of another.
ghost use Rattle.std.specs.Prelude.{◌≡◌, ◌≢◌, negsuc, pos, ℕ};
ghost use Rattle.pc_linear.specs.Form.{IsForm};
ghost use Rattle.pc_linear.specs.Combine.{plus, variable_form, fitting};
ghost use Rattle.pc_window.specs.Opening.{FormBelow};
ghost use Rattle.pc_window.specs.Rebasing.{rewritten};
ghost use Rattle.pc_rebase.specs.models.Rewriting.{replaced};

use crate::terms::factor_from;
use pc_linear::LinForm;
use pc_word::OpCode;

/// A form in which a variable stands, with that variable taken out: so many times as it has a factor,
/// the form of a parameter goes and the parameter's base comes. `None` where it has more than four
/// terms then.
#[tactic(auto, using(crate::proofs::Replacing::rewriting))]
pub(crate) fn rewritten(
    form: &LinForm,
    variable: u32,
    base: u32,
    parameter: &LinForm,
) -> Option<LinForm>
    requires form { FormBelow base form.now }
    requires parameter { FormBelow base parameter.now }
    ensures { result ≡ fitting (rewritten variable (plus (variable_form base) (negsuc 0) parameter.now) form.now) }
{
    let factor = factor_from(form, variable, 0);
    if factor == 0 {
        return Some(*form);
    }
    replaced(form, factor, base, parameter)
}

/// A form less so many times another, and as many times a variable more.
fn replaced(form: &LinForm, factor: i32, base: u32, parameter: &LinForm) -> Option<LinForm>
    ensures value { result ≡ replaced form.now factor base parameter.now }
    ensures kept { IsForm parameter.now }
{
    let factor = LinForm::constant(factor);
    let goes = LinForm::combine(OpCode::Mul, &factor, parameter)?;
    let comes = LinForm::combine(OpCode::Mul, &factor, &LinForm::variable(base))?;
    let rest = LinForm::combine(OpCode::Sub, form, &goes)?;
    LinForm::combine(OpCode::Add, &rest, &comes)
}
