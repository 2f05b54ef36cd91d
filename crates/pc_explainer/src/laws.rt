//! What follows from the explainer's promise. The function here does nothing: its contract is the law.
ghost use Rattle.std.specs.Prelude.{List};
ghost use Rattle.pc_pass.specs.Pass.{Chain};
ghost use Rattle.pc_explainer.specs.ExplainerLaws.{ExplainerPromisesSay};

use pc_pass::Pass;

/// What the explainer's promise says for each status; what explains a source is sent, and another text is refused.
pub fn laws_of_the_explainer<P: Pass>()
    ensures { (before after : List P) → ExplainerPromisesSay (Chain P.does P.changed before after) }
{}
