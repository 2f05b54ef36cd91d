//! Values that a statement evaluates, prints or tests.
ghost use Rattle.std.specs.Prelude.{◌≡◌, ◌+◌, ◌<◌, ℕ, Some, length};
ghost use Rattle.pc_word.specs.declared.item.Item.TheVariants.{Print};
ghost use Rattle.pc_syntax.specs.Erasure.{expression_of};
ghost use Rattle.pc_check.specs.Sizes.{expression_size};
ghost use Rattle.pc_flow.specs.declared.node.FlowNode.TheVariants.{Test};
ghost use Rattle.pc_lower.specs.Lowers.{held, Does, Gives, Begins};
ghost use Rattle.pc_lower.specs.models.Drafts.{IsPlaced, CanAim};
ghost use Rattle.pc_lower.specs.LoopTests.{HasTest};
ghost use Rattle.pc_lower.specs.models.Fills.{Lays};
ghost use Rattle.pc_lower.specs.models.LowersExpression.{IsReady, IsHeld};
ghost use Rattle.pc_lower.specs.models.LowersStatement.{ConditionNodes, LaysTurn, closed};

use crate::draft::Draft;
use crate::expression::lower_expression;
use crate::parts::{held, lay, lay_item, lay_test};
use crate::site::Site;
use crate::spot::Laid;
use pc_check::hold;
use pc_flow::FlowNode;
use pc_syntax::Expr;
use pc_word::Item;

/// A value that nothing is done with. A number or a scalar has no node.
pub(crate) fn lower_value(draft: &mut Draft, value: &Expr, site: Site) -> Laid
    requires ready { IsReady draft.now (expression_size (expression_of value.now)) site.end site.next site.inside }
    requires value { IsHeld draft.now.graph.arrays (expression_of value.now) 0 }
    ensures laid { Lays draft.old draft.new (expression_size (expression_of value.now)) result.start site.end
        (λ flow. Begins (expression_size (expression_of value.now)) result.entry result.start site.end
        × Gives flow site.inside (expression_of value.now) 0 result.entry site.next) }
    ensures begins { IsPlaced draft.new.graph result.entry }
{
    if hold(value) == 0 {
        return Laid::empty(site.end, site.next);
    }
    Laid::at(lower_expression(draft, value, site.above(0)))
}

/// A value and its print.
pub(crate) fn lower_print(draft: &mut Draft, value: &Expr, site: Site) -> u32
    requires ready { IsReady draft.now (expression_size (expression_of value.now) + 1) site.end site.next site.inside }
    requires value { IsHeld draft.now.graph.arrays (expression_of value.now) 0 }
    ensures { Lays draft.old draft.new (expression_size (expression_of value.now) + 1) result site.end
        (λ flow. (m : ℕ) × Gives flow site.inside (expression_of value.now) 0 result m
        × Does flow site.inside m (Print (held (expression_of value.now) 0)) site.next) }
{
    let item = Item::Print {
        value: held(value, 0),
    };
    let last = lay_item(draft, item, site);
    lower_expression(draft, value, site.leading_to(last).above(0))
}

/// A condition and its test, which leads to what follows the site where the value is not 0.
#[tactic(auto, using(crate::proofs::Rules::conditions))]
pub(crate) fn lower_condition(draft: &mut Draft, test: &Expr, no: u32, site: Site) -> u32
    requires ready { IsReady draft.now (expression_size (expression_of test.now) + 1) site.end site.next site.inside }
    requires test { IsHeld draft.now.graph.arrays (expression_of test.now) 0 }
    requires no { IsPlaced draft.now.graph no }
    ensures { Lays draft.old draft.new (expression_size (expression_of test.now) + 1) result site.end
        (ConditionNodes (expression_of test.now) site.inside site.next no result) }
{
    let last = lay_test(draft, held(test, 0), site.next, no, site);
    lower_expression(draft, test, site.leading_to(last).above(0))
}

/// The condition of a loop and its test. Where the test leads is said by `close_loop`.
pub(crate) fn lower_turn(draft: &mut Draft, test: &Expr, own: u16, site: Site) -> u32
    requires ready { IsReady draft.now (expression_size (expression_of test.now) + 1) site.end site.next site.inside }
    requires test { IsHeld draft.now.graph.arrays (expression_of test.now) 0 }
    requires own { own < length draft.now.graph.loops }
    requires inside { site.inside ≡ Some own }
    ensures turn { (at : ℕ) → at + 1 ≡ site.end → LaysTurn draft.old draft.new (expression_of test.now) own result at }
    ensures laid { Lays draft.old draft.new (expression_size (expression_of test.now) + 1) result site.end (λ flow. Unit {0}) }
{
    let node = FlowNode::Test {
        on: held(test, 0),
        yes: site.next,
        no: site.next,
        turn: Some(own),
    };
    let last = lay(draft, node, site);
    lower_expression(draft, test, site.leading_to(last).above(0))
}

/// A loop that is closed: where its test is, and the test's edges, to the body and to what follows;
/// the loop's number, and its header.
#[derive(Clone, Copy, Debug)]
pub(crate) struct Closing {
    pub at: u32,
    pub yes: u32,
    pub no: u32,
    pub own: u16,
    pub header: u32,
}

/// Lets the test of a loop lead to its body and to what follows, and puts the loop's header.
pub(crate) fn close_loop(draft: &mut Draft, test: &Expr, closing: Closing)
    requires can { CanAim draft.now closing.at (held (expression_of test.now) 0) closing.yes closing.no closing.own }
    requires test { HasTest draft.now.graph closing.at closing.own }
    ensures { draft.new ≡ closed closing.at (Test (held (expression_of test.now) 0) closing.yes closing.no (Some closing.own)) closing.own
        closing.header draft.old }
{
    let Closing {
        at,
        yes,
        no,
        own,
        header,
    } = closing;
    draft.aim(at, held(test, 0), yes, no, own);
    draft.set_header(own, header);
}
