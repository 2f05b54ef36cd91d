//! Expressions, lowered backwards: all nodes are there from the start, and each expression is given
//! the number after its last node. Its nodes are placed from the last to the first.
ghost use Rattle.std.specs.Prelude.{ℕ};
ghost use Rattle.pc_syntax.specs.Source.{Input, Indexed, Prefixed, Combined, Conjunction, Disjunction, Conditional};
ghost use Rattle.pc_syntax.specs.Erasure.{expression_of};
ghost use Rattle.pc_lower.specs.models.LowersExpression.{MayLower, LaysExpression};

use crate::draft::Draft;
use crate::element::{Element, lay_load};
use crate::parts::{
    Operation, held, lay_guard, lay_item, lay_operation, lay_test, next_temporary, prefix_item,
};
use crate::site::Site;
use pc_syntax::{Expr, UnaryOp};
use pc_word::{Item, OpCode, Operand, TrapKind};

/// `read()`: whether input is left, the test of that, the trap and the read.
#[tactic(auto, unfolding(pc_check::specs::Needs::need, pc_check::specs::Sizes::expression_size))]
fn lower_read(draft: &mut Draft, line: u32, site: Site) -> u32
    requires may { MayLower draft.now (Input line) site.temporary site.end site.next site.inside }
    ensures { LaysExpression (Input line) site.temporary result site.end site.next site.inside draft.old draft.new }
{
    let dest = 64 + site.temporary;
    let last = lay_item(draft, Item::Read { dest }, site);
    let on = Operand::Name(dest);
    let guard = lay_guard(draft, on, TrapKind::EndOfInput, line, site.leading_to(last));
    lay_item(draft, Item::More { dest }, site.leading_to(guard))
}

/// An element: the index, the bound test and the load.
#[cycle(lower_expression)]
fn lower_element(draft: &mut Draft, array: u32, at: u32, index: &Expr, site: Site) -> u32
    requires may { MayLower draft.now (Indexed array at at (expression_of index.now)) site.temporary site.end site.next site.inside }
    ensures { (line : ℕ) → LaysExpression (Indexed array line at (expression_of index.now)) site.temporary result site.end site.next site.inside draft.old draft.new }
{
    let element = Element {
        array: array as u8,
        line: at,
        index: held(index, site.temporary),
    };
    let within = next_temporary(index, site.temporary);
    let loaded = lay_load(draft, element, within, site);
    lower_expression(draft, index, site.leading_to(loaded))
}

/// A unary operator: the operand and the operation.
#[cycle(lower_expression)]
fn lower_unary(draft: &mut Draft, op: UnaryOp, operand: &Expr, site: Site) -> u32
    requires may { MayLower draft.now (Prefixed op (expression_of operand.now)) site.temporary site.end site.next site.inside }
    ensures { LaysExpression (Prefixed op (expression_of operand.now)) site.temporary result site.end site.next site.inside draft.old draft.new }
{
    let item = prefix_item(op, 64 + site.temporary, held(operand, site.temporary));
    let last = lay_item(draft, item, site);
    lower_expression(draft, operand, site.leading_to(last))
}

/// A binary operator: the left operand, the right one and the operation.
#[cycle(lower_expression)]
fn lower_binary(
    draft: &mut Draft,
    operation: Operation,
    left: &Expr,
    right: &Expr,
    site: Site,
) -> u32
    requires may { MayLower draft.now (Combined operation.op operation.line (expression_of left.now) (expression_of right.now)) site.temporary site.end site.next site.inside }
    ensures { LaysExpression (Combined operation.op operation.line (expression_of left.now) (expression_of right.now)) site.temporary result site.end site.next site.inside draft.old draft.new }
{
    let above = next_temporary(left, site.temporary);
    let first = held(left, site.temporary);
    let second = held(right, above);
    let last = lay_operation(draft, operation, first, second, site);
    let middle = lower_expression(draft, right, site.leading_to(last).above(above));
    lower_expression(draft, left, site.leading_to(middle))
}

/// `left && right`: the left operand, its test, the right operand, whether it is 0, and a copy of 0
/// where the left one is.
#[cycle(lower_expression)]
fn lower_both(draft: &mut Draft, left: &Expr, right: &Expr, site: Site) -> u32
    requires may { MayLower draft.now (Conjunction (expression_of left.now) (expression_of right.now)) site.temporary site.end site.next site.inside }
    ensures { LaysExpression (Conjunction (expression_of left.now) (expression_of right.now)) site.temporary result site.end site.next site.inside draft.old draft.new }
{
    let dest = 64 + site.temporary;
    let from = Operand::Lit(0);
    let skipped = lay_item(draft, Item::Copy { dest, from }, site);
    let truth = Item::Bin {
        op: OpCode::Unequal,
        dest,
        left: held(right, site.temporary),
        right: Operand::Lit(0),
    };
    let last = lay_item(draft, truth, site.up_to(skipped));
    let second = lower_expression(draft, right, site.leading_to(last));
    let on = held(left, site.temporary);
    let test = lay_test(draft, on, second, skipped, site.leading_to(second));
    lower_expression(draft, left, site.leading_to(test))
}

/// `left || right`: the same, with a copy of 1 where the left operand is not 0.
#[cycle(lower_expression)]
fn lower_either(draft: &mut Draft, left: &Expr, right: &Expr, site: Site) -> u32
    requires may { MayLower draft.now (Disjunction (expression_of left.now) (expression_of right.now)) site.temporary site.end site.next site.inside }
    ensures { LaysExpression (Disjunction (expression_of left.now) (expression_of right.now)) site.temporary result site.end site.next site.inside draft.old draft.new }
{
    let dest = 64 + site.temporary;
    let from = Operand::Lit(1);
    let skipped = lay_item(draft, Item::Copy { dest, from }, site);
    let truth = Item::Bin {
        op: OpCode::Unequal,
        dest,
        left: held(right, site.temporary),
        right: Operand::Lit(0),
    };
    let last = lay_item(draft, truth, site.up_to(skipped));
    let second = lower_expression(draft, right, site.leading_to(last));
    let on = held(left, site.temporary);
    let test = lay_test(draft, on, skipped, second, site.leading_to(second));
    lower_expression(draft, left, site.leading_to(test))
}

/// `test ? one : other`: the condition, its test, and each expression with a copy of its value.
#[cycle(lower_expression)]
fn lower_choice(draft: &mut Draft, test: &Expr, one: &Expr, other: &Expr, site: Site) -> u32
    requires may { MayLower draft.now (Conditional (expression_of test.now) (expression_of one.now) (expression_of other.now)) site.temporary site.end site.next site.inside }
    ensures { LaysExpression (Conditional (expression_of test.now) (expression_of one.now) (expression_of other.now)) site.temporary result site.end site.next site.inside draft.old draft.new }
{
    let dest = 64 + site.temporary;
    let from = held(other, site.temporary);
    let last = lay_item(draft, Item::Copy { dest, from }, site);
    let second = lower_expression(draft, other, site.leading_to(last));
    let from = held(one, site.temporary);
    let middle = lay_item(draft, Item::Copy { dest, from }, site.up_to(second));
    let first = lower_expression(draft, one, site.leading_to(middle));
    let on = held(test, site.temporary);
    let start = lay_test(draft, on, first, second, site.leading_to(first));
    lower_expression(draft, test, site.leading_to(start))
}

/// An expression before the end of a site. Gives the number of its first node, or the end where it
/// has none.
#[cycle(lower_expression)]
#[tactic(auto, using(pc_syntax::proofs::ErasureLaws::expression_forms), unfolding(pc_check::specs::Needs::need, pc_check::specs::Sizes::expression_size, pc_check::specs::Sound::has_slots))]
pub(crate) fn lower_expression(draft: &mut Draft, expression: &Expr, site: Site) -> u32
    requires may { MayLower draft.now (expression_of expression.now) site.temporary site.end site.next site.inside }
    ensures { LaysExpression (expression_of expression.now) site.temporary result site.end site.next site.inside draft.old draft.new }
{
    match expression {
        Expr::Lit { .. } | Expr::Name { .. } => site.end,
        Expr::Read { line } => lower_read(draft, *line, site),
        Expr::Element {
            symbol,
            at,
            index,
            ..
        } => lower_element(draft, *symbol, *at, index, site),
        Expr::Unary { op, of } => lower_unary(draft, *op, of, site),
        Expr::Binary {
            op,
            at,
            left,
            right,
        } => {
            let operation = Operation { op: *op, line: *at };
            lower_binary(draft, operation, left, right, site)
        }
        Expr::Both { left, right } => lower_both(draft, left, right, site),
        Expr::Either { left, right } => lower_either(draft, left, right, site),
        Expr::Choose { test, yes, no } => lower_choice(draft, test, yes, no, site),
    }
}
