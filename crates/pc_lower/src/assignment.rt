//! Assignments and declarations of scalars, lowered backwards. Their temporaries begin at 0.
ghost use Rattle.std.specs.Prelude.{◌≡◌, ◌+◌, ◌<◌, ◌≤◌, ℕ, true, Some, None, option_map, length};
ghost use Rattle.pc_word.specs.SourceLimits.{most_scalars, most_temporaries};
ghost use Rattle.pc_word.specs.declared.item.Item.TheVariants.{Store};
ghost use Rattle.pc_word.specs.declared.item.Operand.TheVariants.{Name};
ghost use Rattle.pc_syntax.specs.Erasure.{expression_of};
ghost use Rattle.pc_syntax.specs.Source.{Combined, Variable};
ghost use Rattle.pc_check.specs.Needs.{hold, optional_need, assignment_need};
ghost use Rattle.pc_check.specs.Sizes.{expression_size, operator_size, optional_size, target_size};
ghost use Rattle.pc_check.specs.Sound.{has_slots, optional_has_slots, has_target};
ghost use Rattle.pc_flow.specs.FlowGraph.{IsVariable};
ghost use Rattle.pc_lower.specs.Lowers.{temporary, held, Gives, Combines, Does, Puts, Assigns, Declares};
ghost use Rattle.pc_lower.specs.models.Fills.{Lays};
ghost use Rattle.pc_lower.specs.models.LowersExpression.{IsReady, IsHeld};

use crate::draft::Draft;
use crate::element::{Element, lay_bounds, lay_load};
use crate::expression::lower_expression;
use crate::parts::{Operation, held, lay_item, lay_operation};
use crate::site::Site;
use pc_check::hold;
use pc_syntax::{BinaryOp, Expr};
use pc_word::{Item, Operand};

/// What an assignment is, beside its index and its value: the scalar or the array, the line of the
/// bracket, and the operator, if any, with its line.
#[derive(Clone, Copy, Debug)]
pub(crate) struct Target {
    pub name: u32,
    pub bracket: u32,
    pub op: Option<BinaryOp>,
    pub at: u32,
}

impl Target {
    /// An assignment to a name.
    pub(crate) fn new(name: u32, bracket: u32, op: Option<BinaryOp>, at: u32) -> Target
        ensures { result ≡ record { name = name; bracket = bracket; op = op; at = at } }
    {
        Target {
            name,
            bracket,
            op,
            at,
        }
    }

    /// The element of the array, where its index is known.
    fn element(self, index: Operand) -> Element
        requires { self.name ≤ 255 }
        ensures { result ≡ record { array = self.name; line = self.bracket; index = index } }
    {
        Element {
            array: self.name as u8,
            line: self.bracket,
            index,
        }
    }
}

/// A value that is put into a scalar.
fn lower_put(draft: &mut Draft, scalar: u32, value: &Expr, site: Site) -> u32
    requires ready { IsReady draft.now (expression_size (expression_of value.now) + 1) site.end site.next site.inside }
    requires scalar { scalar < most_scalars }
    requires value { IsHeld draft.now.graph.arrays (expression_of value.now) 0 }
    ensures { Lays draft.old draft.new (expression_size (expression_of value.now) + 1) result site.end
        (λ flow. Puts flow site.inside scalar (expression_of value.now) result site.next) }
{
    let from = held(value, 0);
    let last = lay_item(draft, Item::Copy { dest: scalar, from }, site);
    lower_expression(draft, value, site.leading_to(last).above(0))
}

/// A scalar that is changed by an operator and a value.
fn lower_compound(
    draft: &mut Draft,
    scalar: u32,
    operation: Operation,
    value: &Expr,
    site: Site,
) -> u32
    requires ready { IsReady draft.now (expression_size (expression_of value.now) + operator_size operation.op + 1) site.end site.next
        site.inside }
    requires scalar { scalar < most_scalars }
    requires value { IsHeld draft.now.graph.arrays (expression_of value.now) 0 }
    ensures { Lays draft.old draft.new (expression_size (expression_of value.now) + operator_size operation.op + 1) result
        site.end (λ flow. Puts flow site.inside scalar
        (Combined operation.op operation.line (Variable scalar 0) (expression_of value.now)) result site.next) }
{
    let from = Operand::Name(64);
    let last = lay_item(draft, Item::Copy { dest: scalar, from }, site);
    let second = held(value, 0);
    let first = Operand::Name(scalar);
    let within = site.leading_to(last).above(0);
    let middle = lay_operation(draft, operation, first, second, within);
    lower_expression(draft, value, site.leading_to(middle).above(0))
}

/// A value that is stored into an element: the index, the value, the bound test and the store.
fn lower_store(draft: &mut Draft, element: Element, index: &Expr, value: &Expr, site: Site) -> u32
    requires ready { IsReady draft.now (expression_size (expression_of index.now) + expression_size (expression_of value.now) + 4)
        site.end site.next site.inside }
    requires array { element.array < length draft.now.graph.arrays }
    requires place { element.index ≡ held (expression_of index.now) 0 }
    requires index { IsHeld draft.now.graph.arrays (expression_of index.now) 0 }
    requires value { IsHeld draft.now.graph.arrays (expression_of value.now) (hold (expression_of index.now)) }
    requires temporaries { hold (expression_of index.now) + hold (expression_of value.now) < most_temporaries }
    ensures { Lays draft.old draft.new
        (expression_size (expression_of index.now) + expression_size (expression_of value.now) + 4) result site.end
        (λ flow. Assigns flow site.inside element.array 0 (Some (expression_of index.now)) element.line None 0
        (expression_of value.now) result site.next) }
{
    let above = hold(index);
    let store = Item::Store {
        array: element.array,
        index: element.index,
        value: held(value, above),
    };
    let last = lay_item(draft, store, site);
    let within = site.leading_to(last).above(above + hold(value));
    let bounds = lay_bounds(draft, element, within);
    let middle = lower_expression(draft, value, site.leading_to(bounds).above(above));
    lower_expression(draft, index, site.leading_to(middle).above(0))
}

/// What is done with the old value of an element, which stands in the site's temporary: the value,
/// the operation and the store.
fn lower_change(
    draft: &mut Draft,
    element: Element,
    operation: Operation,
    value: &Expr,
    site: Site,
) -> u32
    requires ready { IsReady draft.now (expression_size (expression_of value.now) + operator_size operation.op + 1) site.end site.next
        site.inside }
    requires array { element.array < length draft.now.graph.arrays }
    requires index { IsVariable element.index }
    requires value { IsHeld draft.now.graph.arrays (expression_of value.now) (site.temporary + 1) }
    ensures { Lays draft.old draft.new (expression_size (expression_of value.now) + operator_size operation.op + 1) result site.end
        (λ flow. (m n : ℕ) × Gives flow site.inside (expression_of value.now) (site.temporary + 1) result m
        × Combines flow site.inside operation.op operation.line (temporary site.temporary) (Name (temporary site.temporary))
        (held (expression_of value.now) (site.temporary + 1)) m n
        × Does flow site.inside n (Store element.array element.index (Name (temporary site.temporary))) site.next) }
{
    let old = Operand::Name(64 + site.temporary);
    let store = Item::Store {
        array: element.array,
        index: element.index,
        value: old,
    };
    let last = lay_item(draft, store, site);
    let above = site.temporary + 1;
    let second = held(value, above);
    let middle = lay_operation(draft, operation, old, second, site.leading_to(last));
    lower_expression(draft, value, site.leading_to(middle).above(above))
}

/// An element that is changed by an operator and a value: the index, the bound test, the load, the
/// value, the operation and the store.
fn lower_update(
    draft: &mut Draft,
    element: Element,
    index: &Expr,
    operation: Operation,
    value: &Expr,
    site: Site,
) -> u32
    requires ready { IsReady draft.now (expression_size (expression_of index.now) + expression_size (expression_of value.now)
        + (operator_size operation.op + 5)) site.end site.next site.inside }
    requires array { element.array < length draft.now.graph.arrays }
    requires place { element.index ≡ held (expression_of index.now) 0 }
    requires index { IsHeld draft.now.graph.arrays (expression_of index.now) 0 }
    requires value { IsHeld draft.now.graph.arrays (expression_of value.now) (hold (expression_of index.now) + 1) }
    ensures { Lays draft.old draft.new
        (expression_size (expression_of index.now) + expression_size (expression_of value.now) + (operator_size operation.op + 5))
        result site.end (λ flow. Assigns flow site.inside element.array 0 (Some (expression_of index.now)) element.line
        (Some operation.op) operation.line (expression_of value.now) result site.next) }
{
    let above = hold(index);
    let changed = lower_change(draft, element, operation, value, site.above(above));
    let within = site.leading_to(changed).above(above);
    let loaded = lay_load(draft, element, above, within);
    lower_expression(draft, index, site.leading_to(loaded).above(0))
}

/// An assignment to a scalar or to an element, with an operator or without.
pub(crate) fn lower_assignment(
    draft: &mut Draft,
    target: Target,
    index: &Option<Expr>,
    value: &Expr,
    site: Site,
) -> u32
    requires ready { IsReady draft.now (optional_size (option_map expression_of index.now) + expression_size (expression_of value.now)
        + target_size (option_map expression_of index.now) target.op) site.end site.next site.inside }
    requires target { has_target most_scalars (length draft.now.graph.arrays) (option_map expression_of index.now) target.name ≡ true }
    requires temporaries { assignment_need (option_map expression_of index.now) target.op (expression_of value.now) ≤ most_temporaries }
    requires index { optional_has_slots most_scalars (length draft.now.graph.arrays) (option_map expression_of index.now) ≡ true }
    requires value { has_slots most_scalars (length draft.now.graph.arrays) (expression_of value.now) ≡ true }
    ensures { Lays draft.old draft.new (optional_size (option_map expression_of index.now)
        + expression_size (expression_of value.now) + target_size (option_map expression_of index.now) target.op) result site.end
        (λ flow. Assigns flow site.inside target.name 0 (option_map expression_of index.now) target.bracket target.op target.at
        (expression_of value.now) result site.next) }
{
    let line = target.at;
    match (index, target.op) {
        (None, None) => lower_put(draft, target.name, value, site),
        (None, Some(op)) => {
            lower_compound(draft, target.name, Operation { op, line }, value, site)
        }
        (Some(index), None) => {
            let element = target.element(held(index, 0));
            lower_store(draft, element, index, value, site)
        }
        (Some(index), Some(op)) => {
            let element = target.element(held(index, 0));
            lower_update(draft, element, index, Operation { op, line }, value, site)
        }
    }
}

/// A scalar that is declared: its value, or 0.
pub(crate) fn lower_declaration(
    draft: &mut Draft,
    scalar: u32,
    initial: &Option<Expr>,
    site: Site,
) -> u32
    requires ready { IsReady draft.now (optional_size (option_map expression_of initial.now) + 1) site.end site.next site.inside }
    requires scalar { scalar < most_scalars }
    requires temporaries { optional_need (option_map expression_of initial.now) ≤ most_temporaries }
    requires initial { optional_has_slots most_scalars (length draft.now.graph.arrays) (option_map expression_of initial.now) ≡ true }
    ensures { Lays draft.old draft.new (optional_size (option_map expression_of initial.now) + 1) result site.end
        (λ flow. Declares flow site.inside scalar (option_map expression_of initial.now) result site.next) }
{
    match initial {
        None => {
            let from = Operand::Lit(0);
            lay_item(draft, Item::Copy { dest: scalar, from }, site)
        }
        Some(initial) => lower_put(draft, scalar, initial, site),
    }
}
