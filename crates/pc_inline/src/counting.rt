ghost use Rattle.std.specs.Prelude.{◌≡◌, ℕ, min, Option, option_map, map};
ghost use Rattle.pc_syntax.specs.Erasure.{expression_of};
ghost use Rattle.pc_syntax.specs.UnitErasure.{unit_statement_of, unit_optional_of, unit_list_of};
ghost use Rattle.pc_calls.specs.Measures as of;
ghost use Rattle.pc_calls.specs.Counted as counted;
ghost use Rattle.pc_inline.specs.models.Sized.{IsSize, counted_target, extent_seen, function_seen, told_of, seen};

use crate::finding::find;
use crate::size::{
    Extent, LEAF, NO_EXTENT, NO_SIZE, Size, around, beside, indexed, raised, together,
};
use pc_syntax::{BinaryOp, Expr, Function, Stmt, StmtList, Target};

/// What is counted of a function once: how many parameters it has, its statements with those of the
/// functions that they call, and its result.
#[derive(Clone, Copy)]
pub(crate) struct FunctionSize {
    pub(crate) parameters: usize,
    pub(crate) items: Size,
    pub(crate) result: Option<Extent>,
}

/// The nodes and the height of an expression.
#[tactic(auto, using(pc_syntax::proofs::ErasureLaws::expression_forms), unfolding(pc_calls::specs::Measures::extent))]
pub(crate) fn extent(expression: &Expr) -> Extent
    ensures nodes { result.nodes ≡ min (of.extent (expression_of expression.now)).nodes 4294967295 }
    ensures high { result.high ≡ min (of.extent (expression_of expression.now)).high 4294967295 }
{
    match expression {
        Expr::Lit { .. } | Expr::Name { .. } | Expr::Read { .. } => LEAF,
        Expr::Element { index, .. } => raised(extent(index)),
        Expr::Unary { of, .. } => raised(extent(of)),
        Expr::Binary { left, right, .. }
        | Expr::Both { left, right }
        | Expr::Either { left, right } => { raised(beside(extent(left), extent(right))) }
        Expr::Choose { test, yes, no } => {
            raised(beside(extent(test), beside(extent(yes), extent(no))))
        }
    }
}

/// The same of an expression that may be left out.
#[tactic(auto, using(pc_syntax::proofs::ErasureLaws::expression_forms), unfolding(pc_calls::specs::Measures::extent))]
fn optional_extent(expression: &Option<Expr>) -> Extent
    ensures nodes { result.nodes ≡ min (of.optional_extent (option_map expression_of expression.now)).nodes 4294967295 }
    ensures high { result.high ≡ min (of.optional_extent (option_map expression_of expression.now)).high 4294967295 }
{
    match expression {
        None => NO_EXTENT,
        Some(expression) => extent(expression),
    }
}

/// Whether an expression is the number 1.
#[tactic(auto, using(pc_syntax::proofs::ErasureLaws::expression_forms))]
fn is_one(expression: &Expr) -> bool
    ensures { result ≡ of.is_one (expression_of expression.now) }
{
    match expression {
        Expr::Lit { value } => *value == 1,
        Expr::Name { .. } | Expr::Read { .. } | Expr::Element { .. } => false,
        Expr::Unary { .. } | Expr::Binary { .. } | Expr::Both { .. } => false,
        Expr::Either { .. } | Expr::Choose { .. } => false,
    }
}

/// The same of a value in an assignment with an operator: `x += 1` is as high as `x++`.
#[tactic(auto, using(pc_syntax::proofs::ErasureLaws::expression_forms), unfolding(pc_calls::specs::Measures::extent))]
fn changed_extent(op: BinaryOp, value: &Expr) -> Extent
    ensures nodes { result.nodes ≡ min (of.changed_extent op (expression_of value.now)).nodes 4294967295 }
    ensures high { result.high ≡ min (of.changed_extent op (expression_of value.now)).high 4294967295 }
{
    match op {
        BinaryOp::Add | BinaryOp::Sub if is_one(value) => Extent { nodes: 1, high: 0 },
        _ => extent(value),
    }
}

/// The same of the expressions of an assignment.
#[tactic(auto, using(pc_syntax::proofs::ErasureLaws::expression_forms), unfolding(pc_calls::specs::Measures::extent))]
fn assignment_extent(index: &Option<Expr>, op: Option<BinaryOp>, value: &Expr) -> Extent
    ensures nodes { result.nodes ≡ min (of.assignment_extent (option_map expression_of index.now) op (expression_of value.now)).nodes 4294967295 }
    ensures high { result.high ≡ min (of.assignment_extent (option_map expression_of index.now) op (expression_of value.now)).high 4294967295 }
{
    match (index, op) {
        (None, None) => extent(value),
        (None, Some(op)) => changed_extent(op, value),
        (Some(index), _) => beside(indexed(extent(index)), extent(value)),
    }
}

/// What the table tells of the function of a name.
fn known(functions: &[Function], sizes: &[FunctionSize], symbol: u32) -> Option<FunctionSize>
    ensures { result ≡ told_of functions.now sizes.now symbol }
{
    match find(functions, symbol) {
        None => None,
        Some(place) => sizes.get(place).copied(),
    }
}

/// So many parameters with their arguments.
fn arguments_size(count: usize, arguments: &[Expr]) -> Size
    ensures { IsSize result (counted.arguments_size count (map expression_of arguments.now)) }
{
    let mut total = NO_SIZE;
    for (at, argument) in arguments.iter().enumerate() {
        if at < count {
            total = together(total, around(extent(argument), NO_SIZE));
        }
    }
    total
}

/// What is done with such a result.
fn result_size(target: Option<Target>, result_of: Option<Extent>) -> Size
    ensures { IsSize result (counted.result_size target (option_map extent_seen result_of)) }
{
    match result_of {
        Some(extent) => around(extent, NO_SIZE),
        None if target.is_some() => around(LEAF, NO_SIZE),
        None => NO_SIZE,
    }
}

/// A call's block.
fn block_size(target: Option<Target>, function: Option<FunctionSize>, arguments: &[Expr]) -> Size
    ensures { IsSize result (counted.block_size target (option_map function_seen function) (map expression_of arguments.now)) }
{
    match function {
        None => around(NO_EXTENT, NO_SIZE),
        Some(function) => {
            let first = arguments_size(function.parameters, arguments);
            let last = together(function.items, result_size(target, function.result));
            around(NO_EXTENT, together(first, last))
        }
    }
}

/// A declarator, which inside a function may become two statements.
fn declarator_size(in_function: bool, initial: &Option<Expr>) -> Size
    ensures { IsSize result (counted.declarator_size in_function (option_map expression_of initial.now)) }
{
    match initial {
        Some(value) if in_function => {
            together(around(NO_EXTENT, NO_SIZE), around(extent(value), NO_SIZE))
        }
        initial => around(optional_extent(initial), NO_SIZE),
    }
}

/// What stands in the place of a statement, where that is one statement.
#[cycle(statement_size)]
#[tactic(auto, using(pc_syntax::proofs::UnitLaws::unit_forms), unfolding(pc_calls::specs::Counted::counted))]
fn statement_size(
    statement: &Stmt,
    functions: &[Function],
    sizes: &[FunctionSize],
    in_function: bool,
) -> Size
    ensures { IsSize result (counted.counted (seen functions.now sizes.now) in_function (unit_statement_of statement.now)) }
{
    match statement {
        Stmt::Block { items } => around(NO_EXTENT, list_size(items, functions, sizes, in_function)),
        Stmt::Scalar { init, .. } => around(optional_extent(init), NO_SIZE),
        Stmt::Assign {
            index,
            op,
            value,
            ..
        } => around(assignment_extent(index, *op, value), NO_SIZE),
        Stmt::Print { value, .. } | Stmt::Eval { value, .. } | Stmt::Return { value, .. } => {
            around(extent(value), NO_SIZE)
        }
        Stmt::If { test, yes, no, .. } => {
            let yes = statement_size(yes, functions, sizes, in_function);
            let no = optional_size(no, functions, sizes, in_function);
            around(extent(test), together(yes, no))
        }
        Stmt::While { test, body, .. } | Stmt::Do { test, body, .. } => {
            around(
                extent(test),
                statement_size(body, functions, sizes, in_function),
            )
        }
        Stmt::For {
            first,
            test,
            step,
            body,
            ..
        } => {
            let first = list_size(first, functions, sizes, in_function);
            let step = optional_size(step, functions, sizes, in_function);
            let body = statement_size(body, functions, sizes, in_function);
            around(extent(test), together(first, together(step, body)))
        }
        Stmt::Call {
            target,
            function,
            args,
            ..
        } => block_size(*target, known(functions, sizes, *function), args.as_slice()),
        Stmt::Array { .. } | Stmt::Break { .. } | Stmt::Continue { .. } | Stmt::Empty => {
            around(NO_EXTENT, NO_SIZE)
        }
    }
}

/// The same of a statement that may be left out.
#[cycle(statement_size)]
#[tactic(auto, using(pc_syntax::proofs::UnitLaws::unit_forms), unfolding(pc_calls::specs::Counted::counted))]
fn optional_size(
    statement: &Option<Box<Stmt>>,
    functions: &[Function],
    sizes: &[FunctionSize],
    in_function: bool,
) -> Size
    ensures { IsSize result (counted.counted_optional (seen functions.now sizes.now) in_function (unit_optional_of statement.now)) }
{
    match statement {
        None => NO_SIZE,
        Some(statement) => statement_size(statement, functions, sizes, in_function),
    }
}

/// What stands in the place of statements in order.
#[cycle(statement_size)]
#[tactic(auto, using(pc_syntax::proofs::UnitLaws::unit_forms), unfolding(pc_calls::specs::Counted::counted))]
pub(crate) fn list_size(
    items: &StmtList,
    functions: &[Function],
    sizes: &[FunctionSize],
    in_function: bool,
) -> Size
    ensures { IsSize result (counted.counted_list (seen functions.now sizes.now) in_function (unit_list_of items.now)) }
{
    let mut total = NO_SIZE;
    for item in items.as_slice() {
        let size = statement_size(item, functions, sizes, in_function);
        total = together(total, placed_size(item, size, in_function));
    }
    total
}

/// What stands in the place of a statement in a list, by what it counts where one statement stands there.
#[tactic(auto, using(pc_syntax::proofs::UnitLaws::unit_forms), unfolding(pc_calls::specs::Counted::counted))]
fn placed_size(statement: &Stmt, size: Size, in_function: bool) -> Size
    ensures { (known : ℕ → Option counted.FunctionSize) (one : of.Size) → IsSize size one
        → one ≡ counted.counted known in_function (unit_statement_of statement.now)
        → IsSize result (counted.placed_size known in_function (unit_statement_of statement.now) one) }
{
    match statement {
        Stmt::Scalar { init, .. } => declarator_size(in_function, init),
        Stmt::Call { target, .. } => target_size(*target, size),
        Stmt::Block { .. } | Stmt::If { .. } | Stmt::While { .. } | Stmt::Do { .. } => size,
        Stmt::For { .. } | Stmt::Array { .. } | Stmt::Assign { .. } | Stmt::Print { .. } => size,
        Stmt::Eval { .. } | Stmt::Break { .. } | Stmt::Continue { .. } => size,
        Stmt::Return { .. } | Stmt::Empty => size,
    }
}

/// The block of a call, and the declaration of its target, where the call declares it.
fn target_size(target: Option<Target>, block: Size) -> Size
    ensures { (one : of.Size) → IsSize block one → IsSize result (counted_target target one) }
{
    match target {
        Some(target) if target.declared => together(around(NO_EXTENT, NO_SIZE), block),
        _ => block,
    }
}
