//! Nodes that are placed at a site, and the small parts of constructs.
ghost use Rattle.std.specs.Prelude.{◌≡◌, ◌+◌, ◌<◌, ◌≤◌, length};
ghost use Rattle.pc_word.specs.SourceLimits.{most_temporaries};
ghost use Rattle.pc_syntax.specs.Erasure.{expression_of};
ghost use Rattle.pc_check.specs.Needs.{hold};
ghost use Rattle.pc_check.specs.Sizes.{operator_size};
ghost use Rattle.pc_meaning.specs.Expression.{divides};
ghost use Rattle.pc_meaning.specs.Lowered.{binary_code};
ghost use Rattle.pc_flow.specs.FlowGraph.{IsVariable, ItemFits};
ghost use Rattle.pc_lower.specs.Lowers.{temporary, held, prefix_item, binary_item, IsAt, Does, Tests, Combines};
ghost use Rattle.pc_lower.specs.models.Drafts.{IsPlaced, MayPlace, StandsIn};
ghost use Rattle.pc_lower.specs.models.Fills.{HasRoom, Lays};
ghost use Rattle.pc_lower.specs.models.LowersExpression.{Guards};

use crate::draft::Draft;
use crate::site::Site;
use pc_check::hold;
use pc_flow::FlowNode;
use pc_syntax::{BinaryOp, Expr, UnaryOp};
use pc_word::{Item, OpCode, Operand, TrapKind};

/// Places a node right before the end of a site, and gives its number.
pub(crate) fn lay(draft: &mut Draft, node: FlowNode, site: Site) -> u32
    requires room { HasRoom draft.now 1 site.end site.inside }
    requires fits { MayPlace draft.now.graph node }
    requires stands { StandsIn site.inside node }
    ensures { Lays draft.old draft.new 1 result site.end (λ flow. IsAt flow result node site.inside) }
{
    let at = site.end - 1;
    draft.place(at, node, site.inside);
    at
}

/// An item that leads on to what follows.
pub(crate) fn lay_item(draft: &mut Draft, item: Item, site: Site) -> u32
    requires room { HasRoom draft.now 1 site.end site.inside }
    requires fits { ItemFits (length draft.now.graph.arrays) item }
    requires leads { IsPlaced draft.now.graph site.next }
    ensures { Lays draft.old draft.new 1 result site.end (λ flow. Does flow site.inside result item site.next) }
{
    let node = FlowNode::Op {
        item,
        next: site.next,
    };
    lay(draft, node, site)
}

/// A test whose edges lead to nodes that were placed.
pub(crate) fn lay_test(draft: &mut Draft, on: Operand, yes: u32, no: u32, site: Site) -> u32
    requires room { HasRoom draft.now 1 site.end site.inside }
    requires on { IsVariable on }
    requires yes { IsPlaced draft.now.graph yes }
    requires no { IsPlaced draft.now.graph no }
    ensures { Lays draft.old draft.new 1 result site.end (λ flow. Tests flow site.inside result on yes no) }
{
    let node = FlowNode::Test {
        on,
        yes,
        no,
        turn: None,
    };
    lay(draft, node, site)
}

/// Where the value of an expression is.
#[tactic(auto, using(pc_syntax::proofs::ErasureLaws::expression_forms))]
pub(crate) fn held(expression: &Expr, t: u32) -> Operand
    requires { t ≤ most_temporaries }
    ensures { result ≡ held (expression_of expression.now) t }
{
    match expression {
        Expr::Lit { value } => Operand::Lit(*value),
        Expr::Name { symbol, .. } => Operand::Name(*symbol),
        Expr::Read { .. } | Expr::Element { .. } | Expr::Unary { .. } => Operand::Name(64 + t),
        Expr::Binary { .. } | Expr::Both { .. } | Expr::Either { .. } => Operand::Name(64 + t),
        Expr::Choose { .. } => Operand::Name(64 + t),
    }
}

/// The first temporary above those that hold the value of an expression, which begin at one.
pub(crate) fn next_temporary(expression: &Expr, t: u32) -> u32
    requires { t ≤ most_temporaries }
    ensures { result ≡ t + hold (expression_of expression.now) }
{
    t + hold(expression)
}

/// The item for a unary operator.
pub(crate) fn prefix_item(op: UnaryOp, dest: u32, operand: Operand) -> Item
    ensures { result ≡ prefix_item op dest operand }
{
    let (op, left, right) = match op {
        UnaryOp::Minus => (OpCode::Sub, Operand::Lit(0), operand),
        UnaryOp::Flip => (OpCode::Xor, operand, Operand::Lit(-1)),
        UnaryOp::Not => (OpCode::Equal, operand, Operand::Lit(0)),
    };
    Item::Bin {
        op,
        dest,
        left,
        right,
    }
}

/// The operator of the machine for a binary operator; `>` and `>=` exchange their operands.
fn binary_code(op: BinaryOp) -> OpCode
    ensures { result ≡ binary_code op }
{
    match op {
        BinaryOp::Add => OpCode::Add,
        BinaryOp::Sub => OpCode::Sub,
        BinaryOp::Mul => OpCode::Mul,
        BinaryOp::Div => OpCode::Div,
        BinaryOp::Rem => OpCode::Rem,
        BinaryOp::Shl => OpCode::Shl,
        BinaryOp::Shr => OpCode::Shr,
        BinaryOp::Less | BinaryOp::Greater => OpCode::Less,
        BinaryOp::LessEq | BinaryOp::GreaterEq => OpCode::LessEq,
        BinaryOp::Equal => OpCode::Equal,
        BinaryOp::Unequal => OpCode::Unequal,
        BinaryOp::BitAnd => OpCode::And,
        BinaryOp::BitXor => OpCode::Xor,
        BinaryOp::BitOr => OpCode::Or,
    }
}

/// The item for a binary operator.
pub(crate) fn binary_item(op: BinaryOp, dest: u32, left: Operand, right: Operand) -> Item
    ensures { result ≡ binary_item op dest left right }
{
    let (left, right) = match op {
        BinaryOp::Greater | BinaryOp::GreaterEq => (right, left),
        _ => (left, right),
    };
    Item::Bin {
        op: binary_code(op),
        dest,
        left,
        right,
    }
}

/// A test of a value before what follows, and the trap to which it leads where the value is 0.
pub(crate) fn lay_guard(
    draft: &mut Draft,
    on: Operand,
    kind: TrapKind,
    line: u32,
    site: Site,
) -> u32
    requires room { HasRoom draft.now 2 site.end site.inside }
    requires on { IsVariable on }
    requires leads { IsPlaced draft.now.graph site.next }
    ensures { Lays draft.old draft.new 2 result site.end (λ flow. Guards flow site.inside on kind line result site.next) }
{
    let trap = lay(draft, FlowNode::Trap { kind, line }, site);
    let test = FlowNode::Test {
        on,
        yes: site.next,
        no: trap,
        turn: None,
    };
    lay(draft, test, site.leading_to(trap))
}

/// A binary operator, and the line of its token.
#[derive(Clone, Copy, Debug)]
pub(crate) struct Operation {
    pub op: BinaryOp,
    pub line: u32,
}

/// Whether the right operand of an operator is a divisor.
fn divides(op: BinaryOp) -> bool
    ensures { result ≡ divides op }
{
    match op {
        BinaryOp::Div | BinaryOp::Rem => true,
        _ => false,
    }
}

/// A binary operator on two values, after a test of the divisor where there is one.
pub(crate) fn lay_operation(
    draft: &mut Draft,
    operation: Operation,
    left: Operand,
    right: Operand,
    site: Site,
) -> u32
    requires room { HasRoom draft.now (operator_size operation.op) site.end site.inside }
    requires result_there { site.temporary < most_temporaries }
    requires left { IsVariable left }
    requires right { IsVariable right }
    requires leads { IsPlaced draft.now.graph site.next }
    ensures { Lays draft.old draft.new (operator_size operation.op) result site.end
        (λ flow. Combines flow site.inside operation.op operation.line (temporary site.temporary) left right result site.next) }
{
    let item = binary_item(operation.op, 64 + site.temporary, left, right);
    let node = FlowNode::Op {
        item,
        next: site.next,
    };
    let at = lay(draft, node, site);
    if !divides(operation.op) {
        return at;
    }
    let kind = TrapKind::DivideByZero;
    lay_guard(draft, right, kind, operation.line, site.leading_to(at))
}
