ghost use Rattle.std.specs.Prelude.{◌≡◌, ◌≤◌, IfSome};
ghost use Rattle.pc_parser.specs.Operators.{operator_of, assignment_of, prefix_of, step_of};

use pc_lexer::Mark;
use pc_syntax::{BinaryOp, UnaryOp};

/// What joins two operands.
#[derive(Clone, Copy, Debug, PartialEq, Eq)]
pub(crate) enum Operator {
    /// An operator of the tree.
    Binary(BinaryOp),
    /// `&&`
    Both,
    /// `||`
    Either,
}

/// The binary operator that a mark stands for, and its level: 1 for the loosest, 10 for the tightest
/// (C17 6.5.5 to 6.5.14).
#[tactic(auto, unfolding(crate::specs::Operators::operator_of))]
pub(crate) fn operator_of(mark: Mark) -> Option<(Operator, usize)>
    ensures value { result ≡ operator_of mark }
    ensures low { IfSome result (λ found. found.1 ≤ 10) }
{
    let found = match mark {
        Mark::OrOr => (Operator::Either, 1),
        Mark::AndAnd => (Operator::Both, 2),
        Mark::Or => (Operator::Binary(BinaryOp::BitOr), 3),
        Mark::Xor => (Operator::Binary(BinaryOp::BitXor), 4),
        Mark::And => (Operator::Binary(BinaryOp::BitAnd), 5),
        Mark::EqualEqual => (Operator::Binary(BinaryOp::Equal), 6),
        Mark::NotEqual => (Operator::Binary(BinaryOp::Unequal), 6),
        Mark::Less => (Operator::Binary(BinaryOp::Less), 7),
        Mark::LessEqual => (Operator::Binary(BinaryOp::LessEq), 7),
        Mark::Greater => (Operator::Binary(BinaryOp::Greater), 7),
        Mark::GreaterEqual => (Operator::Binary(BinaryOp::GreaterEq), 7),
        Mark::ShiftLeft => (Operator::Binary(BinaryOp::Shl), 8),
        Mark::ShiftRight => (Operator::Binary(BinaryOp::Shr), 8),
        Mark::Plus => (Operator::Binary(BinaryOp::Add), 9),
        Mark::Minus => (Operator::Binary(BinaryOp::Sub), 9),
        Mark::Star => (Operator::Binary(BinaryOp::Mul), 10),
        Mark::Slash => (Operator::Binary(BinaryOp::Div), 10),
        Mark::Percent => (Operator::Binary(BinaryOp::Rem), 10),
        _ => return None,
    };
    Some(found)
}

/// What a mark assigns by (C17 6.5.16): nothing for `=`, and the operator of a compound mark.
#[tactic(auto, unfolding(crate::specs::Operators::assignment_of))]
pub(crate) fn assignment_of(mark: Mark) -> Option<Option<BinaryOp>>
    ensures { result ≡ assignment_of mark }
{
    match mark {
        Mark::Assign => Some(None),
        Mark::AddAssign => Some(Some(BinaryOp::Add)),
        Mark::SubAssign => Some(Some(BinaryOp::Sub)),
        Mark::MulAssign => Some(Some(BinaryOp::Mul)),
        Mark::DivAssign => Some(Some(BinaryOp::Div)),
        Mark::RemAssign => Some(Some(BinaryOp::Rem)),
        Mark::ShiftLeftAssign => Some(Some(BinaryOp::Shl)),
        Mark::ShiftRightAssign => Some(Some(BinaryOp::Shr)),
        Mark::AndAssign => Some(Some(BinaryOp::BitAnd)),
        Mark::XorAssign => Some(Some(BinaryOp::BitXor)),
        Mark::OrAssign => Some(Some(BinaryOp::BitOr)),
        _ => None,
    }
}

/// The unary operator that a mark stands for (C17 6.5.3.3): `+` leaves no node.
#[tactic(auto, unfolding(crate::specs::Operators::prefix_of))]
pub(crate) fn prefix_of(mark: Mark) -> Option<Option<UnaryOp>>
    ensures { result ≡ prefix_of mark }
{
    match mark {
        Mark::Plus => Some(None),
        Mark::Minus => Some(Some(UnaryOp::Minus)),
        Mark::Tilde => Some(Some(UnaryOp::Flip)),
        Mark::Not => Some(Some(UnaryOp::Not)),
        _ => None,
    }
}

/// What `++` and `--` assign by.
#[tactic(auto, unfolding(crate::specs::Operators::step_of))]
pub(crate) fn step_of(mark: Mark) -> Option<BinaryOp>
    ensures { result ≡ step_of mark }
{
    match mark {
        Mark::PlusPlus => Some(BinaryOp::Add),
        Mark::MinusMinus => Some(BinaryOp::Sub),
        _ => None,
    }
}
