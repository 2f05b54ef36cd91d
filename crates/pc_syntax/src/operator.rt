/// A unary operator that leaves a node. Unary `+` leaves none.
#[derive(Clone, Copy, Debug, PartialEq, Eq)]
pub enum UnaryOp {
    /// `-`
    Minus,
    /// `~`
    Flip,
    /// `!`
    Not,
}

/// A binary operator other than `&&` and `||`, which evaluate only one operand at times.
#[derive(Clone, Copy, Debug, PartialEq, Eq)]
pub enum BinaryOp {
    Add,
    Sub,
    Mul,
    Div,
    Rem,
    Shl,
    Shr,
    Less,
    LessEq,
    Greater,
    GreaterEq,
    Equal,
    Unequal,
    BitAnd,
    BitXor,
    BitOr,
}
