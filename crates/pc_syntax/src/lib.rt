//! The syntax tree of a source program, with the lines of the source that faults and traps name.
#![tactic(auto)]

mod constant;
mod expression;
mod operator;
mod program;
mod statement;
mod unit;

pub use constant::{Const, ConstList};
pub use expression::{Expr, ExprList};
pub use operator::{BinaryOp, UnaryOp};
pub use program::{Program, SyntaxError};
pub use statement::{Stmt, StmtList};
pub use unit::{Function, FunctionList, Param, ParamList, SourceUnit, Target};
