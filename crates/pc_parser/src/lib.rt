//! The parser: the tokens of a source text become a program, or a translation unit.
#![tactic(auto)]

mod arrays;
mod call;
mod calls;
mod declaration;
mod expression;
mod function;
mod loops;
mod lvalue;
mod operator;
mod outcome;
mod place;
mod simple;
mod statement;
mod storage;
mod tree;
mod unit;

pub use unit::{
    ParseError, names_are_below, one_program, one_unit, parse, parse_unit, program_is_unit,
};
