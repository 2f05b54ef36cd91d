ghost use Rattle.std.specs.Prelude.{◌≡◌, IfOk, map};
ghost use Rattle.pc_syntax.specs.UnitErasure.{function_of, unit_of};

use crate::expression::{Expr, copy_optional};
use crate::program::{Program, SyntaxError};
use crate::statement::{StmtList, copy_list};
use pc_word::Seq;
use std::alloc::Global;

/// Where the value of a call goes: a scalar that is there already, or one that the call declares, as
/// `int x = f();` does. `line` is the line of its name.
#[derive(Clone, Copy, Debug, PartialEq, Eq)]
pub struct Target {
    pub symbol: u32,
    pub line: u32,
    pub declared: bool,
}

/// A parameter of a function (C17 6.9.1). `line` is the line of its name.
#[derive(Clone, Copy, Debug, PartialEq, Eq)]
pub struct Param {
    pub symbol: u32,
    pub line: u32,
}

/// Parameters in order.
pub type ParamList = Seq<Param>;

/// A function (C17 6.9.1): its name with the line, its parameters, the statements of its block, and the
/// expression of the `return` with which its block ends, where it ends with one.
#[derive(Debug, Drop)]
pub struct Function {
    pub symbol: u32,
    pub line: u32,
    pub params: ParamList,
    pub items: StmtList,
    pub result: Option<Expr>,
}

/// Functions in the order of the text.
pub type FunctionList = Seq<Function>;

/// A translation unit (C17 6.9): functions, and the program that `main` is, whose statements may call
/// them.
#[derive(Debug, Drop)]
pub struct SourceUnit {
    pub functions: FunctionList,
    pub main: Program,
}

impl Function {
    /// An equal function, in memory of its own. It fails only where memory runs out.
    pub fn copy(&self, alloc: Global) -> Result<Function, SyntaxError>
        ensures { IfOk result (λ copy. function_of copy ≡ function_of self.now) }
    {
        let params = Seq::from_slice(alloc, self.params.as_slice())?;
        let items = copy_list(alloc, &self.items)?;
        let result = copy_optional(alloc, &self.result)?;
        Ok(Function {
            symbol: self.symbol,
            line: self.line,
            params,
            items,
            result,
        })
    }
}

impl SourceUnit {
    /// An equal unit, in memory of its own. It fails only where memory runs out.
    pub fn copy(&self, alloc: Global) -> Result<SourceUnit, SyntaxError>
        ensures { IfOk result (λ copy. unit_of copy ≡ unit_of self.now) }
    {
        let functions = copy_functions(alloc, &self.functions)?;
        let main = self.main.copy(alloc)?;
        Ok(SourceUnit { functions, main })
    }
}

/// Equal functions, in a list of their own.
fn copy_functions(alloc: Global, from: &FunctionList) -> Result<FunctionList, SyntaxError>
    ensures { IfOk result (λ copy. map function_of copy ≡ map function_of from.now) }
{
    let mut copies = Seq::new(alloc);
    for function in from.as_slice() {
        let copy = function.copy(alloc)?;
        copies.push(copy)?;
    }
    Ok(copies)
}
