ghost use Rattle.std.specs.Prelude.{◌≡◌, true, OnOk, IfOk, option_map, map};
ghost use Rattle.pc_syntax.specs.Source.{SourceList, No_more};
ghost use Rattle.pc_syntax.specs.Unit.{If, While, Do, For, unit_appended};
ghost use Rattle.pc_syntax.specs.Plain.{plain_statement, plain_optional, plain_list};
ghost use Rattle.pc_syntax.specs.Erasure.{expression_of};
ghost use Rattle.pc_syntax.specs.UnitErasure.{unit_statement_of, unit_list_of, unit_optional_of};
ghost use Rattle.pc_calls.specs.Inline.{renamed, renamed_optional, declarator_list, call_list, call_block, result_list, parameters_list, put, in_one, inlined, inlined_optional, inlined_list};
ghost use Rattle.pc_inline.specs.models.Sites.{shifted, site_in};
ghost use Rattle.pc_inline.specs.models.Parts.{is_simple, is_declaring};

use crate::expressions::{rename_expression, rename_optional, shift};
use crate::finding::find;
use crate::parts::{
    copy_parameters, copy_result, copy_scalar, copy_simple, declare_target, one_of,
};
use crate::site::Site;
use pc_syntax::{Expr, ExprList, Stmt, StmtList, Target};
use pc_word::{OutOfMemory, Seq};
use std::alloc::Global;

/// By how much the symbols of a copy are shifted against those of the statements that it stands in.
const SHIFT: u32 = 65_536;

/// What stands in the place of a statement, as one statement.
#[cycle(copy_statement)]
#[tactic(auto, using(crate::proofs::Rules::copies), unfolding(pc_calls::specs::Inline::inlined, pc_syntax::specs::Plain::plain_statement))]
fn copy_statement(alloc: Global, from: &Stmt, site: Site) -> Result<Stmt, OutOfMemory>
    ensures { IfOk result (λ copy. unit_statement_of copy ≡ plain_statement (inlined (site_in site.entry) (unit_statement_of from.now))) }
{
    match from {
        Stmt::Block { items } => {
            let mut copies = Seq::new(alloc);
            copy_items(alloc, items, site, &mut copies)?;
            Ok(Stmt::Block { items: copies })
        }
        Stmt::If {
            line,
            test,
            yes,
            no,
        } => {
            let no = copy_held(alloc, no, site)?;
            copy_if(alloc, yes, *line, test, no, site)
        }
        Stmt::While { line, test, body } => copy_while(alloc, body, *line, test, site),
        Stmt::Do { line, body, test } => copy_do(alloc, body, *line, test, site),
        Stmt::For {
            line,
            first,
            test,
            step,
            body,
        } => {
            let mut copies = Seq::new(alloc);
            copy_items(alloc, first, site, &mut copies)?;
            let step = copy_held(alloc, step, site)?;
            copy_for(alloc, body, *line, copies, test, step, site)
        }
        Stmt::Scalar { .. } | Stmt::Call { .. } => {
            let mut copies = Seq::new(alloc);
            copy_declaring(alloc, from, site, &mut copies)?;
            Ok(one_of(copies))
        }
        Stmt::Array { .. } | Stmt::Assign { .. } | Stmt::Print { .. } => copy_simple(
            alloc, from, site,
        ),
        Stmt::Eval { .. } | Stmt::Break { .. } | Stmt::Continue { .. } => copy_simple(
            alloc, from, site,
        ),
        Stmt::Return { .. } | Stmt::Empty => copy_simple(alloc, from, site),
    }
}

/// An `if` with this `else`.
#[cycle(copy_statement)]
#[tactic(auto, using(crate::proofs::Rules::copies), unfolding(pc_calls::specs::Inline::inlined, pc_syntax::specs::Plain::plain_statement))]
fn copy_if(
    alloc: Global,
    yes: &Stmt,
    line: u32,
    test: &Expr,
    no: Option<Box<Stmt>>,
    site: Site,
) -> Result<Stmt, OutOfMemory>
    ensures { IfOk result (λ copy. unit_statement_of copy
        ≡ If line (renamed (shifted site.entry.offset) (expression_of test.now))
        (plain_statement (inlined (site_in site.entry) (unit_statement_of yes.now))) (unit_optional_of no)) }
{
    let test = rename_expression(alloc, test, site.offset)?;
    let yes = copy_statement(alloc, yes, site)?;
    let yes = Box::new(alloc, yes)?;
    Ok(Stmt::If {
        line,
        test,
        yes,
        no,
    })
}

/// A `while`.
#[cycle(copy_statement)]
#[tactic(auto, using(crate::proofs::Rules::copies), unfolding(pc_calls::specs::Inline::inlined, pc_syntax::specs::Plain::plain_statement))]
fn copy_while(
    alloc: Global,
    body: &Stmt,
    line: u32,
    test: &Expr,
    site: Site,
) -> Result<Stmt, OutOfMemory>
    ensures { IfOk result (λ copy. unit_statement_of copy
        ≡ While line (renamed (shifted site.entry.offset) (expression_of test.now))
        (plain_statement (inlined (site_in site.entry) (unit_statement_of body.now)))) }
{
    let test = rename_expression(alloc, test, site.offset)?;
    let body = copy_statement(alloc, body, site)?;
    let body = Box::new(alloc, body)?;
    Ok(Stmt::While { line, test, body })
}

/// A `do`.
#[cycle(copy_statement)]
#[tactic(auto, using(crate::proofs::Rules::copies), unfolding(pc_calls::specs::Inline::inlined, pc_syntax::specs::Plain::plain_statement))]
fn copy_do(
    alloc: Global,
    body: &Stmt,
    line: u32,
    test: &Expr,
    site: Site,
) -> Result<Stmt, OutOfMemory>
    ensures { IfOk result (λ copy. unit_statement_of copy
        ≡ Do line (plain_statement (inlined (site_in site.entry) (unit_statement_of body.now)))
        (renamed (shifted site.entry.offset) (expression_of test.now))) }
{
    let body = copy_statement(alloc, body, site)?;
    let body = Box::new(alloc, body)?;
    let test = rename_expression(alloc, test, site.offset)?;
    Ok(Stmt::Do { line, body, test })
}

/// A `for` with this first part and this step.
#[cycle(copy_statement)]
#[tactic(auto, using(crate::proofs::Rules::copies), unfolding(pc_calls::specs::Inline::inlined, pc_syntax::specs::Plain::plain_statement))]
fn copy_for(
    alloc: Global,
    body: &Stmt,
    line: u32,
    first: StmtList,
    test: &Expr,
    step: Option<Box<Stmt>>,
    site: Site,
) -> Result<Stmt, OutOfMemory>
    ensures { IfOk result (λ copy. unit_statement_of copy
        ≡ For line (unit_list_of first) (renamed (shifted site.entry.offset) (expression_of test.now)) (unit_optional_of step)
        (plain_statement (inlined (site_in site.entry) (unit_statement_of body.now)))) }
{
    let test = rename_expression(alloc, test, site.offset)?;
    let body = copy_statement(alloc, body, site)?;
    let body = Box::new(alloc, body)?;
    Ok(Stmt::For {
        line,
        first,
        test,
        step,
        body,
    })
}

/// What stands in the place of a statement that may be left out.
#[cycle(copy_statement)]
#[tactic(auto, using(crate::proofs::Rules::copies), unfolding(pc_calls::specs::Inline::inlined, pc_syntax::specs::Plain::plain_statement))]
fn copy_held(
    alloc: Global,
    from: &Option<Box<Stmt>>,
    site: Site,
) -> Result<Option<Box<Stmt>>, OutOfMemory>
    ensures { IfOk result (λ copy. unit_optional_of copy ≡ plain_optional (inlined_optional (site_in site.entry) (unit_optional_of from.now))) }
{
    match from {
        None => Ok(None),
        Some(from) => {
            let copy = copy_statement(alloc, from, site)?;
            let copy = Box::new(alloc, copy)?;
            Ok(Some(copy))
        }
    }
}

/// Puts what stands in the place of a statement after others.
#[cycle(copy_statement)]
#[tactic(auto, using(crate::proofs::Rules::copies), unfolding(pc_calls::specs::Inline::inlined, pc_syntax::specs::Plain::plain_statement))]
fn copy_into(alloc: Global, from: &Stmt, site: Site, into: &mut StmtList) -> Result<(), OutOfMemory>
    ensures { OnOk result (unit_list_of into.new ≡ unit_appended (unit_list_of into.old)
        (plain_list (put (site_in site.entry) (unit_statement_of from.now) (inlined (site_in site.entry) (unit_statement_of from.now)) No_more))) }
{
    match from {
        Stmt::Scalar { .. } | Stmt::Call { .. } => copy_declaring(alloc, from, site, into),
        Stmt::Block { .. }
        | Stmt::If { .. }
        | Stmt::While { .. }
        | Stmt::Do { .. }
        | Stmt::For { .. }
        | Stmt::Array { .. }
        | Stmt::Assign { .. }
        | Stmt::Print { .. }
        | Stmt::Eval { .. }
        | Stmt::Break { .. }
        | Stmt::Continue { .. }
        | Stmt::Return { .. }
        | Stmt::Empty => {
            let copy = copy_statement(alloc, from, site)?;
            into.push(copy)?;
            Ok(())
        }
    }
}

/// The same of a statement in whose place two may stand: the declaration of a scalar, or a call.
#[cycle(copy_statement)]
#[tactic(auto, using(crate::proofs::Rules::copies), unfolding(pc_calls::specs::Inline::inlined, pc_syntax::specs::Plain::plain_statement))]
fn copy_declaring(
    alloc: Global,
    from: &Stmt,
    site: Site,
    into: &mut StmtList,
) -> Result<(), OutOfMemory>
    requires { is_declaring (unit_statement_of from.now) ≡ true }
    ensures { OnOk result (unit_list_of into.new ≡ unit_appended (unit_list_of into.old)
        (plain_list (put (site_in site.entry) (unit_statement_of from.now) (inlined (site_in site.entry) (unit_statement_of from.now)) No_more))) }
{
    match from {
        Stmt::Scalar { symbol, line, init } => copy_scalar(alloc, *symbol, *line, init, site, into),
        Stmt::Call {
            line,
            target,
            function,
            args,
            ..
        } => {
            declare_target(*target, site, into)?;
            let block = copy_block(alloc, *line, *target, *function, args, site)?;
            into.push(block)?;
            Ok(())
        }
        Stmt::Block { .. } | Stmt::If { .. } | Stmt::While { .. } | Stmt::Do { .. } =>
            unreachable!(),
        Stmt::For { .. } | Stmt::Array { .. } | Stmt::Assign { .. } => unreachable!(),
        Stmt::Print { .. } | Stmt::Eval { .. } | Stmt::Break { .. } => unreachable!(),
        Stmt::Continue { .. } | Stmt::Return { .. } | Stmt::Empty => unreachable!(),
    }
}

/// The block of a call: its arguments, the copy of its function, and what is done with the result.
#[cycle(copy_statement)]
#[tactic(auto, using(crate::proofs::Rules::copies), unfolding(pc_calls::specs::Inline::inlined, pc_syntax::specs::Plain::plain_statement))]
fn copy_block(
    alloc: Global,
    line: u32,
    target: Option<Target>,
    function: u32,
    args: &ExprList,
    site: Site,
) -> Result<Stmt, OutOfMemory>
    ensures { IfOk result (λ copy. unit_statement_of copy
        ≡ plain_statement (call_block (site_in site.entry) line target ((site_in site.entry).copies function) (map expression_of args.now))) }
{
    let place = match find(site.functions, function) {
        None => return Ok(Stmt::Empty),
        Some(place) => place,
    };
    let callee = &site.functions[place];
    let inner = Site {
        functions: &site.functions[..place],
        offset: shift(SHIFT, site.offset),
        in_function: true,
    };
    let mut items = Seq::new(alloc);
    copy_parameters(
        alloc,
        callee.params.as_slice(),
        args,
        inner.offset,
        site.offset,
        &mut items,
    )?;
    copy_items(alloc, &callee.items, inner, &mut items)?;
    copy_result(
        alloc,
        line,
        target,
        &callee.result,
        inner.offset,
        site.offset,
        &mut items,
    )?;
    Ok(Stmt::Block { items })
}

/// Puts what stands in the place of statements after others.
#[cycle(copy_statement)]
#[tactic(auto, using(crate::proofs::Rules::copies), unfolding(pc_calls::specs::Inline::inlined, pc_syntax::specs::Plain::plain_statement))]
pub(crate) fn copy_items(
    alloc: Global,
    items: &StmtList,
    site: Site,
    into: &mut StmtList,
) -> Result<(), OutOfMemory>
    ensures { OnOk result (unit_list_of into.new ≡ unit_appended (unit_list_of into.old)
        (plain_list (inlined_list (site_in site.entry) (unit_list_of items.now)))) }
{
    for item in items.as_slice() {
        copy_into(alloc, item, site, into)?;
    }
    Ok(())
}
