//! A loop's windows, opened, unwound and rebased, against windows that were worked out by hand.
ghost use Rattle.std.specs.Prelude.{◌≡◌, true, IfOk};
ghost use Rattle.pc_table.specs.Table.{table_tree};
ghost use Rattle.pc_table.specs.StoredTable.{table_of};
ghost use Rattle.pc_window.specs.Steps.{IsProper};
ghost use Rattle.pc_window.specs.StoredWindow.{window_in, InNodes};
ghost use Rattle.pc_replay_tests.specs.WorkedLoop.{body_tree, loop_tree, loop_table};

use crate::following::unwound;
use crate::tables::{asks, does};
use pc_automaton::cut_front;
use pc_linear::LinForm;
use pc_rebase::rebase;
use pc_replay::ReplayError;
use pc_table::{Region, RegionList, RegionTable, RegionTree, VarList};
use pc_window::{NameTable, Window, WindowTree};
use pc_window_specimen::first_rest;
use pc_word::{Item, LengthList, Limits, LoopList, LoopMark, OpCode, Operand};
use std::alloc::{AllocError, Global};
use std::test::Fail;

/// How much fits into a row; no window here is filled.
const LIMITS: Limits = Limits {
    ops: 4,
    tests: 1,
    mem: 1,
};

/// `product = 2 * i; element = a[product]; sum = sum + element; j = i; i = j + 1;` and the next turn.
fn body(alloc: Global) -> Result<RegionTree, AllocError>
    ensures { IfOk result (λ tree. table_tree tree ≡ body_tree) }
{
    let product = Item::Bin {
        op: OpCode::Mul,
        dest: 4,
        left: Operand::Lit(2),
        right: Operand::Name(0),
    };
    let element = Item::Load {
        dest: 2,
        array: 0,
        index: Operand::Name(4),
    };
    let sum = Item::Bin {
        op: OpCode::Add,
        dest: 3,
        left: Operand::Name(3),
        right: Operand::Name(2),
    };
    let copy = Item::Copy {
        dest: 5,
        from: Operand::Name(0),
    };
    let step = Item::Bin {
        op: OpCode::Add,
        dest: 0,
        left: Operand::Name(5),
        right: Operand::Lit(1),
    };
    let tree = does(alloc, 6, step, RegionTree::Next { region: 0 })?;
    let tree = does(alloc, 5, copy, tree)?;
    let tree = does(alloc, 4, sum, tree)?;
    let tree = does(alloc, 3, element, tree)?;
    does(alloc, 2, product, tree)
}

/// `less = i < 50;`, the body where that is so, and else `print(sum);`.
fn turn(alloc: Global) -> Result<RegionTree, AllocError>
    ensures { IfOk result (λ tree. table_tree tree ≡ loop_tree) }
{
    let print = Item::Print {
        value: Operand::Name(3),
    };
    let less = Item::Bin {
        op: OpCode::Less,
        dest: 1,
        left: Operand::Name(0),
        right: Operand::Lit(50),
    };
    let yes = body(alloc)?;
    let no = does(alloc, 7, print, RegionTree::Stop)?;
    let tree = asks(alloc, 1, Operand::Name(1), yes, no)?;
    does(alloc, 0, less, tree)
}

/// The loop as a table of one region.
#[tactic(auto, using(crate::proofs::WorkedLoopKept::worked))]
fn looping(alloc: Global) -> Result<RegionTable, AllocError>
    ensures { IfOk result (λ table. table_of table ≡ loop_table) }
{
    let mut live = VarList::new(alloc);
    live.push(0)?;
    live.push(3)?;
    let mut regions = RegionList::new(alloc);
    regions.push(Region {
        head: 0,
        tree: turn(alloc)?,
        live,
        inside: Some(0),
        heads: Some(0),
    })?;
    let mut loops = LoopList::new(alloc);
    loops.push(LoopMark {
        line: 1,
        header: 0,
        outer: None,
    })?;
    let mut arrays = LengthList::new(alloc);
    arrays.push(100)?;
    Ok(RegionTable {
        regions,
        loops,
        arrays,
    })
}

/// Its window, opened: names from 96 on are new, and so are form variables.
const OPENED: &str = "\
    0 0 Bin { op: Less, dest: 96, left: Name(0), right: Lit(50) }\n\
    0 1 if Name(96)\n\
    0 2 Bin { op: Mul, dest: 97, left: Lit(2), right: Name(0) }\n\
    0 3 Load { dest: 98, array: 0, index: Name(97) }\n\
    0 4 Bin { op: Add, dest: 99, left: Name(3), right: Name(98) }\n\
    0 6 Bin { op: Add, dest: 100, left: Name(0), right: Lit(1) }\n\
    1 to region 0 with [Home { variable: 0, value: Name(100) }, Home { variable: 3, value: Name(99) }]\n\
    0 7 Print { value: Name(3) }\n\
    end\n\
    97: 0 + 2 x0\n\
    98: 0 + 1 x97\n\
    99: 0 + 1 x3 + 1 x97\n\
    100: 1 + 1 x0\n\
    101 names, 98 form variables\n";

/// Unwound to two turns.
const UNWOUND: &str = "\
    0 0 Bin { op: Less, dest: 96, left: Name(0), right: Lit(50) }\n\
    0 1 if Name(96)\n\
    0 2 Bin { op: Mul, dest: 97, left: Lit(2), right: Name(0) }\n\
    0 3 Load { dest: 98, array: 0, index: Name(97) }\n\
    0 4 Bin { op: Add, dest: 99, left: Name(3), right: Name(98) }\n\
    0 6 Bin { op: Add, dest: 100, left: Name(0), right: Lit(1) }\n\
    1 0 Bin { op: Less, dest: 101, left: Name(100), right: Lit(50) }\n\
    1 1 if Name(101)\n\
    1 2 Bin { op: Mul, dest: 102, left: Lit(2), right: Name(100) }\n\
    1 3 Load { dest: 103, array: 0, index: Name(102) }\n\
    1 4 Bin { op: Add, dest: 104, left: Name(99), right: Name(103) }\n\
    1 6 Bin { op: Add, dest: 105, left: Name(100), right: Lit(1) }\n\
    2 to region 0 with [Home { variable: 0, value: Name(105) }, Home { variable: 3, value: Name(104) }]\n\
    1 7 Print { value: Name(99) }\n\
    end\n\
    0 7 Print { value: Name(3) }\n\
    end\n\
    97: 0 + 2 x0\n\
    98: 0 + 1 x97\n\
    99: 0 + 1 x3 + 1 x97\n\
    100: 1 + 1 x0\n\
    101: 0 + 1 x98\n\
    102: 2 + 2 x0\n\
    103: 0 + 1 x99\n\
    104: 0 + 1 x3 + 1 x97 + 1 x99\n\
    105: 2 + 1 x0\n\
    106 names, 100 form variables\n";

/// What is left of that behind the product, rebased: its parameters are 97, 3 and 0, of which 97 is
/// twice 0.
const REBASED: &str = "\
    0 3 Load { dest: 98, array: 0, index: Name(97) }\n\
    0 4 Bin { op: Add, dest: 99, left: Name(3), right: Name(98) }\n\
    0 6 Bin { op: Add, dest: 100, left: Name(0), right: Lit(1) }\n\
    1 0 Bin { op: Less, dest: 101, left: Name(100), right: Lit(50) }\n\
    1 1 if Name(101)\n\
    1 2 Bin { op: Mul, dest: 102, left: Lit(2), right: Name(100) }\n\
    1 3 Load { dest: 103, array: 0, index: Name(102) }\n\
    1 4 Bin { op: Add, dest: 104, left: Name(99), right: Name(103) }\n\
    1 6 Bin { op: Add, dest: 105, left: Name(100), right: Lit(1) }\n\
    2 to region 0 with [Home { variable: 0, value: Name(105) }, Home { variable: 3, value: Name(104) }]\n\
    1 7 Print { value: Name(99) }\n\
    end\n\
    0: 0 + 1 x101\n\
    3: 0 + 1 x100\n\
    97: 0 + 2 x101\n\
    98: 0 + 1 x97\n\
    99: 0 + 1 x97 + 1 x100\n\
    100: 1 + 1 x101\n\
    101: 0 + 1 x98\n\
    102: 2 + 2 x101\n\
    103: 0 + 1 x99\n\
    104: 0 + 1 x97 + 1 x99 + 1 x100\n\
    105: 2 + 1 x101\n\
    106 names, 102 form variables\n";

/// Writes a tree: a line for each item, test and end, with tag and origin, the yes side of a test
/// before the no side. Where nodes end does not show.
fn write_tree(alloc: Global, tree: &WindowTree, text: &mut String) -> Result<(), AllocError> {
    match tree {
        WindowTree::Step {
            tag,
            origin,
            item,
            rest,
        } => {
            let line = format!(in alloc; "{tag} {origin} {item:?}\n")?;
            text.push_str(line.as_str())?;
            write_tree(alloc, rest, text)
        }
        WindowTree::Test {
            tag,
            origin,
            on,
            yes,
            no,
        } => {
            let line = format!(in alloc; "{tag} {origin} if {on:?}\n")?;
            text.push_str(line.as_str())?;
            write_tree(alloc, yes, text)?;
            write_tree(alloc, no, text)
        }
        WindowTree::Node { below } => write_tree(alloc, below, text),
        WindowTree::Exit { region, tag, homes } => {
            let homes = homes.as_slice();
            let line = format!(in alloc; "{tag} to region {region} with {homes:?}\n")?;
            text.push_str(line.as_str())
        }
        WindowTree::Stop => text.push_str("end\n"),
        WindowTree::Trap { kind, line } => {
            let line = format!(in alloc; "{kind:?} at line {line}\n")?;
            text.push_str(line.as_str())
        }
    }
}

/// Writes the form of a name: its constant, and each factor with its form variable.
fn write_form(
    alloc: Global,
    name: u32,
    form: &LinForm,
    text: &mut String,
) -> Result<(), AllocError> {
    let line = format!(in alloc; "{name}: {}", form.offset())?;
    text.push_str(line.as_str())?;
    for place in 0..4 {
        if let Some(term) = form.term(place) {
            let more = format!(in alloc; " + {} x{}", term.factor, term.variable)?;
            text.push_str(more.as_str())?;
        }
    }
    text.push_str("\n")
}

/// Writes the form of each name, but for those whose form is the form variable with their own number,
/// and how many there are.
fn write_names(alloc: Global, names: &NameTable, text: &mut String) -> Result<(), AllocError> {
    let mut name = 0;
    for form in names.forms.as_slice() {
        if *form != LinForm::variable(name) {
            write_form(alloc, name, form, text)?;
        }
        name = name.saturating_add(1);
    }
    let variables = names.next_variable;
    let line = format!(in alloc; "{name} names, {variables} form variables\n")?;
    text.push_str(line.as_str())
}

/// Whether a window's tree and names are these.
fn is_worked(alloc: Global, window: &Window, worked: &str) -> Result<bool, AllocError> {
    let mut text = String::new(alloc);
    write_tree(alloc, &window.tree, &mut text)?;
    write_names(alloc, &window.names, &mut text)?;
    Ok(text.as_str() == worked)
}

/// What is left behind the first item or test of a window whose nodes are single.
#[tactic(auto, using(pc_automaton::proofs::Cuts::behind))]
fn behind(alloc: Global, table: &RegionTable, window: Window) -> Result<Window, ReplayError>
    requires proper { IsProper (window_in window) }
    requires nodes { InNodes true window.tree }
    ensures proper { IfOk result (λ rest. IsProper (window_in rest)) }
    ensures nodes { IfOk result (λ rest. InNodes true rest.tree) }
{
    let row = cut_front(alloc, window, table)?;
    match first_rest(row) {
        Some(rest) => Ok(rest),
        None => Err(ReplayError::NotFound),
    }
}

/// What is left behind the comparison, the test and the product, rebased.
fn rebased(alloc: Global, table: &RegionTable, window: Window) -> Result<Window, ReplayError>
    requires proper { IsProper (window_in window) }
    requires nodes { InNodes true window.tree }
{
    let rest = behind(alloc, table, window)?;
    let rest = behind(alloc, table, rest)?;
    let rest = behind(alloc, table, rest)?;
    let rest = rebase(alloc, rest)?;
    Ok(rest)
}

/// Whether the loop's windows are those that were worked out.
#[tactic(auto, using(pc_table::proofs::StoredRegions::some_region))]
fn are_worked(alloc: Global) -> Result<bool, ReplayError> {
    let table = looping(alloc)?;
    let opened = Window::of_region(alloc, &table, 0, LIMITS)?;
    if !is_worked(alloc, &opened, OPENED)? {
        return Ok(false);
    }
    let unwound = unwound(alloc, &table, 0, LIMITS, 2)?;
    if !is_worked(alloc, &unwound, UNWOUND)? {
        return Ok(false);
    }
    let rebased = rebased(alloc, &table, unwound)?;
    Ok(is_worked(alloc, &rebased, REBASED)?)
}

#[test]
fn windows_of_a_loop_are_those_worked_out_by_hand(rt: HostRuntime) -> Result<(), Fail> {
    assert!(rt; are_worked(rt.alloc())?);
    Ok(())
}
