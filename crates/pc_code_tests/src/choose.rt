//! The forms that the regions of a table get.
ghost use Rattle.std.specs.Prelude.{◌≡◌, IfOk};
ghost use Rattle.pc_word.specs.Ranges.{IsExtent};
ghost use Rattle.pc_table.specs.Table.{table_tree};
ghost use Rattle.pc_table.specs.StoredTable.{table_of};
ghost use Rattle.pc_code_tests.specs.Summing.{zero_tree, sum_tree, summing_table};

use pc_compile::{
    Cause, ChooseError, Chosen, Form, choose, law_of_choices, law_of_chosen_forms, laws_of_pace,
};
use pc_table::{Region, RegionList, RegionTable, RegionTree, VarList};
use pc_word::{DataList, Extent, Item, LengthList, Limits, LoopList, LoopMark, OpCode, Operand};
use std::alloc::{AllocError, Global};
use std::test::Fail;

/// What stands before the loop: the sum is 0.
fn before_the_loop(alloc: Global) -> Result<RegionTree, AllocError>
    ensures { IfOk result (λ tree. table_tree tree ≡ zero_tree) }
{
    let next = Box::new(alloc, RegionTree::Next { region: 1 })?;
    let item = Item::Copy {
        dest: 1,
        from: Operand::Lit(0),
    };
    Ok(RegionTree::Step {
        origin: 0,
        item,
        next,
    })
}

/// One turn of the loop: it reads a number, and adds it to the sum or prints that.
fn turn(alloc: Global) -> Result<RegionTree, AllocError>
    ensures { IfOk result (λ tree. table_tree tree ≡ sum_tree) }
{
    let next = Box::new(alloc, RegionTree::Next { region: 1 })?;
    let item = Item::Bin {
        op: OpCode::Add,
        dest: 1,
        left: Operand::Name(1),
        right: Operand::Name(0),
    };
    let yes = RegionTree::Step {
        origin: 3,
        item,
        next,
    };
    let next = Box::new(alloc, RegionTree::Stop)?;
    let item = Item::Print {
        value: Operand::Name(1),
    };
    let no = RegionTree::Step {
        origin: 4,
        item,
        next,
    };
    let next = Box::new(
        alloc,
        RegionTree::Test {
            origin: 2,
            on: Operand::Name(0),
            yes: Box::new(alloc, yes)?,
            no: Box::new(alloc, no)?,
        },
    )?;
    Ok(RegionTree::Step {
        origin: 1,
        item: Item::Read { dest: 0 },
        next,
    })
}

/// The loop, and what stands before it, as a table of two regions.
#[tactic(auto, using(crate::proofs::SummingKept::kept))]
fn summing(alloc: Global) -> Result<RegionTable, AllocError>
    ensures { IfOk result (λ table. table_of table ≡ summing_table) }
{
    let mut regions = RegionList::new(alloc);
    regions.push(Region {
        head: 0,
        tree: before_the_loop(alloc)?,
        live: VarList::new(alloc),
        inside: None,
        heads: None,
    })?;
    regions.push(Region {
        head: 1,
        tree: turn(alloc)?,
        live: VarList::from_slice(alloc, &[1])?,
        inside: Some(0),
        heads: Some(0),
    })?;
    let mut loops = LoopList::new(alloc);
    loops.push(LoopMark {
        line: 1,
        header: 1,
        outer: None,
    })?;
    Ok(RegionTable {
        regions,
        loops,
        arrays: LengthList::new(alloc),
    })
}

/// What is chosen for the loop and what stands before it, where searches have this extent.
#[tactic(auto, using(crate::proofs::SummingKept::short))]
fn chosen_within(alloc: Global, extent: Extent) -> Result<Chosen, ChooseError>
    requires { IsExtent extent }
{
    let table = summing(alloc)?;
    let limits = Limits {
        ops: 4,
        tests: 1,
        mem: 1,
    };
    let initial = DataList::new(alloc);
    choose(alloc, &table, &initial, limits, extent)
}

/// Whether the region with this number was taken at the same place and got a form, after these causes.
fn got(chosen: &Chosen, region: u32, form: Form, causes: &[Cause]) -> bool {
    match chosen.choices.get(region as usize) {
        None => false,
        Some(choice) => {
            choice.region == region && choice.form == form && choice.causes.as_slice() == causes
        }
    }
}

#[test]
fn nothing_is_pipelined_where_a_window_holds_one_turn(rt: HostRuntime) -> Result<(), Fail> {
    let extent = Extent {
        window: 1,
        rows: 512,
    };
    let packed = match chosen_within(rt.alloc(), extent) {
        Ok(chosen) => got(&chosen, 0, Form::Packed, &[]) && got(&chosen, 1, Form::Packed, &[]),
        Err(ChooseError::Memory) => false,
    };
    assert!(&rt; packed);
    Ok(())
}

/// The first state reads a number. In each of the others the number before is tested and added, and the
/// next is read; the sum is known as one number more, until it is a sum of more than four.
#[test]
fn a_loop_is_pipelined_and_what_stands_before_it_is_packed(rt: HostRuntime) -> Result<(), Fail> {
    let extent = Extent {
        window: 2,
        rows: 16,
    };
    let form = Form::Pipelined {
        states: 5,
        rows: 16,
    };
    let pipelined = match chosen_within(rt.alloc(), extent) {
        Ok(chosen) => got(&chosen, 0, Form::Packed, &[]) && got(&chosen, 1, form, &[]),
        Err(ChooseError::Memory) => false,
    };
    assert!(&rt; pipelined);
    Ok(())
}

#[test]
fn a_loop_is_packed_where_its_schedule_has_too_few_rows(rt: HostRuntime) -> Result<(), Fail> {
    let extent = Extent { window: 2, rows: 1 };
    let cause = Cause::Rows {
        number: 2,
        limit: 1,
    };
    let packed = match chosen_within(rt.alloc(), extent) {
        Ok(chosen) => got(&chosen, 0, Form::Packed, &[]) && got(&chosen, 1, Form::Packed, &[cause]),
        Err(ChooseError::Memory) => false,
    };
    assert!(&rt; packed);
    Ok(())
}

#[test]
fn the_laws_hold() {
    law_of_chosen_forms();
    law_of_choices();
    laws_of_pace();
}
