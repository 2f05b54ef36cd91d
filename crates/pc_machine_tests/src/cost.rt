//! What runs cost, as texts. The numbers are those of `count`, and the shares were reckoned by hand.

use crate::count::{fault_rows, sum_rows};
use crate::vm::code_of;
use pc_count::run_profile;
use pc_machine::{TreeList, well_formed};
use pc_stat::{busiest, json_text, laws_of_busiest_rows, summary_text};
use pc_vm::Machine;
use pc_word::{MOST_CYCLES, WordList};
use std::alloc::Global;
use std::test::Fail;

const SUM: &str = "\
cycles: 8\n\
ended by: stop\n\
items: 11; 1.37 a cycle; 17.18 % of 8 in a row\n\
tests passed: 4; 0.50 a cycle; 12.50 % of 4 in a row\n\
loads and stores: 0; 0.00 a cycle; 0.00 % of 4 in a row\n\
prints: 1\n\
reads: 3\n\
cycles that did nothing but copies: 0; 0.00 %\n\
rows that ran: 3 of 3\n\
row 1 ran: 4; 50.00 %\n\
row 2 ran: 3; 37.50 %\n\
row 0 ran: 1; 12.50 %\n";

const FAULT: &str = "\
cycles: 2\n\
ended by: machine fault: element stored twice\n\
items: 1; 0.50 a cycle; 6.25 % of 8 in a row\n\
tests passed: 0; 0.00 a cycle; 0.00 % of 4 in a row\n\
loads and stores: 0; 0.00 a cycle; 0.00 % of 4 in a row\n\
prints: 0\n\
reads: 0\n\
cycles that did nothing but copies: 1; 50.00 %\n\
rows that ran: 2 of 3\n\
row 0 ran: 1; 50.00 %\n\
row 1 ran: 1; 50.00 %\n";

const SUM_JSON: &str = "\
{\"copy_cycles\":0,\"cycles\":8,\"end\":{\"kind\":\"stop\"},\"items\":11,\
\"limits\":{\"items\":8,\"loads_and_stores\":4,\"tests\":4},\"loads_and_stores\":0,\"prints\":1,\"reads\":3,\
\"rows\":[{\"cycles\":1,\"leaves\":[1]},{\"cycles\":4,\"leaves\":[3,1]},{\"cycles\":3,\"leaves\":[3]}],\"tests\":4}\n";

const FAULT_JSON: &str = "\
{\"copy_cycles\":1,\"cycles\":2,\"end\":{\"fault\":\"element stored twice\",\"kind\":\"fault\"},\"items\":1,\
\"limits\":{\"items\":8,\"loads_and_stores\":4,\"tests\":4},\"loads_and_stores\":0,\"prints\":0,\"reads\":0,\
\"rows\":[{\"cycles\":1,\"leaves\":[1]},{\"cycles\":1,\"leaves\":[0]},{\"cycles\":0,\"leaves\":[0]}],\"tests\":0}\n";

/// Whether the cost of a run of rows on an input is told so, to readers and to programs.
fn tells(
    alloc: Global,
    rows: TreeList,
    inputs: &[i32],
    budget: u64,
    summary: &str,
    json: &str,
) -> Result<bool, Fail> {
    let code = code_of(alloc, rows)?;
    let inputs = WordList::from_slice(alloc, inputs)?;
    if budget > MOST_CYCLES {
        return Ok(false);
    }
    match well_formed(&code) {
        None => {
            let mut machine = Machine::new(alloc, code, inputs)?;
            let profile = run_profile(alloc, &mut machine, budget)?;
            let code = machine.into_code();
            let told = summary_text(alloc, &code, &profile)?;
            let written = json_text(alloc, &code, &profile)?;
            Ok(told.as_slice() == summary.as_bytes() && written.as_slice() == json.as_bytes())
        }
        Some(_) => Ok(false),
    }
}

#[test]
fn costs_are_told(rt: HostRuntime) -> Result<(), Fail> {
    let alloc = rt.alloc();
    assert!(rt; tells(alloc, sum_rows(alloc)?, &[4, 8, -6], 1000, SUM, SUM_JSON)?);
    assert!(rt; tells(alloc, fault_rows(alloc)?, &[], 1000, FAULT, FAULT_JSON)?);
    Ok(())
}

#[test]
fn the_ten_busiest_rows(rt: HostRuntime) -> Result<(), Fail> {
    let counts = [1, 0, 7, 2, 9, 7, 3, 1, 1, 8, 1, 1, 5];
    let rows = busiest(rt.alloc(), &counts)?;
    let want = [4, 9, 2, 5, 12, 6, 3, 0, 7, 8];
    assert_eq!(rt; rows.len(), want.len());
    for (row, number) in rows.iter().zip(want.iter()) {
        assert_eq!(rt; row.number, *number);
    }
    laws_of_busiest_rows();
    Ok(())
}
