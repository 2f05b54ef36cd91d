//! Which variables are live at each node.

use crate::graphs::example;
use pc_live::{law_of_dead_variables, live};
use std::test::Fail;

/// The variables that are live at each node, found by hand: the first three, by number.
const LIVE: [[bool; 3]; 8] = [
    [false, true, true],
    [true, true, true],
    [true, true, true],
    [true, false, true],
    [true, true, true],
    [false, false, true],
    [false, false, true],
    [false, false, false],
];

#[test]
fn each_variable_is_live_where_it_is_read_later(rt: HostRuntime) -> Result<(), Fail> {
    let flow = example(rt.alloc())?;
    let liveness = live(rt.alloc(), &flow)?;
    for (node, row) in LIVE.iter().enumerate() {
        for (variable, wanted) in row.iter().enumerate() {
            let found = liveness.live_at(node as u32, variable as u32);
            assert_eq!(rt; found, *wanted, "v{variable} at {node}");
        }
    }
    assert!(rt; !liveness.live_at(0, 95));
    law_of_dead_variables();
    Ok(())
}
