//! A region that is opened.

use crate::tables::{LIMITS, PRINTED};
use pc_window::{
    laws_of_cutting, laws_of_filling, laws_of_moves, laws_of_opening, laws_of_settling,
    laws_of_tables,
};
use pc_window_specimen::first_window;
use std::test::Fail;

#[test]
#[tactic(auto, using(crate::proofs::Sizes::opened_windows))]
fn a_region_opens(rt: HostRuntime) -> Result<(), Fail> {
    let size = match first_window(rt.alloc(), &PRINTED, LIMITS) {
        Ok(window) => window.size(),
        Err(_) => 0,
    };
    assert!(&rt; size == 1);
    laws_of_tables();
    laws_of_opening();
    laws_of_settling();
    laws_of_filling();
    laws_of_cutting();
    laws_of_moves();
    Ok(())
}
