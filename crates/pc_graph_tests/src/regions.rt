//! A graph that is cut into regions.

use crate::graphs::example;
use pc_live::live;
use pc_regions::{law_of_one_cut, laws_of_cut_runs, regions};
use pc_table::{Region, RegionTree, laws_of_regions};
use std::test::Fail;

/// What stands in a tree, in preorder, the yes side first.
#[derive(Clone, Copy, Debug, PartialEq, Eq)]
enum Part {
    Node(u32),
    Next(u32),
    End,
}

/// A region, cut by hand: its head, its tree, what is live at its head, and its loops.
#[derive(Clone, Copy)]
struct Cut {
    head: u32,
    parts: &'static [Part],
    live: &'static [u32],
    inside: Option<u16>,
    heads: Option<u16>,
}

/// The loop's test is where two edges meet, and the header of the loop; its no side leads out of the
/// loop, to nodes that are no heads.
const CUT: [Cut; 2] = [
    Cut {
        head: 0,
        parts: &[Part::Node(0), Part::Next(1)],
        live: &[1, 2],
        inside: None,
        heads: None,
    },
    Cut {
        head: 1,
        parts: &[
            Part::Node(1),
            Part::Node(2),
            Part::Node(3),
            Part::Node(4),
            Part::Next(1),
            Part::Node(5),
            Part::Node(6),
            Part::End,
        ],
        live: &[0, 1, 2],
        inside: Some(0),
        heads: Some(0),
    },
];

/// What is left of some parts after this one, if it is the first of them.
fn after(parts: &'static [Part], part: Part) -> Option<&'static [Part]> {
    match parts.split_first() {
        Some((first, rest)) if *first == part => Some(rest),
        _ => None,
    }
}

/// What is left of some parts after those of a tree, if these are the first of them.
fn after_tree(parts: &'static [Part], tree: &RegionTree) -> Option<&'static [Part]> {
    match tree {
        RegionTree::Step { origin, next, .. } => {
            let below = after(parts, Part::Node(*origin))?;
            after_tree(below, next)
        }
        RegionTree::Test {
            origin,
            yes,
            no,
            ..
        } => {
            let below = after(parts, Part::Node(*origin))?;
            let other = after_tree(below, yes)?;
            after_tree(other, no)
        }
        RegionTree::Next { region } => after(parts, Part::Next(*region)),
        RegionTree::Stop | RegionTree::Trap { .. } => after(parts, Part::End),
    }
}

/// Whether a region is as it was cut by hand.
fn is_cut(region: &Region, cut: &Cut) -> bool {
    let Some(rest) = after_tree(cut.parts, &region.tree) else {
        return false;
    };
    rest.is_empty()
        && region.head == cut.head
        && region.live.as_slice() == cut.live
        && region.inside == cut.inside
        && region.heads == cut.heads
}

#[test]
fn a_loop_is_cut_at_its_header(rt: HostRuntime) -> Result<(), Fail> {
    let flow = example(rt.alloc())?;
    let liveness = live(rt.alloc(), &flow)?;
    let table = regions(rt.alloc(), &flow, &liveness)?;
    assert_eq!(rt; table.regions.len(), CUT.len());
    for (region, cut) in table.regions.as_slice().iter().zip(CUT.iter()) {
        assert!(rt; is_cut(region, cut));
    }
    assert_eq!(rt; table.loops.len(), 1);
    assert!(rt; table.arrays.is_empty());
    laws_of_regions();
    law_of_one_cut();
    laws_of_cut_runs();
    Ok(())
}
