//! How the window of a row begins.
use crate::stands::Setting;
use pc_cert::Opening;
use pc_table::{RegionTable, RegionTree};
use pc_window::{Window, WindowTree};
use pc_word::Item;

/// The region that a tree of copies alone leads to.
fn led_to(tree: &RegionTree) -> Option<u32> {
    match tree {
        RegionTree::Step {
            item: Item::Copy { .. },
            next,
            ..
        } => led_to(next),
        RegionTree::Next { region } => Some(*region),
        _ => None,
    }
}

/// The region that is entered in the end, where regions of copies alone lead on.
fn last_region(table: &RegionTable, region: u32) -> u32 {
    let mut last = region;
    for _ in 0..table.regions.len() {
        let Some(it) = table.regions.get(last as usize) else {
            return last;
        };
        let Some(next) = led_to(&it.tree) else {
            return last;
        };
        last = next;
    }
    last
}

/// Whether a loop is pipelined.
fn is_pipelined(setting: &Setting, inside: Option<u16>) -> bool {
    match inside {
        None => false,
        Some(number) => match setting.pipelined.get(number as usize) {
            None => false,
            Some(it) => *it,
        },
    }
}

/// Whether a stub of a tree leads on inside a loop.
fn stays_inside(table: &RegionTable, tree: &WindowTree, inside: Option<u16>) -> bool {
    match tree {
        WindowTree::Step { rest, .. } => stays_inside(table, rest, inside),
        WindowTree::Test { yes, no, .. } => {
            stays_inside(table, yes, inside) || stays_inside(table, no, inside)
        }
        WindowTree::Node { below } => stays_inside(table, below, inside),
        WindowTree::Exit { region, .. } => table.is_inside(*region, inside),
        WindowTree::Stop | WindowTree::Trap { .. } => false,
    }
}

/// The loop that a region is in, if it is pipelined.
fn pipelined_loop(setting: &Setting, region: u32) -> Option<u16> {
    let inside = setting.table.regions.get(region as usize)?.inside;
    if is_pipelined(setting, inside) {
        return inside;
    }
    None
}

/// The first pipelined loop in which a stub of a tree leads on.
fn loop_ahead(setting: &Setting, tree: &WindowTree) -> Option<u16> {
    match tree {
        WindowTree::Step { rest, .. } => loop_ahead(setting, rest),
        WindowTree::Test { yes, no, .. } => match loop_ahead(setting, yes) {
            None => loop_ahead(setting, no),
            found => found,
        },
        WindowTree::Node { below } => loop_ahead(setting, below),
        WindowTree::Exit { region, .. } => pipelined_loop(setting, *region),
        WindowTree::Stop | WindowTree::Trap { .. } => None,
    }
}

/// The loop of what is left, which is no stub alone: that which it had, unless a region was entered in it and no stub
/// leads on inside its loop; then one in which a stub leads on, where that is pipelined.
fn loop_of(setting: &Setting, left: &Window, entered: bool) -> Option<u16> {
    if !entered || stays_inside(setting.table, &left.tree, left.inside) {
        return left.inside;
    }
    match loop_ahead(setting, &left.tree) {
        None => left.inside,
        found => found,
    }
}

/// The loop of the region that a stub stands for.
fn loop_entered(setting: &Setting, region: u32) -> Option<u16> {
    let table = setting.table;
    table.innermost_loop(last_region(table, region))
}

/// The opening of a row that is reached where this is left: a stub is entered, unless it leads on in the pipelined loop
/// of the window. Where a region was entered in what is left, its loop may be that of the region.
pub(crate) fn opening_of(setting: &Setting, left: &Window, entered: bool) -> Opening {
    let mut opening = Opening {
        enters: true,
        window: 0,
        inside: left.inside,
    };
    match &left.tree {
        WindowTree::Exit { region, .. } => {
            let stays = setting.table.is_inside(*region, left.inside);
            if stays && is_pipelined(setting, left.inside) {
                opening.enters = false;
            } else {
                opening.inside = loop_entered(setting, *region);
            }
        }
        _ => opening.inside = loop_of(setting, left, entered),
    }
    if is_pipelined(setting, opening.inside) {
        opening.window = setting.number;
    }
    opening
}
