//! Keys of windows.
ghost use Rattle.std.specs.Prelude.{◌≡◌, ◌↔◌, ◌<◌, ◌^◌, ◌++◌, true, length, OnOk, IfOk};
ghost use Rattle.pc_window.specs.Tree.{tree_size, whole};
ghost use Rattle.pc_window.specs.Names.{parameters_of};
ghost use Rattle.pc_window.specs.Opening.{TreeBelow, FormsBelow};
ghost use Rattle.pc_window.specs.StoredWindow.{tree_in, supply_in, window_in};
ghost use Rattle.pc_canon.specs.Canonical.{tags_of, first_tag};
ghost use Rattle.pc_canon.specs.Key.{limit_numbers, loop_numbers, key_of};
ghost use Rattle.pc_canon.specs.Keyed.{HasKey};
ghost use Rattle.pc_canon.specs.Shift.{Shifted};

use crate::forms::write_forms;
use crate::levels::levels_of;
use crate::number_bytes::NumberBytes;
use crate::tags::first_tag;
use crate::writing::{write_shape, write_tree};
use pc_window::{NumberList, Window, WindowError, parameters_of};
use pc_word::Limits;
use std::alloc::{AllocError, Global};

/// The key of a window, and what the key does not tell.
#[derive(Debug, Drop)]
pub struct WindowKey {
    /// The key itself, most of its numbers in one byte each. Two windows have equal keys exactly
    /// where they are equal up to their names, their form variables and a shift of all tags.
    pub bytes: Vec<u8>,
    /// The parameters, in the order of first use: those of windows with equal keys correspond.
    pub names: NumberList,
    /// The least tag of items, tests and stubs, and 0 where there is none.
    pub tag: u32,
}

/// The room that is taken at first for what is written, in bytes for each name. Where it is too little, more is
/// taken.
const ROOM_OF_NAME: usize = 32;

/// The key of a window. It takes time linear in the window, its names and its form variables, but for
/// putting the columns of form variables in order.
pub fn key(alloc: Global, window: &Window) -> Result<WindowKey, WindowError>
    requires below { TreeBelow (length window.now.names.forms) (tree_in window.now.tree) }
    requires few_names { length window.now.names.forms < 2 ^ 31 }
    requires variables { FormsBelow (supply_in window.now.names) }
    requires small { tree_size (tree_in window.now.tree) < 2 ^ 31 }
    ensures bytes { IfOk result (λ key. key.bytes.items ≡ key_of (window_in window.now)) }
    ensures names { IfOk result (λ key. key.names ≡ parameters_of (whole (window_in window.now).front)) }
    ensures tag { IfOk result (λ key. key.tag ≡ first_tag (tags_of (whole (window_in window.now).front))) }
{
    let count = window.names.forms.len();
    let tree = &window.tree;
    let names = parameters_of(alloc, tree, count)?;
    let tag = first_tag(tree);
    let mut levels = levels_of(alloc, names.as_slice(), count)?;
    let depth = names.len() as u32;
    let mut defined = NumberList::from_vec(Vec::with_capacity(alloc, count)?);
    let mut numbers = NumberBytes::with_room(alloc, ROOM_OF_NAME * count)?;
    write_tree(tree, tag, depth, &mut levels, &mut defined, &mut numbers)?;
    write_shape(tree, &mut numbers)?;
    write_forms(
        alloc,
        &window.names,
        names.as_slice(),
        defined.as_slice(),
        &mut numbers,
    )?;
    write_limits(window.limits, &mut numbers)?;
    write_loop(window.inside, &mut numbers)?;
    Ok(WindowKey {
        bytes: numbers.into_bytes(),
        names,
        tag,
    })
}

/// Whether two windows are equal up to their names, their form variables and a shift of all tags, which is
/// whether they have one key.
pub fn same_up_to_shift(alloc: Global, one: &Window, other: &Window) -> Result<bool, WindowError>
    requires one { HasKey one.now }
    requires other { HasKey other.now }
    ensures { IfOk result (λ same. (same ≡ true) ↔ Shifted (window_in one.now) (window_in other.now)) }
{
    let one = key(alloc, one)?;
    let other = key(alloc, other)?;
    Ok(one.bytes.as_slice() == other.bytes.as_slice())
}

/// Writes limits.
fn write_limits(limits: Limits, numbers: &mut NumberBytes) -> Result<(), AllocError>
    ensures { OnOk result (numbers.new ≡ numbers.old ++ limit_numbers limits) }
{
    numbers.push_three(
        i64::from(limits.ops),
        i64::from(limits.tests),
        i64::from(limits.mem),
    )
}

/// Writes the loop of a window.
fn write_loop(inside: Option<u16>, numbers: &mut NumberBytes) -> Result<(), AllocError>
    ensures { OnOk result (numbers.new ≡ numbers.old ++ loop_numbers inside) }
{
    match inside {
        None => numbers.push(0),
        Some(inside) => numbers.push_two(1, i64::from(inside)),
    }
}
