//! What stands above a place of a window, kept on the way down to it.
ghost use Rattle.std.specs.Prelude.{◌≡◌, ◌↔◌, true, ◌++◌, OnOk};
ghost use Rattle.pc_window.specs.StoredWindow.{forms_in};
ghost use Rattle.pc_fill.specs.models.Path.{is_plain, MayComeAlong, sides_of};

use crate::readiness::{may_cross, may_pass, may_stand_behind};
use pc_window::NameTable;
use pc_word::Item;
use std::alloc::AllocError;

/// What an item or test meets on its way from a place up to the root of the window, without plain
/// items, which let everything pass; and the sides of the tests that lead there, yes where they are
/// true. It lies on the stack of the walk that goes down to the place.
#[derive(Drop)]
pub(crate) enum Path<'a> {
    /// The root.
    Root,
    /// An item of the front.
    Issued { item: Item, above: &'a Path<'a> },
    /// A side of a test of the front.
    Chosen { side: bool, above: &'a Path<'a> },
    /// An item behind the front.
    Passed { item: Item, above: &'a Path<'a> },
    /// A side of a test behind the front.
    Crossed { side: bool, above: &'a Path<'a> },
}

/// Whether an item computes and does no more: it touches no array, and prints and reads nothing.
/// Such an item may pass whatever stands above it, and whatever stands below may pass it.
pub(crate) fn is_plain(item: Item) -> bool
    ensures { result ≡ is_plain item }
{
    if item.is_memory() {
        return false;
    }
    !item.is_effect()
}

/// Whether an item, or a test, may come along a path into the front.
pub(crate) fn may_come_along(names: &NameTable, path: &Path, what: Option<Item>) -> bool
    ensures { (result ≡ true) ↔ MayComeAlong (forms_in names.now.forms) path.now what }
{
    match path {
        Path::Root => true,
        Path::Issued { item, above } => {
            if !may_stand_behind(names, *item, what) {
                return false;
            }
            may_come_along(names, above, what)
        }
        Path::Chosen { above, .. } => may_come_along(names, above, what),
        Path::Passed { item, above } => {
            if !may_pass(names, *item, what) {
                return false;
            }
            may_come_along(names, above, what)
        }
        Path::Crossed { above, .. } => {
            if !may_cross(what) {
                return false;
            }
            may_come_along(names, above, what)
        }
    }
}

/// Writes the sides that a path takes, from the root down, behind what is written.
pub(crate) fn write_sides(path: &Path, way: &mut Vec<bool>) -> Result<(), AllocError>
    ensures { OnOk result (way.new.items ≡ way.old.items ++ sides_of path.now) }
{
    match path {
        Path::Root => Ok(()),
        Path::Issued { above, .. } => write_sides(above, way),
        Path::Chosen { side, above } => {
            write_sides(above, way)?;
            way.push(*side)?;
            Ok(())
        }
        Path::Passed { above, .. } => write_sides(above, way),
        Path::Crossed { side, above } => {
            write_sides(above, way)?;
            way.push(*side)?;
            Ok(())
        }
    }
}
