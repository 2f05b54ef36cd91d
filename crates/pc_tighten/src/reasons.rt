//! What items read, write and touch, and which item another one comes after or awaits.
ghost use Rattle.std.specs.Prelude.{◌≡◌, ◌&&◌};
ghost use Rattle.std.specs.List.{list_any};
ghost use Rattle.pc_word.specs.Items.{dest_of, is_effect};
ghost use Rattle.pc_word.specs.Commit.{writes};
ghost use Rattle.pc_tighten.specs.Compact.{is_dest, reads_dest, writes_both, loads, stores, stores_under, is_loaded_by};
ghost use Rattle.pc_tighten.specs.Compact.{hangs_on, comes_after, is_awaited_by};

use pc_word::{Item, Operand};

/// Whether an operand is the register that is written, if any.
fn is_dest(operand: Operand, dest: Option<u32>) -> bool
    ensures { result ≡ is_dest operand dest }
{
    match operand {
        Operand::Name(register) => writes(dest, register),
        Operand::Lit(_) => false,
    }
}

/// Whether the register that is written, if any, is this one.
fn writes(dest: Option<u32>, register: u32) -> bool
    ensures { result ≡ writes dest register }
{
    match dest {
        Some(dest) => dest == register,
        None => false,
    }
}

/// Whether an item reads the register that is written, if any.
fn reads_dest(item: Item, dest: Option<u32>) -> bool
    ensures { result ≡ reads_dest item dest }
{
    match item {
        Item::Bin { left, right, .. } => is_dest(left, dest) || is_dest(right, dest),
        Item::Copy { from, .. } => is_dest(from, dest),
        Item::Load { index, .. } => is_dest(index, dest),
        Item::Store { index, value, .. } => is_dest(index, dest) || is_dest(value, dest),
        Item::Print { value } => is_dest(value, dest),
        Item::Read { .. } => false,
        Item::More { .. } => false,
    }
}

/// Whether two items write one register.
fn writes_both(first: Option<u32>, second: Option<u32>) -> bool
    ensures { result ≡ writes_both first second }
{
    match second {
        Some(register) => writes(first, register),
        None => false,
    }
}

/// Whether an item is a load from this array.
fn loads(array: u8, item: Item) -> bool
    ensures { result ≡ loads array item }
{
    match item {
        Item::Load { array: other, .. } => array == other,
        _ => false,
    }
}

/// Whether an item is a store to this array.
fn stores(array: u8, item: Item) -> bool
    ensures { result ≡ stores array item }
{
    match item {
        Item::Store { array: other, .. } => other == array,
        _ => false,
    }
}

/// Whether `y` stores to the array that `x` loads or stores.
fn stores_under(y: Item, x: Item) -> bool
    ensures { result ≡ stores_under y x }
{
    match x {
        Item::Load { array, .. } | Item::Store { array, .. } => stores(array, y),
        _ => false,
    }
}

/// Whether `x` stores to the array from which `y` loads.
fn is_loaded_by(x: Item, y: Item) -> bool
    ensures { result ≡ is_loaded_by x y }
{
    match x {
        Item::Store { array, .. } => loads(array, y),
        _ => false,
    }
}

/// Whether `y` writes a register that `x` reads or writes.
fn hangs_on(x: Item, y: Item) -> bool
    ensures { result ≡ hangs_on x y }
{
    let dest = y.dest();
    reads_dest(x, dest) || writes_both(dest, x.dest())
}

/// Whether `x` comes after `y`, which stands on the path to the row of `x`.
pub(crate) fn comes_after(x: Item, y: Item) -> bool
    ensures { result ≡ comes_after x y }
{
    hangs_on(x, y) || stores_under(y, x) || are_effects(x, y)
}

/// Whether both are a print, read or more.
fn are_effects(x: Item, y: Item) -> bool
    ensures { result ≡ (is_effect x && is_effect y) }
{
    x.is_effect() && y.is_effect()
}

/// Whether `x` may not come before `y`, another item of its row.
pub(crate) fn is_awaited_by(x: Item, y: Item) -> bool
    ensures { result ≡ is_awaited_by x y }
{
    reads_dest(y, x.dest()) || is_loaded_by(x, y)
}

/// Whether an item comes after some of these.
pub(crate) fn comes_after_some(x: Item, items: &[Item]) -> bool
    ensures { result ≡ list_any (λ y. comes_after x y) items.now }
{
    items.iter().any(|y| comes_after(x, *y))
}

/// Whether some of these await an item.
pub(crate) fn is_awaited_by_some(x: Item, items: &[Item]) -> bool
    ensures { result ≡ list_any (λ y. is_awaited_by x y) items.now }
{
    items.iter().any(|y| is_awaited_by(x, *y))
}

/// Whether a test reads what an item writes.
pub(crate) fn is_tested(x: Item, on: Operand) -> bool
    ensures { result ≡ is_dest on (dest_of x) }
{
    is_dest(on, x.dest())
}
