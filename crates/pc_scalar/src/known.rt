//! What is known of variables: the item that each stands for, if any.
ghost use Rattle.std.specs.Prelude.{◌≡◌, ◌||◌, ◌<◌, ℕ, map, length, IfSome};
ghost use Rattle.pc_word.specs.Items.{dest_of, reads_name};
ghost use Rattle.pc_scalar.specs.Chain.{touches};
ghost use Rattle.pc_scalar.specs.models.Known.{kept, stays_true, after};

use pc_word::Item;

/// Goes past an item: what its write undoes is known no more, and what it computes is known from now on.
pub(crate) fn learn(known: &mut [Option<Item>], item: Item)
    requires { IfSome (dest_of item) (λ name. name < length known.old) }
    ensures { known.new ≡ after item known.old }
{
    if let Some(written) = item.dest() {
        forget(known, written);
        if stays_true(&item) {
            known[written as usize] = Some(item);
        }
    }
}

/// Drops what a write of a variable undoes.
fn forget(known: &mut [Option<Item>], written: u32)
    ensures { known.new ≡ map (kept written) known.old }
{
    for at in 0..known.len() {
        known[at] = kept(written, known[at]);
    }
}

/// What is known of a variable, where another was written.
fn kept(written: u32, fact: Option<Item>) -> Option<Item>
    ensures { result ≡ kept written fact }
{
    match fact {
        Some(item) => { if touches(&item, written) { None } else { fact } }
        None => None,
    }
}

/// Whether an item writes or reads a name.
#[tactic(auto, using(pc_word::proofs::Items::reads_operands))]
fn touches(item: &Item, name: u32) -> bool
    ensures { result ≡ touches item.now name }
{
    item.writes(name) || item.reads(name)
}

/// Whether an item computes or copies a value that its own write leaves as it is.
fn stays_true(item: &Item) -> bool
    ensures { result ≡ stays_true item.now }
{
    match *item {
        Item::Bin {
            dest,
            left,
            right,
            ..
        } => !left.is_name(dest) && !right.is_name(dest),
        Item::Copy { dest, from } => !from.is_name(dest),
        _ => false,
    }
}
