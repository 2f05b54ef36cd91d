//! Whether rows do others with other registers.
ghost use Rattle.std.specs.Prelude.{◌≡◌, ◌↔◌, ◌<◌, ◌≤◌, ℕ, Some, true, false, length, slice_get, IfSome, IfNone, IsSome};
ghost use Rattle.pc_machine.specs.Registers.{most_registers};
ghost use Rattle.pc_machine.specs.MachineCode.{row_of, rows_of};
ghost use Rattle.pc_word.specs.Items.{dest_of};
ghost use Rattle.pc_machine.specs.declared.tree.Leaf.TheVariants as Leaf;
ghost use Rattle.pc_renaming.specs.declared.kept.Kept.TheVariants as Stands;
ghost use Rattle.pc_renaming.specs.Renaming.{StandsIn, with_kept};
ghost use Rattle.std.specs.List.{AllByRecursion};
ghost use Rattle.pc_word.specs.Row.{Then};
ghost use Rattle.pc_renaming.specs.Witness.{home_of, with_home, holds_in, renaming_of};
ghost use Rattle.pc_renaming.specs.ItemRenames.{ItemRenames, only_gives};
ghost use Rattle.pc_renaming.specs.RowRenames.{ItemGoes, ItemStays, LeafRenames, RowRenames};
ghost use Rattle.pc_renaming.specs.IsRenamed.{DoesItsOrigin, AreRenamed};
ghost use Rattle.pc_renaming.specs.models.Tables.{homes_in, kept_in, written_in};
ghost use Rattle.pc_renaming.specs.models.Wanted.{IsWanted, AreWantedAlike, AreWantedApart, MadeIsWritten, WriteAlike, WriteApart, IsCopyOf, NeverBoth, StaysBeside, NeverStays, GoesBeside, NeverGoes};
ghost use Rattle.pc_renaming.specs.Writes.{ItemWritesBelow, RowWritesBelow};

use crate::homes::Homes;
use crate::kept::Kept;
use crate::path::Path;
use crate::witness::{Holding, RowWitness};
use pc_machine::{Leaf, MOST_REGISTERS, Tree};
use pc_word::{Item, Operand, RowTree};

/// Whether all that an item does is to give its register a word: it may be missing where that word is not needed.
pub fn only_gives(item: Item) -> bool
    ensures { result ≡ only_gives item }
{
    match item {
        Item::Bin { .. } | Item::Copy { .. } | Item::Load { .. } | Item::More { .. } => true,
        Item::Store { .. } | Item::Print { .. } | Item::Read { .. } => false,
    }
}

/// What is told of a row: nothing where it is not told of.
fn held_in(told: &[RowWitness], row: u32) -> &[Holding]
    ensures { home_of result.now ≡ holds_in (slice_get told.now row) }
{
    match told.get(row as usize) {
        Some(there) => there.held.as_slice(),
        None => &[],
    }
}

/// The register in which a value is to be found, with what is told of one more.
fn with_told(place: Option<u8>, holding: Holding, register: u32) -> Option<u8>
    ensures { result ≡ with_home holding.register holding.place (λ _. place) register }
{
    if holding.register as u32 == register {
        Some(holding.place)
    } else {
        place
    }
}

/// The register in which a value is to be found, among these; `None` where it is not needed.
#[tactic(auto, using(crate::proofs::Wanting::home_laws))]
fn told_place(held: &[Holding], register: u32) -> Option<u8>
    ensures { result ≡ home_of held.now register }
{
    let mut place = None;
    for holding in held {
        place = with_told(place, *holding, register);
    }
    place
}

/// The register in which the value of a register of the code before is to be found in a row to which
/// a leaf leads; `None` where none of these rows needs it.
fn place_below(told: &[RowWitness], row: &Tree, register: u32) -> Option<u8>
    ensures some { IfSome result (λ place. IsWanted (renaming_of told.now) register place (row_of row.now)) }
    ensures none { (place : ℕ) → IsWanted (renaming_of told.now) register place (row_of row.now) → IsSome result }
{
    match row {
        RowTree::Step { next, .. } => place_below(told, next, register),
        RowTree::Test { yes, no, .. } => match place_below(told, yes, register) {
            Some(place) => Some(place),
            None => place_below(told, no, register),
        },
        RowTree::Leaf { leaf } => match leaf {
            Leaf::Goto { row } => told_place(held_in(told, *row), register),
            Leaf::Stop | Leaf::Trap { .. } => None,
        },
    }
}

/// Whether some value is to be found in this register in a row to which a leaf leads.
fn is_wanted_below(told: &[RowWitness], row: &Tree, place: u32) -> bool
    ensures { (result ≡ true) ↔ ((register : ℕ) × IsWanted (renaming_of told.now) register place (row_of row.now)) }
{
    match row {
        RowTree::Step { next, .. } => is_wanted_below(told, next, place),
        RowTree::Test { yes, no, .. } => {
            if is_wanted_below(told, yes, place) {
                return true;
            }
            is_wanted_below(told, no, place)
        }
        RowTree::Leaf { leaf } => match leaf {
            Leaf::Goto { row } => Homes::of(held_in(told, *row)).has(place),
            Leaf::Stop | Leaf::Trap { .. } => false,
        },
    }
}

/// Whether what an item writes in a register of the code after is wanted below as the value of a
/// register of the code before, or neither is wanted.
fn are_wanted_alike(told: &[RowWitness], row: &Tree, register: u32, place: u32) -> bool
    ensures alike { result ≡ true → AreWantedAlike (renaming_of told.now) register place (row_of row.now) }
    ensures apart { result ≡ false → AreWantedApart (renaming_of told.now) register place (row_of row.now) }
{
    match place_below(told, row, register) {
        Some(wanted) => wanted as u32 == place,
        None => !is_wanted_below(told, row, place),
    }
}

/// Whether what two items write, if both do, is wanted alike below.
#[tactic(auto, using(crate::proofs::Going::writing_laws))]
fn write_alike(told: &[RowWitness], row: &Tree, old: Item, new: Item) -> bool
    ensures alike { result ≡ true → WriteAlike (renaming_of told.now) old new (row_of row.now) }
    ensures apart { result ≡ false → WriteApart (renaming_of told.now) old new (row_of row.now) }
{
    match old.dest() {
        Some(register) => match new.dest() {
            Some(place) => are_wanted_alike(told, row, register, place),
            None => true,
        },
        None => true,
    }
}

/// Below an item that writes what nothing needs, if it only gives a word; `None` where it does more.
fn unneeded(path: &Path, item: Item, dest: u32) -> Option<Path>
    ensures only { IfSome result (λ below. only_gives item ≡ true) }
    ensures kept { IfSome result (λ below. kept_in below ≡ with_kept dest Stands.Lost (kept_in path.now)) }
    ensures written { IfSome result (λ below. written_in below ≡ written_in path.now) }
    ensures none { dest < most_registers → IfNone result (only_gives item ≡ false) }
{
    if !only_gives(item) {
        return None;
    }
    path.with_kept(dest, Kept::Lost)
}

/// Below a copy of a value that a register has anyway, in which it is to be found; `None` where it
/// is no such copy.
fn copied(homes: &Homes, path: &Path, item: Item, dest: u32, wanted: u8) -> Option<Path>
    requires { dest_of item ≡ Some dest }
    ensures copy { IfSome result (λ below. IsCopyOf (homes_in homes.now) (kept_in path.now) item dest wanted) }
    ensures kept { IfSome result (λ below. kept_in below ≡ with_kept dest (Stands.Was wanted) (kept_in path.now)) }
    ensures written { IfSome result (λ below. written_in below ≡ written_in path.now) }
    ensures none { dest < most_registers → IfNone result (IsCopyOf (homes_in homes.now) (kept_in path.now) item dest wanted → ⊥) }
{
    match item {
        Item::Copy {
            from: Operand::Name(from),
            ..
        } => {
            if !homes.is_at(from, wanted as u32) {
                return None;
            }
            if !path.is_before(dest) {
                return None;
            }
            path.with_kept(dest, Kept::Was { register: wanted })
        }
        _ => None,
    }
}

/// Below an item that the row after, of which this is what is left, is to be without: one that
/// nothing needs, or a copy of a value that is in its place anyway. `None` where it is to have it.
#[tactic(auto, using(crate::proofs::Going::goes_laws))]
fn gone(told: &[RowWitness], homes: &Homes, path: &Path, item: Item, left: &Tree) -> Option<Path>
    ensures goes { IfSome result (λ below. GoesBeside (length told.now) (renaming_of told.now) (homes_in homes.now) (kept_in path.now) (written_in path.now) item (row_of left.now) (kept_in below)) }
    ensures written { IfSome result (λ below. written_in below ≡ written_in path.now) }
    ensures never { ItemWritesBelow most_registers item → IfNone result (NeverGoes (length told.now) (renaming_of told.now) (homes_in homes.now) (kept_in path.now) (written_in path.now) item (row_of left.now)) }
{
    match item.dest() {
        Some(dest) => match place_below(told, left, dest) {
            Some(place) => copied(homes, path, item, dest, place),
            None => unneeded(path, item, dest),
        },
        None => None,
    }
}

/// Below items that write registers, of which the first's is not written yet.
#[tactic(auto, using(crate::proofs::Checked::stays_laws))]
fn both_write(
    registers: u16,
    homes: &Homes,
    path: &Path,
    old: Item,
    new: Item,
    dest: u32,
) -> Option<Path>
    requires same { ItemRenames registers (homes_in homes.now) old new }
    requires dest { dest_of old ≡ Some dest }
    ensures stays { IfSome result (λ below. ItemStays registers (homes_in homes.now) (kept_in path.now) (written_in path.now) old new (kept_in below) (written_in below)) }
    ensures none { registers ≤ most_registers → dest < most_registers → IfNone result (NeverBoth registers (homes_in homes.now) (kept_in path.now) (written_in path.now) old new) }
{
    match new.dest() {
        Some(made) => {
            if registers as u32 <= made {
                return None;
            }
            if MOST_REGISTERS as u32 <= made {
                return None;
            }
            if path.writes(made) {
                return None;
            }
            if !path.is_before(dest) {
                return None;
            }
            let register = made as u8;
            match path.with_kept(dest, Kept::Made { register }) {
                Some(below) => Some(below.with_written(register)),
                None => None,
            }
        }
        None => None,
    }
}

/// Below items of which one does what the other does; `None` where it does not.
#[tactic(auto, using(crate::proofs::Checked::stays_laws))]
fn stays(registers: u16, homes: &Homes, path: &Path, old: Item, new: Item) -> Option<Path>
    ensures stays { IfSome result (λ below. ItemStays registers (homes_in homes.now) (kept_in path.now) (written_in path.now) old new (kept_in below) (written_in below)) }
    ensures none { registers ≤ most_registers → ItemWritesBelow most_registers old → IfNone result (NeverBoth registers (homes_in homes.now) (kept_in path.now) (written_in path.now) old new) }
{
    if !homes.renames_item(registers, old, new) {
        return None;
    }
    match old.dest() {
        Some(dest) => both_write(registers, homes, path, old, new, dest),
        None => Some(*path),
    }
}

/// Below items of which one does what the other does and writes what is wanted alike in the rows to
/// which what is left leads; `None` where it does not.
#[tactic(auto, using(crate::proofs::Going::both_laws))]
fn both_stay(
    registers: u16,
    told: &[RowWitness],
    homes: &Homes,
    path: &Path,
    old: Item,
    new: Item,
    left: &Tree,
) -> Option<Path>
    ensures stays { IfSome result (λ below. ItemStays registers (homes_in homes.now) (kept_in path.now) (written_in path.now) old new (kept_in below) (written_in below)) }
    ensures alike { IfSome result (λ below. WriteAlike (renaming_of told.now) old new (row_of left.now)) }
    ensures never { registers ≤ most_registers → ItemWritesBelow most_registers old → MadeIsWritten (kept_in path.now) (written_in path.now) → IfNone result (NeverStays registers (length told.now) (renaming_of told.now) (homes_in homes.now) (kept_in path.now) (written_in path.now) old (Then new (row_of left.now))) }
{
    match stays(registers, homes, path, old, new) {
        Some(below) => {
            if write_alike(told, left, old, new) {
                Some(below)
            } else {
                None
            }
        }
        None => None,
    }
}

/// Below an item that the row after, of which this is what is left, begins with; `None` where it
/// does not.
fn beside(
    registers: u16,
    told: &[RowWitness],
    homes: &Homes,
    path: &Path,
    item: Item,
    new: &Tree,
) -> Option<Path>
    ensures stays { IfSome result (λ below. StaysBeside registers (length told.now) (renaming_of told.now) (homes_in homes.now) (kept_in path.now) (written_in path.now) item (row_of new.now) (kept_in below) (written_in below)) }
    ensures never { registers ≤ most_registers → ItemWritesBelow most_registers item → MadeIsWritten (kept_in path.now) (written_in path.now) → IfNone result (NeverStays registers (length told.now) (renaming_of told.now) (homes_in homes.now) (kept_in path.now) (written_in path.now) item (row_of new.now)) }
{
    match new {
        RowTree::Step { item: other, next } => {
            both_stay(registers, told, homes, path, item, *other, next)
        }
        _ => None,
    }
}

/// Whether the value of a register of the code before, if it is to be somewhere, is found there.
fn is_found(homes: &Homes, path: &Path, there: &Homes, register: u8) -> bool
    ensures { (result ≡ true) ↔ ((place : ℕ) → homes_in there.now register ≡ Some place → StandsIn (homes_in homes.now) (written_in path.now) register place (kept_in path.now register)) }
{
    match there.place(register as u32) {
        Some(place) => path.finds(homes, register, place),
        None => true,
    }
}

/// Whether each value that is to be somewhere is found there.
#[tactic(auto, using(crate::proofs::Wanting::home_laws))]
fn all_found(homes: &Homes, path: &Path, there: &Homes) -> bool
    ensures { (result ≡ true) ↔ ((register place : ℕ) → homes_in there.now register ≡ Some place → StandsIn (homes_in homes.now) (written_in path.now) register place (kept_in path.now register)) }
{
    for register in 0..MOST_REGISTERS {
        if !is_found(homes, path, there, register as u8) {
            return false;
        }
    }
    true
}

/// Whether two gotos lead to rows of which one does the other and finds what it needs.
#[tactic(auto, using(crate::proofs::Checked::leaf_laws))]
fn both_lead(told: &[RowWitness], homes: &Homes, path: &Path, target: u32, to: u32) -> bool
    ensures { (result ≡ true) ↔ LeafRenames (length told.now) (renaming_of told.now) (homes_in homes.now) (kept_in path.now) (written_in path.now) (Leaf.Goto target) (Leaf.Goto to) }
{
    match told.get(to as usize) {
        Some(row) => {
            if row.origin != target {
                return false;
            }
            all_found(homes, path, &Homes::of(row.held.as_slice()))
        }
        None => false,
    }
}

/// Whether two leaves lead to the same.
#[tactic(auto, using(crate::proofs::Checked::leaf_laws))]
fn leaf(told: &[RowWitness], homes: &Homes, path: &Path, old: Leaf, new: Leaf) -> bool
    ensures { (result ≡ true) ↔ LeafRenames (length told.now) (renaming_of told.now) (homes_in homes.now) (kept_in path.now) (written_in path.now) old new }
{
    match old {
        Leaf::Goto { row } => match new {
            Leaf::Goto { row: to } => both_lead(told, homes, path, row, to),
            _ => false,
        },
        Leaf::Stop => match new {
            Leaf::Stop => true,
            _ => false,
        },
        Leaf::Trap { kind, line } => match new {
            Leaf::Trap {
                kind: other,
                line: place,
            } => kind == other && line == place,
            _ => false,
        },
    }
}

/// Whether what is left of a row does what is left of a row of the code before.
#[tactic(auto, using(crate::proofs::Checked::row_laws))]
fn row(
    registers: u16,
    told: &[RowWitness],
    homes: &Homes,
    path: &Path,
    old: &Tree,
    new: &Tree,
) -> bool
    ensures renames { result ≡ true → RowRenames registers (length told.now) (renaming_of told.now) (homes_in homes.now) (kept_in path.now) (written_in path.now) (row_of old.now) (row_of new.now) }
    ensures exact { registers ≤ most_registers → RowWritesBelow most_registers (row_of old.now) → MadeIsWritten (kept_in path.now) (written_in path.now) → RowRenames registers (length told.now) (renaming_of told.now) (homes_in homes.now) (kept_in path.now) (written_in path.now) (row_of old.now) (row_of new.now) → result ≡ true }
{
    match old {
        RowTree::Step { item, next } => {
            match beside(registers, told, homes, path, *item, new) {
                Some(below) => match new {
                    RowTree::Step { next: rest, .. } => {
                        row(registers, told, homes, &below, next, rest)
                    }
                    _ => false,
                },
                None => match gone(told, homes, path, *item, new) {
                    Some(below) => row(registers, told, homes, &below, next, new),
                    None => false,
                },
            }
        }
        RowTree::Test { on, yes, no } => match new {
            RowTree::Test {
                on: one,
                yes: other_yes,
                no: other_no,
            } => {
                if !homes.renames_operand(registers, *on, *one) {
                    return false;
                }
                if !row(registers, told, homes, path, yes, other_yes) {
                    return false;
                }
                row(registers, told, homes, path, no, other_no)
            }
            _ => false,
        },
        RowTree::Leaf { leaf: end } => match new {
            RowTree::Leaf { leaf: other } => leaf(told, homes, path, *end, *other),
            _ => false,
        },
    }
}

/// Whether a row with this number does the row that it is said to do.
#[tactic(auto, using(crate::proofs::Checked::origin_laws))]
fn does_its_origin(
    registers: u16,
    told: &[RowWitness],
    before: &[Tree],
    number: usize,
    new: &Tree,
) -> bool
    ensures does { result ≡ true → DoesItsOrigin registers (renaming_of told.now) (rows_of before.now) (length told.now) number (row_of new.now) }
    ensures exact { registers ≤ most_registers → AllByRecursion (RowWritesBelow most_registers) (rows_of before.now) → number < length told.now → DoesItsOrigin registers (renaming_of told.now) (rows_of before.now) (length told.now) number (row_of new.now) → result ≡ true }
{
    let Some(told_here) = told.get(number) else {
        return false;
    };
    let Some(old) = before.get(told_here.origin as usize) else {
        return false;
    };
    let homes = Homes::of(told_here.held.as_slice());
    let path = Path::root();
    row(registers, told, &homes, &path, old, new)
}

/// Whether rows do others with other registers, of this number, as the witness says. It takes no memory. Nothing that is
/// right by the witness is refused, if it has an entry for each row, there are at most 256 registers, and the rows before
/// write no others.
pub fn is_renaming(registers: u16, told: &[RowWitness], before: &[Tree], after: &[Tree]) -> bool
    ensures renamed { result ≡ true → AreRenamed registers (renaming_of told.now) (rows_of before.now) (rows_of after.now) }
    ensures told { result ≡ true → length told.now ≡ length after.now }
    ensures exact { registers ≤ most_registers → AllByRecursion (RowWritesBelow most_registers) (rows_of before.now) → length told.now ≡ length after.now → AreRenamed registers (renaming_of told.now) (rows_of before.now) (rows_of after.now) → result ≡ true }
{
    if after.is_empty() || told.len() != after.len() {
        return false;
    }
    if told[0].origin != 0 {
        return false;
    }
    for number in 0..after.len() {
        if !does_its_origin(registers, told, before, number, &after[number]) {
            return false;
        }
    }
    true
}
