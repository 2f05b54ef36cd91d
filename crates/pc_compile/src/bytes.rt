//! The bytes that are counted for regions in their forms.
ghost use Rattle.std.specs.Prelude.{◌≡◌, ◌<◌, ◌≤◌, ◌*◌, ◌^◌, ◌+◌, None, length};
ghost use Rattle.pc_word.specs.MachineLimits.{most_object};
ghost use Rattle.pc_table.specs.Table.{table_tree, table_regions};
ghost use Rattle.pc_table.specs.StoredTable.{table_of};
ghost use Rattle.pc_automaton.specs.Automaton.{states_in};
ghost use Rattle.pc_emit.specs.Bytes.{leaf_bytes, row_bytes, states_bytes, tree_bytes, plain_bytes, object_bytes};
ghost use Rattle.pc_object.specs.declared.version.Version.TheVariants.{Ptv2};
ghost use Rattle.pc_object.specs.Sizes.{initial_bytes};
ghost use Rattle.pc_compile.specs.models.Counting.{all_plain_bytes, bytes_beside_rows};
ghost use Rattle.pc_word.specs.StoredRow.{row_in};

use pc_automaton::{Automaton, AutomatonLeaf};
use pc_object::{
    COUNT_BYTES, END_BYTES, GOTO_BYTES, HEADER_BYTES, LENGTH_BYTES, NOTE_BYTES, TRAP_BYTES,
    item_bytes, test_bytes,
};
use pc_table::{Region, RegionTable, RegionTree};
use pc_word::{DataList, RowTree, WordList};

/// The bytes of the two rows of one copy that are counted for each argument or home that is passed.
const PASSED_BYTES: u32 = 24;

/// The bytes of the number of registers, which the header of `PTV2` has more than that of `PTV1`.
const REGISTERS_BYTES: u32 = 2;

/// The bytes of the count of an array's words, and of a word.
const WORD_BYTES: u32 = 4;

/// The bytes of a table's object while all its regions are plain, where its arrays begin with these data.
pub(crate) fn object_bytes(table: &RegionTable, initial: &DataList) -> u32
    requires { object_bytes (table_of table.now) initial.now (λ region. None) ≤ most_object }
    ensures { result ≡ object_bytes (table_of table.now) initial.now (λ region. None) }
{
    bytes_beside_rows(table, initial) + all_plain_bytes(table.regions.as_slice())
}

/// The bytes that are counted for the rows of a table's object, of all that are counted for it, where its
/// arrays begin with these data.
pub(crate) fn rows_bytes(table: &RegionTable, initial: &DataList, all: u32) -> u32
    requires few { all ≤ most_object }
    requires within { bytes_beside_rows (table_of table.now) initial.now ≤ all }
    ensures { result + bytes_beside_rows (table_of table.now) initial.now ≡ all }
{
    all - bytes_beside_rows(table, initial)
}

/// The bytes of a table's object beside its rows, where its arrays begin with these data.
fn bytes_beside_rows(table: &RegionTable, initial: &DataList) -> u32
    requires { bytes_beside_rows (table_of table.now) initial.now ≤ most_object }
    ensures { result ≡ bytes_beside_rows (table_of table.now) initial.now }
{
    let arrays = table.arrays.len() as u32;
    let data = data_bytes(initial.as_slice());
    let loops = table.loops.len() as u32;
    (HEADER_BYTES + REGISTERS_BYTES)
        + (LENGTH_BYTES * arrays + data)
        + (COUNT_BYTES + NOTE_BYTES * loops)
}

/// The bytes of the data of arrays.
fn data_bytes(initial: &[WordList]) -> u32
    requires { initial_bytes Ptv2 initial.now ≤ most_object }
    ensures { result ≡ initial_bytes Ptv2 initial.now }
{
    let mut bytes = 0;
    for words in initial {
        bytes += WORD_BYTES + WORD_BYTES * words.len() as u32;
    }
    bytes
}

/// The bytes of regions that are all plain.
fn all_plain_bytes(regions: &[Region]) -> u32
    requires { all_plain_bytes (table_regions regions.now) ≤ most_object }
    ensures { result ≡ all_plain_bytes (table_regions regions.now) }
{
    let mut bytes = 0;
    for region in regions {
        bytes += plain_bytes(&region.tree);
    }
    bytes
}

/// The bytes of a plain region.
pub(crate) fn plain_bytes(tree: &RegionTree) -> u32
    requires { plain_bytes (table_tree tree.now) ≤ most_object }
    ensures { result ≡ plain_bytes (table_tree tree.now) }
{
    TRAP_BYTES + tree_bytes(tree)
}

/// The bytes of the rows of a plain region's items and tests.
fn tree_bytes(tree: &RegionTree) -> u32
    requires { tree_bytes (table_tree tree.now) ≤ most_object }
    ensures { result ≡ tree_bytes (table_tree tree.now) }
{
    match tree {
        RegionTree::Step { item, next, .. } => item_bytes(*item) + TRAP_BYTES + tree_bytes(next),
        RegionTree::Test { on, yes, no, .. } => {
            test_bytes(*on) + 2 * TRAP_BYTES + (tree_bytes(yes) + tree_bytes(no))
        }
        RegionTree::Next { .. } | RegionTree::Stop | RegionTree::Trap { .. } => 0,
    }
}

/// The bytes of the rows of states.
pub(crate) fn states_bytes(automaton: &Automaton) -> u32
    requires count { length automaton.now < 2 ^ 32 }
    requires few { states_bytes (states_in automaton.now) ≤ 2 * most_object }
    ensures { result ≡ states_bytes (states_in automaton.now) }
{
    let mut bytes = 0;
    for number in 0..automaton.count() {
        bytes += row_bytes(&automaton.state(number).row);
    }
    bytes
}

/// The bytes of a row.
fn row_bytes(row: &RowTree<AutomatonLeaf>) -> u32
    requires { row_bytes (row_in (λ leaf. leaf) row.now) ≤ 2 * most_object }
    ensures { result ≡ row_bytes (row_in (λ leaf. leaf) row.now) }
{
    match row {
        RowTree::Step { item, next } => item_bytes(*item) + row_bytes(next),
        RowTree::Test { on, yes, no } => test_bytes(*on) + (row_bytes(yes) + row_bytes(no)),
        RowTree::Leaf { leaf } => leaf_bytes(leaf),
    }
}

/// The bytes of a leaf, with the copies that pass its arguments or homes.
fn leaf_bytes(leaf: &AutomatonLeaf) -> u32
    requires { leaf_bytes leaf.now ≤ 2 * most_object }
    ensures { result ≡ leaf_bytes leaf.now }
{
    match leaf {
        AutomatonLeaf::To { arguments, .. } => GOTO_BYTES + PASSED_BYTES * arguments.len() as u32,
        AutomatonLeaf::Out { homes, .. } => GOTO_BYTES + PASSED_BYTES * homes.len() as u32,
        AutomatonLeaf::Stop => END_BYTES,
        AutomatonLeaf::Trap { .. } => TRAP_BYTES,
    }
}
