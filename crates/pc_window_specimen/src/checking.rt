//! Whether regions, loops and arrays are a table. Nothing here takes memory.
ghost use Rattle.std.specs.Prelude.{◌≡◌, ◌+◌, ◌<◌, true, nat_lt, MatchOption};
ghost use Rattle.std.specs.List.{list_all};
ghost use Rattle.pc_table.specs.Table.{table_tree, table_region, region_tree, region_live};
ghost use Rattle.pc_table.specs.TableKeeps.{TableKeeps, units, untested};
ghost use Rattle.pc_word.specs.Items.{dest_of, array_of};
ghost use Rattle.pc_window_specimen.specs.models.Checking.{drafted, known_at, knows, knows_item, covers, is_variable, are_variables, is_below};
ghost use Rattle.pc_window_specimen.specs.models.Checking.{item_is_there, tree_is_there, is_small, begins_here, may_follow, leads_on};
ghost use Rattle.pc_window_specimen.specs.models.Checking.{starts_above, rises, is_tree, is_live, is_region, is_outermost, is_table};

use pc_table::{MOST_REGION_NODES, Region, RegionList, RegionTree};
use pc_word::{
    Item, LengthList, LoopList, LoopMark, MOST_ARRAYS, MOST_SCALARS, MOST_TEMPORARIES, Operand,
    Operands,
};

/// What may be a table.
#[derive(Drop)]
pub(crate) struct Draft {
    pub(crate) regions: RegionList,
    pub(crate) loops: LoopList,
    pub(crate) arrays: LengthList,
}

/// The variables that are known at a place of a region.
#[derive(Drop)]
enum Known<'a> {
    /// Those that are live at its head.
    Live { names: &'a [u32] },
    /// One more, which is written above.
    Written { name: u32, above: &'a Known<'a> },
}

/// Variables are below it.
const VARIABLES: u32 = MOST_SCALARS + MOST_TEMPORARIES;

/// Whether this is a table: whether it keeps what tables keep, no loop stands in another, and a region that leads on
/// without a test leads to one that does not.
pub(crate) fn keeps(draft: &Draft) -> bool
    ensures { (result ≡ true) → TableKeeps (drafted draft.now) }
{
    is_table(draft)
}

/// Whether each part of it is one of a table.
fn is_table(draft: &Draft) -> bool
    ensures { result ≡ is_table draft.now }
{
    0 < draft.regions.len()
        && draft.arrays.len() <= MOST_ARRAYS
        && are_outermost(draft.loops.as_slice())
        && are_regions(draft, draft.regions.as_slice())
}

/// Whether each loop stands in no other.
fn are_outermost(loops: &[LoopMark]) -> bool
    ensures { result ≡ list_all is_outermost loops.now }
{
    loops.iter().all(|mark| mark.outer.is_none())
}

/// Whether some of its regions are those of a table.
fn are_regions(draft: &Draft, regions: &[Region]) -> bool
    ensures { result ≡ list_all (is_region draft.now) regions.now }
{
    regions.iter().all(|region| is_region(draft, region))
}

/// Whether a region is one of a table.
fn is_region(draft: &Draft, region: &Region) -> bool
    ensures { result ≡ is_region draft.now region.now }
{
    is_tree(draft, &region.tree)
        && is_live(draft, region)
        && is_below(draft.loops.len(), region.inside)
        && is_below(draft.loops.len(), region.heads)
}

/// Whether a loop is there, if it is named.
fn is_below(count: usize, number: Option<u16>) -> bool
    ensures { result ≡ is_below count number }
{
    match number {
        None => true,
        Some(number) => (number as usize) < count,
    }
}

// ---- trees

/// Whether a tree is one of a table's region.
fn is_tree(draft: &Draft, tree: &RegionTree) -> bool
    ensures { result ≡ is_tree draft.now (table_tree tree.now) }
{
    tree_is_there(draft.arrays.len(), draft.regions.len(), tree)
        && is_small(tree)
        && begins_here(tree)
        && leads_on(draft, tree)
}

/// Whether an operand is a literal or a variable.
fn is_variable(operand: Operand) -> bool
    ensures { result ≡ is_variable operand }
{
    match operand {
        Operand::Name(name) => name < VARIABLES,
        Operand::Lit(_) => true,
    }
}

/// Whether each operand of an item is.
fn are_variables(item: Item) -> bool
    ensures { result ≡ are_variables item }
{
    match item.operands() {
        Operands::None => true,
        Operands::One(one) => is_variable(one),
        Operands::Two(one, other) => is_variable(one) && is_variable(other),
    }
}

/// Whether an item writes a variable, if it writes.
fn writes_variable(item: Item) -> bool
    ensures { result ≡ is_below 96 (dest_of item) }
{
    match item.dest() {
        None => true,
        Some(dest) => dest < VARIABLES,
    }
}

/// Whether the array of an item is there, if it has one.
fn has_array(arrays: usize, item: Item) -> bool
    ensures { result ≡ is_below arrays (array_of item) }
{
    match item.array() {
        None => true,
        Some(array) => (array as usize) < arrays,
    }
}

/// Whether all that an item names is there.
fn item_is_there(arrays: usize, item: Item) -> bool
    ensures { result ≡ item_is_there arrays item }
{
    are_variables(item) && writes_variable(item) && has_array(arrays, item)
}

/// Whether all that a tree names is there.
fn tree_is_there(arrays: usize, regions: usize, tree: &RegionTree) -> bool
    ensures { result ≡ tree_is_there arrays regions (table_tree tree.now) }
{
    match tree {
        RegionTree::Step { item, next, .. } => {
            item_is_there(arrays, *item) && tree_is_there(arrays, regions, next)
        }
        RegionTree::Test { on, yes, no, .. } => {
            is_variable(*on)
                && tree_is_there(arrays, regions, yes)
                && tree_is_there(arrays, regions, no)
        }
        RegionTree::Next { region } => (*region as usize) < regions,
        RegionTree::Stop => true,
        RegionTree::Trap { .. } => true,
    }
}

/// What is left of some room, once the items and tests of a tree stand in it.
fn room_left(tree: &RegionTree, room: u32) -> Option<u32>
    ensures { MatchOption result (room < units (table_tree tree.now)) (λ left. left + units (table_tree tree.now) ≡ room) }
{
    match tree {
        RegionTree::Step { next, .. } => room_left(next, room)?.checked_sub(1),
        RegionTree::Test { yes, no, .. } => {
            let left = room_left(yes, room)?;
            room_left(no, left)?.checked_sub(1)
        }
        RegionTree::Next { .. } => Some(room),
        RegionTree::Stop => Some(room),
        RegionTree::Trap { .. } => Some(room),
    }
}

/// Whether a tree has not too many items and tests.
fn is_small(tree: &RegionTree) -> bool
    ensures { result ≡ is_small (table_tree tree.now) }
{
    room_left(tree, MOST_REGION_NODES).is_some()
}

/// Whether a tree begins with an item, a test, an end or a trap.
fn begins_here(tree: &RegionTree) -> bool
    ensures { result ≡ begins_here (table_tree tree.now) }
{
    match tree {
        RegionTree::Step { .. } => true,
        RegionTree::Test { .. } => true,
        RegionTree::Next { .. } => false,
        RegionTree::Stop => true,
        RegionTree::Trap { .. } => true,
    }
}

/// The region to which a tree leads that has no test.
fn untested(tree: &RegionTree) -> Option<u32>
    ensures { result ≡ untested (table_tree tree.now) }
{
    match tree {
        RegionTree::Step { next, .. } => untested(next),
        RegionTree::Test { .. } => None,
        RegionTree::Next { region } => Some(*region),
        RegionTree::Stop => None,
        RegionTree::Trap { .. } => None,
    }
}

/// The same of a region's tree.
fn untested_from(draft: &Draft, region: u32) -> Option<u32>
    ensures { result ≡ untested (region_tree (drafted draft.now) region) }
{
    match draft.regions.get(region as usize) {
        None => None,
        Some(region) => untested(&region.tree),
    }
}

/// Whether a tree that has no test leads to one that does not lead on so.
fn leads_on(draft: &Draft, tree: &RegionTree) -> bool
    ensures { result ≡ leads_on (drafted draft.now) (table_tree tree.now) }
{
    match untested(tree) {
        None => true,
        Some(next) => untested_from(draft, next).is_none(),
    }
}

// ---- what is live

/// Whether variables are live that a tree needs, and in rising order.
fn is_live(draft: &Draft, region: &Region) -> bool
    ensures { result ≡ is_live (drafted draft.now) (table_region region.now) }
{
    let names = region.live.as_slice();
    let known = Known::Live { names };
    rises(names) && are_below(names) && covers(draft, &known, &region.tree)
}

/// Whether each of some numbers is a variable's.
fn are_below(names: &[u32]) -> bool
    ensures { result ≡ list_all (λ x. nat_lt x 96) names.now }
{
    names.iter().all(|name| *name < VARIABLES)
}

/// Whether a number is below the first of some others.
fn starts_above(number: u32, others: &[u32]) -> bool
    ensures { result ≡ starts_above number others.now }
{
    match others.first() {
        None => true,
        Some(next) => number < *next,
    }
}

/// Whether numbers rise.
fn rises(numbers: &[u32]) -> bool
    ensures { result ≡ rises numbers.now }
{
    for at in 0..numbers.len() {
        if !starts_above(numbers[at], &numbers[at + 1..]) {
            return false;
        }
    }
    true
}

/// Whether a variable is known.
fn has(known: &Known, name: u32) -> bool
    ensures { result ≡ known_at known.now name }
{
    match known {
        Known::Live { names } => names.contains(&name),
        Known::Written {
            name: written,
            above,
        } => *written == name || has(above, name),
    }
}

/// Whether an operand is a literal or a known variable.
fn knows(known: &Known, operand: Operand) -> bool
    ensures { result ≡ knows (known_at known.now) operand }
{
    match operand {
        Operand::Name(name) => has(known, name),
        Operand::Lit(_) => true,
    }
}

/// Whether each operand of an item is.
fn knows_item(known: &Known, item: Item) -> bool
    ensures { result ≡ knows_item (known_at known.now) item }
{
    match item.operands() {
        Operands::None => true,
        Operands::One(one) => knows(known, one),
        Operands::Two(one, other) => knows(known, one) && knows(known, other),
    }
}

/// Whether each of some variables is.
fn knows_all(known: &Known, names: &[u32]) -> bool
    ensures { result ≡ list_all (known_at known.now) names.now }
{
    names.iter().all(|name| has(known, *name))
}

/// Whether all that is live at the head of a region is known.
fn knows_region(draft: &Draft, known: &Known, region: u32) -> bool
    ensures { result ≡ list_all (known_at known.now) (region_live (drafted draft.now) region) }
{
    match draft.regions.get(region as usize) {
        None => true,
        Some(region) => knows_all(known, region.live.as_slice()),
    }
}

/// Whether all that a tree needs is known.
fn covers(draft: &Draft, known: &Known, tree: &RegionTree) -> bool
    ensures { result ≡ covers (drafted draft.now) (known_at known.now) (table_tree tree.now) }
{
    match tree {
        RegionTree::Step { item, next, .. } => {
            if !knows_item(known, *item) {
                return false;
            }
            match item.dest() {
                None => covers(draft, known, next),
                Some(name) => {
                    let above = &*known;
                    covers(draft, &Known::Written { name, above }, next)
                }
            }
        }
        RegionTree::Test { on, yes, no, .. } => {
            knows(known, *on) && covers(draft, known, yes) && covers(draft, known, no)
        }
        RegionTree::Next { region } => knows_region(draft, known, *region),
        RegionTree::Stop => true,
        RegionTree::Trap { .. } => true,
    }
}
