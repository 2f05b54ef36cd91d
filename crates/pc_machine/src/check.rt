ghost use Rattle.std.specs.Prelude.{◌≡◌, ◌+◌, ◌≤◌, slice_get, ◌↔◌};
ghost use Rattle.std.specs.List.{flat_map};
ghost use Rattle.pc_machine.specs.MachineCode.{row_of, code_of, rows_of};
ghost use Rattle.pc_word.specs.Items.{dest_of, is_memory, is_effect};
ghost use Rattle.pc_machine.specs.WellFormed.{WellFormed};
ghost use Rattle.pc_machine.specs.Flaws.{limit_flaws, array_count_flaws, register_count_flaws, length_flaws, lengths_flaws, row_count_flaws, header_flaws, nothing_above};
ghost use Rattle.pc_machine.specs.Flaws.{data_count_flaws, data_tail_flaws, data_flaws, initial_flaws};
ghost use Rattle.pc_machine.specs.Flaws.{above_with, no_counts, counts_with_item, counts_with_test, counts_after, item_tag_flaws, test_tag_flaws};
ghost use Rattle.pc_machine.specs.Flaws.{register_flaws, dest_flaws, operand_flaws, array_flaws, target_flaws, field_flaws, item_flaws, test_flaws};
ghost use Rattle.pc_machine.specs.Flaws.{leaf_flaws, row_flaws, flaws_of};
ghost use Rattle.pc_word.specs.Exact.{checked};
ghost use Rattle.pc_machine.specs.Checks.{above_of, IsDest};
ghost use Rattle.pc_word.specs.MachineLimits.{most_elements};
ghost use Rattle.pc_machine.specs.Registers.{most_registers};

use crate::code::{Code, FEW_REGISTERS, Flaw, MOST_REGISTERS};
use crate::tree::{Leaf, Tree};
use pc_word::{
    Item, Limits, MOST_ARRAYS, MOST_ELEMENTS, MOST_LENGTH, MOST_MEM, MOST_OPS, MOST_TESTS, Operand,
    RowTree, WordList,
};

/// What each row of a code is held against: its limits, and how many registers, arrays and rows the
/// code has.
#[derive(Clone, Copy, Debug, PartialEq, Eq)]
pub struct Bounds {
    pub limits: Limits,
    pub registers: usize,
    pub arrays: usize,
    pub rows: usize,
}

/// How many items, tests, and loads and stores of a tree stand before a field, on whatever path.
#[derive(Clone, Copy, Debug, PartialEq, Eq)]
pub struct Counts {
    pub ops: u8,
    pub tests: u8,
    pub mem: u8,
}

/// What stands above a field on its path: which registers are written, and whether there is a
/// print, read or more.
#[derive(Clone, Copy, Debug)]
pub struct Path {
    written: [bool; MOST_REGISTERS],
    effect: bool,
}

impl Counts {
    /// The counts at the root of a tree.
    pub fn none() -> Counts
        ensures { result ≡ no_counts }
    {
        Counts {
            ops: 0,
            tests: 0,
            mem: 0,
        }
    }
}

impl Path {
    /// The path at the root of a tree.
    pub fn root() -> Path
        ensures { above_of result ≡ nothing_above }
    {
        Path {
            written: [false; MOST_REGISTERS],
            effect: false,
        }
    }

    /// The path below an item.
    pub fn below(&self, item: &Item) -> Path
        requires { IsDest most_registers (dest_of item.now) }
        ensures { above_of result ≡ above_with item.now (above_of self.now) }
    {
        let mut written = self.written;
        if let Some(register) = item.dest() {
            written[register as usize] = true;
        }
        Path {
            written,
            effect: item.is_effect() || self.effect,
        }
    }

    /// Whether an item on this path writes a register.
    fn writes(&self, register: u32) -> bool
        ensures { result ≡ (above_of self.now).written register }
    {
        self.written
            .get(register as usize)
            .copied()
            .unwrap_or(false)
    }
}

impl Bounds {
    /// Checks the tag of an item, which is or is not a load or store, and a print, read or more:
    /// `TooManyOps` or `TooManyMem` where the tree has as many already, and then `EffectTwice`
    /// where the path has a print, read or more. Gives the counts after the item.
    pub fn item_tag(
        &self,
        counts: Counts,
        path: &Path,
        memory: bool,
        effect: bool,
    ) -> Result<Counts, Flaw>
        ensures { result ≡ checked (item_tag_flaws self.now.limits counts (above_of path.now) memory effect) (counts_with_item memory counts) }
    {
        if self.limits.ops <= counts.ops {
            return Err(Flaw::TooManyOps);
        }
        if memory && self.limits.mem <= counts.mem {
            return Err(Flaw::TooManyMem);
        }
        if effect && path.effect {
            return Err(Flaw::EffectTwice);
        }
        Ok(Counts {
            ops: counts.ops + 1,
            tests: counts.tests,
            mem: if memory { counts.mem + 1 } else { counts.mem },
        })
    }

    /// Checks the tag of a test: `TooManyTests` where the tree has as many already. Gives the
    /// counts after the test.
    pub fn test_tag(&self, counts: Counts) -> Result<Counts, Flaw>
        ensures { result ≡ checked (test_tag_flaws self.now.limits counts) (counts_with_test counts) }
    {
        if self.limits.tests <= counts.tests {
            return Err(Flaw::TooManyTests);
        }
        Ok(Counts {
            ops: counts.ops,
            tests: counts.tests + 1,
            mem: counts.mem,
        })
    }

    /// Checks that a register is there; else `Register`.
    pub fn register(&self, register: u32) -> Result<(), Flaw>
        ensures { result ≡ checked (register_flaws self.now.registers register) tt }
    {
        if self.registers <= register as usize {
            return Err(Flaw::Register);
        }
        Ok(())
    }

    /// Checks the register that an item under this path writes: `Register` where it is not there,
    /// and else `DestTwice` where the path writes it already.
    pub fn dest(&self, path: &Path, register: u32) -> Result<(), Flaw>
        ensures { result ≡ checked (dest_flaws self.now.registers (above_of path.now) register) tt }
    {
        self.register(register)?;
        if path.writes(register) {
            return Err(Flaw::DestTwice);
        }
        Ok(())
    }

    /// Checks an operand: `Register` where it is a register that is not there.
    pub fn operand(&self, operand: &Operand) -> Result<(), Flaw>
        ensures { result ≡ checked (operand_flaws self.now.registers operand.now) tt }
    {
        match operand {
            Operand::Name(register) => self.register(*register),
            Operand::Lit(_) => Ok(()),
        }
    }

    /// Checks that an array is there; else `Array`.
    pub fn array(&self, array: u8) -> Result<(), Flaw>
        ensures { result ≡ checked (array_flaws self.now.arrays array) tt }
    {
        if self.arrays <= array as usize {
            return Err(Flaw::Array);
        }
        Ok(())
    }

    /// Checks that the row that a goto leads to is there; else `Target`.
    pub fn target(&self, row: u32) -> Result<(), Flaw>
        ensures { result ≡ checked (target_flaws self.now.rows row) tt }
    {
        if self.rows <= row as usize {
            return Err(Flaw::Target);
        }
        Ok(())
    }

    /// Checks the fields after the tag of an item.
    fn fields(&self, path: &Path, item: &Item) -> Result<(), Flaw>
        ensures { result ≡ checked (field_flaws self.now (above_of path.now) item.now) tt }
    {
        match item {
            Item::Bin {
                dest,
                left,
                right,
                ..
            } => {
                self.dest(path, *dest)?;
                self.operand(left)?;
                self.operand(right)
            }
            Item::Copy { dest, from } => {
                self.dest(path, *dest)?;
                self.operand(from)
            }
            Item::Load { dest, array, index } => {
                self.dest(path, *dest)?;
                self.array(*array)?;
                self.operand(index)
            }
            Item::Store {
                array,
                index,
                value,
            } => {
                self.array(*array)?;
                self.operand(index)?;
                self.operand(value)
            }
            Item::Print { value } => self.operand(value),
            Item::Read { dest } => self.dest(path, *dest),
            Item::More { dest } => self.dest(path, *dest),
        }
    }

    /// Checks an item, and gives the counts after it.
    fn item(&self, counts: Counts, path: &Path, item: &Item) -> Result<Counts, Flaw>
        ensures { result ≡ checked (item_flaws self.now counts (above_of path.now) item.now) (counts_with_item (is_memory item.now) counts) }
    {
        let counts = self.item_tag(counts, path, item.is_memory(), item.is_effect())?;
        self.fields(path, item)?;
        Ok(counts)
    }

    /// Checks a test, and gives the counts after it.
    fn test(&self, counts: Counts, on: &Operand) -> Result<Counts, Flaw>
        ensures { result ≡ checked (test_flaws self.now counts on.now) (counts_with_test counts) }
    {
        let counts = self.test_tag(counts)?;
        self.operand(on)?;
        Ok(counts)
    }

    /// Checks a leaf.
    fn leaf(&self, leaf: &Leaf) -> Result<(), Flaw>
        ensures { result ≡ checked (leaf_flaws self.now leaf.now) tt }
    {
        match leaf {
            Leaf::Goto { row } => self.target(*row),
            Leaf::Stop | Leaf::Trap { .. } => Ok(()),
        }
    }

    /// Checks a tree, or the part of one that stands after these counts and under this path, and
    /// gives the counts after it.
    ///
    /// It goes no deeper than the limits let a tree be, since it stops at the first tag too many.
    fn row(&self, counts: Counts, path: &Path, tree: &Tree) -> Result<Counts, Flaw>
        requires { self.now.registers ≤ most_registers }
        ensures { result ≡ checked (row_flaws self.now counts (above_of path.now) (row_of tree.now)) (counts_after (row_of tree.now) counts) }
    {
        match tree {
            RowTree::Step { item, next } => {
                let counts = self.item(counts, path, item)?;
                self.row(counts, &path.below(item), next)
            }
            RowTree::Test { on, yes, no } => {
                let counts = self.test(counts, on)?;
                let counts = self.row(counts, path, yes)?;
                self.row(counts, path, no)
            }
            RowTree::Leaf { leaf } => {
                self.leaf(leaf)?;
                Ok(counts)
            }
        }
    }

    /// Checks rows one after the other.
    fn rows(&self, trees: &[Tree]) -> Result<(), Flaw>
        requires { self.now.registers ≤ most_registers }
        ensures { result ≡ checked (flat_map (row_flaws self.now no_counts nothing_above) (rows_of trees.now)) tt }
    {
        let path = Path::root();
        for tree in trees {
            self.row(Counts::none(), &path, tree)?;
        }
        Ok(())
    }
}

/// Checks a limit, which is from 1 to `most`; else `HeaderLimit`.
pub fn limit(most: u8, limit: u8) -> Result<(), Flaw>
    ensures { result ≡ checked (limit_flaws most limit) tt }
{
    if limit < 1 || most < limit {
        return Err(Flaw::HeaderLimit);
    }
    Ok(())
}

/// Checks the number of arrays, which is at most 32; else `ArrayCount`.
pub fn array_count(count: usize) -> Result<(), Flaw>
    ensures { result ≡ checked (array_count_flaws count) tt }
{
    if MOST_ARRAYS < count {
        return Err(Flaw::ArrayCount);
    }
    Ok(())
}

/// Checks the number of registers, which is 128 or 256; else `Registers`.
pub fn register_count(count: usize) -> Result<(), Flaw>
    ensures { result ≡ checked (register_count_flaws count) tt }
{
    if count != FEW_REGISTERS && count != MOST_REGISTERS {
        return Err(Flaw::Registers);
    }
    Ok(())
}

/// Checks the length of an array after arrays of so many elements: `ArrayLength` where it is not
/// from 1 to 65,536, and then `Elements` where there are more than 1,048,576 elements with it.
/// Gives the elements with it.
pub fn array_length(before: u32, length: u32) -> Result<u32, Flaw>
    requires { before ≤ most_elements }
    ensures { result ≡ checked (length_flaws before length) (before + length) }
{
    if length < 1 || MOST_LENGTH < length {
        return Err(Flaw::ArrayLength);
    }
    if MOST_ELEMENTS < before + length {
        return Err(Flaw::Elements);
    }
    Ok(before + length)
}

/// Checks the count of the words with which an array of so many elements begins; `DataCount` where
/// there are more.
pub fn data_count(elements: usize, count: usize) -> Result<(), Flaw>
    ensures { result ≡ checked (data_count_flaws elements count) tt }
{
    if elements < count {
        return Err(Flaw::DataCount);
    }
    Ok(())
}

/// Checks the last of the words with which an array begins, which is not 0; else `DataTail`.
pub fn data_tail(last: i32) -> Result<(), Flaw>
    ensures { result ≡ checked (data_tail_flaws last) tt }
{
    if last == 0 {
        return Err(Flaw::DataTail);
    }
    Ok(())
}

/// Checks the number of rows, of which there is one; else `RowCount`.
pub fn row_count(count: usize) -> Result<(), Flaw>
    ensures { result ≡ checked (row_count_flaws count) tt }
{
    if count == 0 {
        return Err(Flaw::RowCount);
    }
    Ok(())
}

fn array_lengths(lengths: &[u32]) -> Result<(), Flaw>
    ensures { result ≡ checked (lengths_flaws 0 lengths.now) tt }
{
    let mut elements = 0;
    for length in lengths {
        elements = array_length(elements, *length)?;
    }
    Ok(())
}

/// Checks the words with which an array of so many elements begins.
fn data(elements: u32, words: &[i32]) -> Result<(), Flaw>
    ensures { result ≡ checked (data_flaws elements words.now) tt }
{
    data_count(elements as usize, words.len())?;
    match words {
        [] => Ok(()),
        [.., last] => data_tail(*last),
    }
}

/// Checks the words of arrays of these lengths.
fn initial(lengths: &[u32], lists: &[WordList]) -> Result<(), Flaw>
    ensures { result ≡ checked (initial_flaws lengths.now lists.now) tt }
{
    if lists.len() != lengths.len() {
        return Err(Flaw::DataCount);
    }
    for place in 0..lengths.len() {
        data(lengths[place], lists[place].as_slice())?;
    }
    Ok(())
}

fn header(code: &Code) -> Result<(), Flaw>
    ensures { result ≡ checked (header_flaws (code_of code.now)) tt }
{
    limit(MOST_OPS, code.limits.ops)?;
    limit(MOST_TESTS, code.limits.tests)?;
    limit(MOST_MEM, code.limits.mem)?;
    array_count(code.arrays.len())?;
    register_count(code.registers as usize)?;
    array_lengths(code.arrays.as_slice())?;
    initial(code.arrays.as_slice(), code.initial.as_slice())?;
    row_count(code.rows.len())
}

fn check_code(code: &Code) -> Result<(), Flaw>
    ensures { result ≡ checked (flaws_of (code_of code.now)) tt }
{
    header(code)?;
    let bounds = Bounds {
        limits: code.limits,
        registers: code.registers as usize,
        arrays: code.arrays.len(),
        rows: code.rows.len(),
    };
    bounds.rows(code.rows.as_slice())
}

/// The flaw of a code that stands first in its text; `None` where the code is well formed.
///
/// It takes no memory, and time in proportion to the part of the code before that flaw.
pub fn well_formed(code: &Code) -> Option<Flaw>
    ensures first { result ≡ slice_get (flaws_of (code_of code.now)) 0 }
    ensures none { (result ≡ None) ↔ WellFormed (code_of code.now) }
{
    check_code(code).err()
}
