//! What a machine holds: its registers, its arrays, and the input that is left.
ghost use Rattle.std.specs.Prelude.{◌≡◌, ◌<◌, ◌≤◌, ◌++◌, pos, length, replicate, drop, slice_get, slice_set, slice_index, slice_index_or, [], IfOk};
ghost use Rattle.pc_word.specs.Items.{operand_value, place_in, element_at, next_input, some_left, value_of};
ghost use Rattle.pc_machine.specs.WellFormed.{IsOperand, IsItem};
ghost use Rattle.pc_word.specs.Data.{AreData};
ghost use Rattle.pc_vm.specs.Contents.{names_of, cells_of, state_of};
ghost use Rattle.pc_vm.specs.models.Made.{lengths_of, new_array, new_arrays, new_contents};
ghost use Rattle.pc_vm.specs.models.Planned.{with_element, IsInside};
ghost use Rattle.pc_machine.specs.Registers.{most_registers};

use crate::pending::{PendingStore, PendingWrite};
use pc_machine::MOST_REGISTERS;
use pc_word::{Item, Operand, WordList, apply};
use std::alloc::{AllocError, Global};
use std::marker::Model;

/// The registers, the arrays, and the input, of whose words some are taken.
#[derive(Drop)]
pub(crate) struct Values {
    registers: [i32; MOST_REGISTERS],
    arrays: Vec<WordList>,
    input: WordList,
    taken: usize,
}

impl Model for Values {
    ghost use Rattle.std.specs.Prelude.{◌≤◌, length, drop};
    ghost use Rattle.pc_vm.specs.Contents.{Contents};

    ghost Value = { Contents };

    ghost view = { λ a. record { registers = a.registers; cells = a.arrays.items; input = drop a.taken a.input } };

    ghost invariant = { λ a. a.taken ≤ length a.input };
}

impl Values {
    /// All registers are 0, arrays of these lengths begin with these words and go on with 0, and the
    /// whole input is left.
    pub(crate) fn new(
        alloc: Global,
        lengths: &[u32],
        lists: &[WordList],
        input: WordList,
    ) -> Result<Values, AllocError>
        requires { AreData lengths.now lists.now }
        ensures { IfOk result (λ values. values ≡ new_contents lengths.now lists.now input) }
    {
        let arrays = make_arrays(alloc, lengths, lists)?;
        Ok(Values {
            registers: [0; MOST_REGISTERS],
            arrays,
            input,
            taken: 0,
        })
    }

    /// The value of an operand.
    pub(crate) fn operand(&self, operand: &Operand) -> i32
        requires { IsOperand most_registers operand.now }
        ensures { result ≡ operand_value (names_of self.now.registers) operand.now }
    {
        match operand {
            Operand::Name(register) => self.registers[*register as usize],
            Operand::Lit(word) => *word,
        }
    }

    /// The place that an index names in an array, if it is inside.
    pub(crate) fn place(&self, array: u8, index: i32) -> Option<usize>
        requires { array < length self.now.cells }
        ensures { result ≡ place_in (slice_index (lengths_of self.now.cells) array) index }
    {
        let length = self.arrays[array as usize].len();
        place_within(length, index)
    }

    /// The element that an index names in an array, and 0 where it is outside.
    fn element(&self, array: u8, index: i32) -> i32
        requires { array < length self.now.cells }
        ensures { result ≡ element_at (cells_of self.now.cells array) (place_in (slice_index (lengths_of self.now.cells) array) index) }
    {
        element(self.arrays[array as usize].as_slice(), index)
    }

    /// The next input number, if one is left.
    fn next(&self) -> Option<i32>
        ensures { result ≡ slice_get self.now.input 0 }
    {
        self.input.get(self.taken).copied()
    }

    /// Whether an input number is left.
    pub(crate) fn some_left(&self) -> bool
        ensures { result ≡ some_left self.now.input }
    {
        self.next().is_some()
    }

    /// The word that an item writes or stores or prints.
    pub(crate) fn value(&self, item: &Item) -> i32
        requires { IsItem most_registers (length self.now.cells) item.now }
        ensures { result ≡ value_of (lengths_of self.now.cells) (state_of self.now) item.now }
    {
        match item {
            Item::Bin {
                op,
                left,
                right,
                ..
            } => apply(*op, self.operand(left), self.operand(right)),
            Item::Copy { from, .. } => self.operand(from),
            Item::Load { array, index, .. } => self.element(*array, self.operand(index)),
            Item::Store { value, .. } | Item::Print { value } => self.operand(value),
            Item::Read { .. } => self.next().unwrap_or(0),
            Item::More { .. } => i32::from(self.some_left()),
        }
    }

    /// Writes a register.
    pub(crate) fn write(&mut self, write: PendingWrite)
        requires { write.dest < most_registers }
        ensures { self.new ≡ record self.old { registers = slice_set self.old.registers write.dest write.word } }
    {
        self.registers[write.dest as usize] = write.word;
    }

    /// Stores into an array, where the place is inside.
    pub(crate) fn store(&mut self, store: PendingStore)
        requires { IsInside (lengths_of self.old.cells) store }
        ensures { self.new ≡ record self.old { cells = with_element store.array store.place store.word self.old.cells } }
    {
        if let Some(place) = store.place {
            self.arrays[store.array as usize].set(place, store.word);
        }
    }

    /// Takes the next input number, if one is left.
    pub(crate) fn take_input(&mut self)
        ensures { self.new ≡ record self.old { input = drop 1 self.old.input } }
    {
        if self.taken < self.input.len() {
            self.taken += 1;
        }
    }
}

/// The place that an index names in an array of this length, if it is inside.
fn place_within(length: usize, index: i32) -> Option<usize>
    ensures { result ≡ place_in length index }
{
    if index < 0 {
        return None;
    }
    let place = index as usize;
    if place < length { Some(place) } else { None }
}

/// The element that an index names, and 0 where it is outside.
fn element(elements: &[i32], index: i32) -> i32
    ensures { result ≡ element_at (names_of elements.now) (place_in (length elements.now) index) }
{
    match place_within(elements.len(), index) {
        Some(place) => elements[place],
        None => 0,
    }
}

/// A list of so many zeros.
fn zeros(alloc: Global, elements: usize) -> Result<Vec<i32>, AllocError>
    ensures { IfOk result (λ list. list.items ≡ replicate elements (pos 0)) }
{
    vec![in alloc; 0; elements]
}

/// Puts words in the place of the first elements.
fn begin_with(elements: &mut [i32], words: &[i32])
    requires { length words.now ≤ length elements.old }
    ensures { elements.new ≡ words.now ++ drop (length words.now) elements.old }
{
    elements[..words.len()].copy_from_slice(words);
}

/// An array of so many elements that begins with these words and goes on with 0.
fn make_array(alloc: Global, elements: usize, words: &[i32]) -> Result<WordList, AllocError>
    requires { length words.now ≤ elements }
    ensures { IfOk result (λ list. list ≡ new_array elements words.now) }
{
    let mut array = zeros(alloc, elements)?;
    begin_with(array.as_mut_slice(), words);
    Ok(WordList::from_vec(array))
}

/// The words with which an array begins.
fn words_of(lists: &[WordList], array: usize) -> &[i32]
    ensures { result.now ≡ slice_index_or lists.now array [] }
{
    match lists.get(array) {
        Some(words) => words.as_slice(),
        None => &[],
    }
}

/// An array for each length, with its data.
fn make_arrays(
    alloc: Global,
    lengths: &[u32],
    lists: &[WordList],
) -> Result<Vec<WordList>, AllocError>
    requires { AreData lengths.now lists.now }
    ensures { IfOk result (λ arrays. arrays.items ≡ new_arrays lengths.now lists.now) }
{
    let mut arrays = Vec::new(alloc);
    for place in 0..lengths.len() {
        let words = words_of(lists, place);
        arrays.push(make_array(alloc, lengths[place] as usize, words)?)?;
    }
    Ok(arrays)
}
