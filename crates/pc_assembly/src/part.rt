use pc_machine::Leaf;
use pc_word::{Item, Operand};

/// What a line of a row tells: an item, a test or a leaf.
#[derive(Clone, Copy, Debug, PartialEq, Eq)]
pub enum Part {
    Item(Item),
    Test(Operand),
    Leaf(Leaf),
}
