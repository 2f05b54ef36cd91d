//! Whether a code's arrays are those of a source.
ghost use Rattle.std.specs.Prelude.{◌≡◌, ◌↔◌, true};
ghost use Rattle.pc_machine.specs.MachineCode.{code_of};
ghost use Rattle.pc_accepted.specs.Accepted.{HasData};

use pc_machine::Code;
use pc_word::{DataList, LengthList, WordList};

/// Whether two lists of words are equal.
fn same_words(words: &[i32], others: &[i32]) -> bool
    ensures { (result ≡ true) ↔ (words.now ≡ others.now) }
{
    words == others
}

/// Whether lists of lists of words are equal.
#[tactic(auto, using(crate::proofs::SameData::lists))]
fn same_lists(lists: &[WordList], others: &[WordList]) -> bool
    ensures { (result ≡ true) ↔ (lists.now ≡ others.now) }
{
    if lists.len() != others.len() {
        return false;
    }
    for at in 0..lists.len() {
        if !same_words(lists[at].as_slice(), others[at].as_slice()) {
            return false;
        }
    }
    true
}

/// Whether a code has arrays of these lengths, which begin with these words.
pub(crate) fn has_data(code: &Code, arrays: &LengthList, words: &DataList) -> bool
    ensures { (result ≡ true) ↔ HasData arrays.now words.now (code_of code.now) }
{
    if code.arrays.as_slice() != arrays.as_slice() {
        return false;
    }
    same_lists(code.initial.as_slice(), words.as_slice())
}
