//! The words with which arrays begin, copied.
ghost use Rattle.std.specs.Prelude.{◌≡◌, All, IfOk, OnOk};
ghost use Rattle.pc_word.specs.Word.{IsWord};

use pc_word::{DataList, WordList};
use std::alloc::{AllocError, Global};

/// The same words.
fn copy_words(alloc: Global, from: &WordList) -> Result<WordList, AllocError>
    ensures copied { IfOk result (λ words. words ≡ from.now) }
    ensures fit { OnOk result (All IsWord from.now) }
{
    let mut words = WordList::new(alloc);
    for word in from.as_slice().iter() {
        words.push(*word)?;
    }
    Ok(words)
}

/// The same words for each array.
pub(crate) fn copy_data(alloc: Global, from: &DataList) -> Result<DataList, AllocError>
    ensures copied { IfOk result (λ lists. lists ≡ from.now) }
    ensures fit { OnOk result (All (All IsWord) from.now) }
{
    let mut lists = DataList::new(alloc);
    for words in from.as_slice().iter() {
        lists.push(copy_words(alloc, words)?)?;
    }
    Ok(lists)
}
