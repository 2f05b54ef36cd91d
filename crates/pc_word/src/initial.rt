//! The words with which arrays begin.
ghost use Rattle.std.specs.Prelude.{◌≡◌, [], replicate, IfOk};

use crate::{DataList, WordList};
use std::alloc::{AllocError, Global};

/// No words for any of so many arrays, which so begin with 0 alone.
pub fn no_data(alloc: Global, arrays: usize) -> Result<DataList, AllocError>
    ensures { IfOk result (λ lists. lists ≡ replicate arrays []) }
{
    let mut lists = DataList::new(alloc);
    for _ in 0..arrays {
        lists.push(WordList::new(alloc))?;
    }
    Ok(lists)
}
