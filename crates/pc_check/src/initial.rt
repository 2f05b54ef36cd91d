//! The values of an array's initialiser, and the data that they make.
ghost use Rattle.std.specs.Prelude.{◌≡◌, ◌≤◌, [], OnOk, IfOk, IfErr, length, take, slice_get};
ghost use Rattle.pc_check.specs.InitialData.{values_of, without_last_zeros, data_of};
ghost use Rattle.pc_check.specs.Faults.{surplus_faults};
ghost use Rattle.pc_check.specs.models.Resolves.{IsFirst};

use crate::error::CheckError;
use pc_syntax::Const;
use pc_word::WordList;
use std::alloc::Global;

/// Refuses more values than an array of `size` elements has room for.
pub(crate) fn check_values(size: u32, values: &[Const]) -> Result<(), CheckError>
    ensures fit { OnOk result (surplus_faults (slice_get values.now size) ≡ []) }
    ensures refused { IfErr result (λ e. IsFirst e (surplus_faults (slice_get values.now size))) }
{
    match values.get(size as usize) {
        None => Ok(()),
        Some(surplus) => Err(CheckError::TooManyValues { line: surplus.line }),
    }
}

/// How many of these values stand in front of the zeros at their end.
fn significant(values: &[Const]) -> usize
    ensures within { result ≤ length values.now }
    ensures kept { without_last_zeros (values_of values.now) ≡ take result (values_of values.now) }
{
    let mut kept = 0;
    for (place, constant) in values.iter().enumerate() {
        if constant.value != 0 {
            kept = place + 1;
        }
    }
    kept
}

/// The data of an array that is initialised with these values.
#[tactic(auto, using(crate::proofs::DataLaws::data_found))]
pub(crate) fn data_of(alloc: Global, values: &[Const]) -> Result<WordList, CheckError>
    ensures value { IfOk result (λ words. words ≡ data_of values.now) }
    ensures full { IfErr result (λ e. e ≡ CheckError.Memory) }
{
    let kept = significant(values);
    let mut words = WordList::new(alloc);
    for constant in &values[..kept] {
        words.push(constant.value)?;
    }
    Ok(words)
}
