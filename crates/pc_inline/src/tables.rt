ghost use Rattle.std.specs.Prelude.{◌≡◌, true, IfOk, OnOk, IfErr, [], option_map, length};
ghost use Rattle.pc_syntax.specs.Erasure.{expression_of};
ghost use Rattle.pc_syntax.specs.UnitErasure.{unit_list_of, unit_of};
ghost use Rattle.pc_calls.specs.Measures as of;
ghost use Rattle.pc_calls.specs.Counted as counted;
ghost use Rattle.pc_calls.specs.Inlining.{size_refusals};
ghost use Rattle.pc_inline.specs.models.First.{IsFirst};
ghost use Rattle.pc_inline.specs.models.Sized.{AlikeExtents, AreSizes, IsSize, extent_seen, seen};

use crate::counting::{FunctionSize, extent, list_size};
use crate::error::InlineError;
use crate::size::Size;
use pc_syntax::{Function, SourceUnit};
use pc_word::Seq;
use std::alloc::{AllocError, Global};

/// The statements that an inlined program may have.
const MOST_STATEMENTS: u32 = 65_536;

/// The nodes that its expressions may have.
const MOST_EXPRESSION_NODES: u32 = 262_144;

/// How high it may be, with the block of `main`.
const MOST_HEIGHT: u32 = 256;

/// What is counted of a function, by the sizes of those before it.
fn function_size(function: &Function, earlier: &[Function], sizes: &[FunctionSize]) -> FunctionSize
    ensures parameters { result.parameters ≡ length function.now.params }
    ensures items { IsSize result.items (counted.counted_list (seen earlier.now sizes.now) true (unit_list_of function.now.items)) }
    ensures value { AlikeExtents (option_map extent_seen result.result)
        (option_map of.extent (option_map expression_of function.now.result)) }
{
    let value = match &function.result {
        None => None,
        Some(value) => Some(extent(value)),
    };
    FunctionSize {
        parameters: function.params.len(),
        items: list_size(&function.items, earlier, sizes, true),
        result: value,
    }
}

/// What is counted of each function, once, in the order of the text.
fn function_sizes(alloc: Global, functions: &[Function]) -> Result<Seq<FunctionSize>, AllocError>
    ensures { IfOk result (λ sizes. AreSizes functions.now sizes) }
{
    let mut sizes = Seq::new(alloc);
    for (at, function) in functions.iter().enumerate() {
        let size = function_size(function, &functions[..at], sizes.as_slice());
        sizes.push(size)?;
    }
    Ok(sizes)
}

/// The size of the inlined program, counted of the unit alone.
pub(crate) fn unit_size(alloc: Global, unit: &SourceUnit) -> Result<Size, AllocError>
    ensures { IfOk result (λ size. IsSize size (counted.unit_size (unit_of unit.now))) }
{
    let functions = unit.functions.as_slice();
    let sizes = function_sizes(alloc, functions)?;
    Ok(list_size(&unit.main.items, functions, sizes.as_slice(), false))
}

/// Refuses an inlined program for its size.
pub(crate) fn refuse_size(size: Size) -> Result<(), InlineError>
    ensures passed { (is : of.Size) → IsSize size is → OnOk result (size_refusals is ≡ []) }
    ensures refused { (is : of.Size) → IsSize size is → IfErr result (λ e. IsFirst e (size_refusals is)) }
{
    if size.count > MOST_STATEMENTS {
        return Err(InlineError::TooBig);
    }
    if size.nodes > MOST_EXPRESSION_NODES {
        return Err(InlineError::TooBig);
    }
    if size.height >= MOST_HEIGHT {
        return Err(InlineError::TooHigh);
    }
    Ok(())
}
