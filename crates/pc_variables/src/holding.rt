//! Names that hold scalars.
ghost use Rattle.std.specs.Prelude.{◌≡◌, OnOk};
ghost use Rattle.pc_variables.specs.Holdings.{is_held, scalar_of, with_name, if_scalar};

use crate::HoldingList;
use pc_word::MOST_SCALARS;
use std::alloc::AllocError;

/// A name of a state, and the scalar of the source whose value it holds.
#[derive(Clone, Copy, Debug, PartialEq, Eq)]
pub struct Holding {
    pub name: u32,
    pub scalar: u32,
}

/// Whether a name is among those that hold a scalar.
fn is_held(holdings: &[Holding], name: u32) -> bool
    ensures { result ≡ is_held holdings.now name }
{
    holdings.iter().any(|holding| holding.name == name)
}

/// The scalar that a name holds, if it holds one.
pub fn scalar_of(holdings: &[Holding], name: u32) -> Option<u32>
    ensures { result ≡ scalar_of holdings.now name }
{
    for holding in holdings {
        if holding.name == name {
            return Some(holding.scalar);
        }
    }
    None
}

/// A variable of the flow graph, if it is a scalar of the source and no temporary.
pub(crate) fn if_scalar(variable: u32) -> Option<u32>
    ensures { result ≡ if_scalar variable }
{
    if variable < MOST_SCALARS {
        return Some(variable);
    }
    None
}

/// Appends a name that holds a scalar, where there are both, unless it is among the others.
pub(crate) fn push_name(
    holdings: &mut HoldingList,
    name: Option<u32>,
    scalar: Option<u32>,
) -> Result<(), AllocError>
    ensures { OnOk result (holdings.new ≡ with_name holdings.old name scalar) }
{
    let (Some(name), Some(scalar)) = (name, scalar) else {
        return Ok(());
    };
    if is_held(holdings.as_slice(), name) {
        return Ok(());
    }
    holdings.push(Holding { name, scalar })
}
