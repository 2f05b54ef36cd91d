//! The path of a walk from state to state.
ghost use Rattle.std.specs.Prelude.{◌≡◌, ◌++◌, OnOk};
ghost use Rattle.pc_cycles.specs.models.Paths.{is_on, since};

use crate::TransitionList;
use crate::transition::Transition;
use std::alloc::AllocError;

/// The transitions by which a walk came to a state, the last one first. It lies on the stack of the walk.
#[derive(Drop)]
pub(crate) enum Path<'a> {
    /// None: the walk is where it began.
    Start,
    /// One, after others.
    After {
        transition: Transition,
        before: &'a Path<'a>,
    },
}

/// Whether a transition on the path is from a state.
pub(crate) fn is_on(path: &Path, state: u32) -> bool
    ensures { result ≡ is_on path.now state }
{
    match path {
        Path::Start => false,
        Path::After { transition, before } => { transition.state == state || is_on(before, state) }
    }
}

/// Appends the transitions from the last one on that is from a state.
pub(crate) fn push_since(
    path: &Path,
    state: u32,
    transitions: &mut TransitionList,
) -> Result<(), AllocError>
    ensures { OnOk result (transitions.new ≡ transitions.old ++ since path.now state) }
{
    match path {
        Path::Start => Ok(()),
        Path::After { transition, before } => {
            if transition.state == state {
                return transitions.push(*transition);
            }
            push_since(before, state, transitions)?;
            transitions.push(*transition)
        }
    }
}
