//! What is told of a search while it runs.
ghost use Rattle.std.specs.Prelude.{OnOk};
ghost use Rattle.pc_window.specs.WindowRun.{Window};
ghost use Rattle.pc_window.specs.Steps.{IsProper};
ghost use Rattle.pc_window.specs.StoredWindow.{window_in, NodesBehind};

use pc_window::{Window, WindowError};
use std::alloc::Global;

/// Someone who is told the window of each state that a search makes.
pub trait Recorder {
    /// What is taken: the recorder before, the window of one more state, and the recorder after.
    ghost takes: { Self → Window → Self → Type 0 };

    /// Takes the window of the next state, which was filled: its front is the state's row. The search fails where this
    /// does.
    fn take(&mut self, alloc: Global, filled: &Window) -> Result<(), WindowError>
        requires proper { IsProper (window_in filled.now) }
        requires nodes { NodesBehind filled.now.tree }
        ensures { OnOk result (takes self.old (window_in filled.now) self.new) };
}

/// A recorder that keeps nothing.
#[derive(Clone, Copy, Debug)]
pub struct Unrecorded;

impl Recorder for Unrecorded {
    ghost takes = { λ before filled after. Unit {0} };

    fn take(&mut self, _alloc: Global, _filled: &Window) -> Result<(), WindowError> {
        Ok(())
    }
}
