//! Windows that are small enough for a key.
ghost use Rattle.std.specs.Prelude.{◌≡◌, true};
ghost use Rattle.pc_replay.specs.Replaying.{IsSmall};

use pc_window::Window;
use pc_window_specimen::size;

/// Whether a window is small enough for a key.
pub(crate) fn is_small(window: &Window) -> bool
    ensures { (result ≡ true) → IsSmall window.now }
{
    if size(&window.tree).is_none() {
        return false;
    }
    if window.names.forms.len() >= 1 << 31 {
        return false;
    }
    window.names.next_variable < 1 << 31
}
