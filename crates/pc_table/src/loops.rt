//! Loops, by number.
ghost use Rattle.std.specs.Prelude.{◌≡◌, Some};
ghost use Rattle.std.specs.List.{list_any};
ghost use Rattle.pc_table.specs.Loops.{same_loop, if_innermost};

use pc_word::LoopMark;

/// Whether two loops are there and the same.
pub(crate) fn same_loop(one: Option<u16>, other: Option<u16>) -> bool
    ensures { result ≡ same_loop one other }
{
    match (one, other) {
        (Some(one), Some(other)) => one == other,
        _ => false,
    }
}

/// Whether a loop stands in a loop.
fn has_inner(loops: &[LoopMark], outer: u16) -> bool
    ensures { result ≡ list_any (λ mark. same_loop mark.outer (Some outer)) loops.now }
{
    loops.iter().any(|mark| same_loop(mark.outer, Some(outer)))
}

/// A loop, where no other stands in it.
pub(crate) fn if_innermost(loops: &[LoopMark], headed: Option<u16>) -> Option<u16>
    ensures { result ≡ if_innermost loops.now headed }
{
    match headed {
        None => None,
        Some(headed) => {
            if has_inner(loops, headed) {
                None
            } else {
                Some(headed)
            }
        }
    }
}
