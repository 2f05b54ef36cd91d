ghost use Rattle.std.specs.Prelude.{◌≡◌, ◌<◌, IfSome, map, reverse, length};
ghost use Rattle.pc_syntax.specs.UnitErasure.{function_of};
ghost use Rattle.pc_inline.specs.models.Finding.{place_among};

use pc_syntax::Function;

/// The place of the last function of a name, counted from 0.
pub(crate) fn find(functions: &[Function], symbol: u32) -> Option<usize>
    ensures at { result ≡ place_among (reverse (map function_of functions.now)) symbol }
    ensures within { IfSome result (λ place. place < length functions.now) }
{
    let mut found = None;
    for (at, function) in functions.iter().enumerate() {
        if function.symbol == symbol {
            found = Some(at);
        }
    }
    found
}
