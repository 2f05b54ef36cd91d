//! How often numbers stand in a list.
ghost use Rattle.std.specs.Prelude.{◌≡◌, ◌<◌, ◌^◌, nat_eq, length};
ghost use Rattle.std.specs.List.{count_by};
ghost use Rattle.pc_cycles.specs.Cycles.{IsGreatestCount};

/// How often that number stands in a list which stands there most often. It takes time in proportion to the square of the length.
#[tactic(auto, using(crate::proofs::Frequencies::frequencies))]
pub(crate) fn greatest_count(numbers: &[u32]) -> u32
    requires { length numbers.now < 2 ^ 32 }
    ensures { IsGreatestCount numbers.now result }
{
    let mut most = 0;
    for number in numbers {
        most = most.max(count(numbers, *number));
    }
    most
}

/// How often a number stands in a list.
fn count(numbers: &[u32], number: u32) -> u32
    requires { length numbers.now < 2 ^ 32 }
    ensures { result ≡ count_by (nat_eq number) numbers.now }
{
    numbers.iter().filter(|other| number == **other).count() as u32
}
