//! How many rows have room for so much.
ghost use Rattle.std.specs.Prelude.{ℕ, ◌≤◌, ◌*◌};
ghost use Rattle.pc_word.specs.Ranges.{AreLimits};
ghost use Rattle.pc_told.specs.Resources.{IsLeastRoom};

use pc_word::Limits;

/// The least number of rows that has room for so many items, tests, and loads and stores. An iteration with so many of them takes
/// at least as many rows, however it is scheduled.
pub fn resource_bound(limits: Limits, items: u32, tests: u32, memory: u32) -> u32
    requires { AreLimits limits }
    ensures { IsLeastRoom limits items tests memory result }
{
    let for_items = rows_for(items, limits.ops);
    let for_tests = rows_for(tests, limits.tests);
    let for_memory = rows_for(memory, limits.mem);
    for_items.max(for_tests).max(for_memory)
}

/// The least number of rows that has room for so many, where each has room for this many.
fn rows_for(count: u32, each: u8) -> u32
    requires { 1 ≤ each }
    ensures room { count ≤ result * each }
    ensures least { (others : ℕ) → count ≤ others * each → result ≤ others }
{
    count.div_ceil(each as u32)
}
